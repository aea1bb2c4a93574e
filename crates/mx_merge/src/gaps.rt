//! The section numbers that a journal lacks.

ghost use Rattle.std.specs.Prelude.{◌≡◌, ◌≤◌, ◌++◌, take, length};
ghost use Rattle.mx_merge.specs.Missing.{IsListOfGaps, gap_after, gaps_in};

use arrayvec::ArrayVec;
use mx_journal::{Journal, Range};

const RANGES_AT_ONCE: usize = 8;

/// Returns the ranges of the numbers from 1 to `limit` that the journal does not cover, ascending,
/// each as wide as possible. If there are more than eight, returns the first eight.
pub fn missing(journal: &Journal, limit: u64) -> ArrayVec<Range, RANGES_AT_ONCE>
    ensures gaps { IsListOfGaps 8 limit journal.now result.items }
    ensures value { result.items ≡ take 8 (gaps_in limit journal.now) }
{
    let mut gaps = ArrayVec::new();
    // each number up to this one is covered, or lies in a gap that was handled
    let mut last = journal.gapless_to();
    while let Some(entry) = journal.next_after(last) {
        if entry.number > limit || gaps.is_full() {
            break;
        }
        add_gap(&mut gaps, last, entry.number - 1);
        last = journal.gapless_after(entry.number);
    }
    add_gap(&mut gaps, last, limit);
    gaps
}

fn add_gap(gaps: &mut ArrayVec<Range, 8>, before: u64, last: u64)
    ensures { gaps.new.items ≡ take 8 (gaps.old.items ++ gap_after before last) }
{
    if !gaps.is_full() && before < last {
        gaps.push(Range {
            first: before + 1,
            last,
        });
    }
}
