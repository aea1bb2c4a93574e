//! The reply of a journal to a node that lacks records.

ghost use Rattle.std.specs.Prelude.{◌≡◌, ◌≤◌, IsTrue, take};
ghost use Rattle.mx_stamps.specs.Lists.{IsIn};
ghost use Rattle.mx_journal.specs.declared.ranges.Range.{Range};
ghost use Rattle.mx_journal.specs.Agreement.{IsSubmap};
ghost use Rattle.mx_merge.specs.Missing.{in_ranges, lies_in};

use arrayvec::ArrayVec;
use mx_journal::{Journal, Range, Record};

const RECORDS_AT_ONCE: usize = 4;

/// Returns copies of the journal's records with numbers in one of the ranges, ascending: the first
/// four, or all if there are fewer. Sections that the base covers have no records.
pub fn answer(journal: &Journal, ranges: &[Range]) -> ArrayVec<Record, RECORDS_AT_ONCE>
    ensures value { result.items ≡ take 4 (in_ranges ranges.now journal.now.records) }
    ensures known { IsSubmap result.items journal.now.records }
{
    let mut found = ArrayVec::new();
    let mut last = least_first(ranges).saturating_sub(1);
    while let Some(entry) = journal.next_after(last) {
        if found.is_full() {
            return found;
        }
        if is_in_some(ranges, entry.number) {
            found.push(entry.copy());
        }
        last = entry.number;
    }
    found
}

fn least_first(ranges: &[Range]) -> u64
    ensures { (range : Range) → IsIn range ranges.now → result ≤ range.first }
{
    let mut least = u64::MAX;
    for range in ranges {
        least = least.min(range.first);
    }
    least
}

fn is_in_some(ranges: &[Range], number: u64) -> bool
    ensures { result ≡ lies_in ranges.now number }
{
    ranges
        .iter()
        .any(|range| range.first <= number && number <= range.last)
}
