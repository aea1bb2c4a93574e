//! The event of a trace that a picture marks.

ghost use Rattle.std.specs.Prelude.{◌≡◌, ◌++◌, IfOk, OnOk, Some, option_map, string_bytes};
ghost use Rattle.mx_judge.specs.Judged.{IsVerdictOf};
ghost use Rattle.mx_judge.specs.Listed.{listed};
ghost use Rattle.mx_picture.specs.Marks.{mark_of, marked_by, why_at, why_of, why_text};

use mx_explorer::{Clause, Verdict};
use mx_judge::{Trace, reason_for};
use mx_plan::Plan;
use std::alloc::{AllocError, Global};

/// The index of the event that breaks a rule, and why it does.
#[derive(Drop)]
pub(crate) struct Marked {
    index: u64,
    why: String,
}

impl Marked {
    /// Returns why the event of this index is marked, if it is.
    pub(crate) fn why_at(&self, index: u64) -> Option<&str>
        ensures { option_map (λ why. why.now) result ≡ why_at index (mark_of self.now) }
    {
        if self.index == index {
            Some(self.why.as_str())
        } else {
            None
        }
    }
}

/// Returns the event that breaks a trace of this verdict. `word` is what a place in the text of the
/// trace is called.
pub(crate) fn marked_by(
    alloc: Global,
    plan: &Plan,
    word: &str,
    trace: &Trace,
    verdict: Verdict,
) -> Result<Option<Marked>, AllocError>
    ensures { IsVerdictOf (listed trace.now).entries verdict → IfOk result (λ marked.
        option_map mark_of marked ≡ marked_by plan.now word.now (listed trace.now) verdict) }
{
    let reason = reason_for(alloc, plan, trace.entries.as_slice(), verdict)?;
    match verdict {
        Verdict::Sound => Ok(None),
        Verdict::Broken(index, clause) => {
            let why = why_text(alloc, clause, word, trace.place_of(index), reason.as_str())?;
            Ok(Some(Marked { index, why }))
        }
    }
}

/// Returns which rule an event breaks, its place in the text of the trace, and why it does.
fn why_text(
    alloc: Global,
    clause: Clause,
    word: &str,
    place: u64,
    reason: &str,
) -> Result<String, AllocError>
    ensures { IfOk result (λ text.
        string_bytes text ≡ why_text clause word.now place reason.now) }
{
    let mut text = String::new(alloc);
    add_why(clause.word(), word, place, reason, &mut text)?;
    Ok(text)
}

fn add_why(
    clause: &str,
    word: &str,
    place: u64,
    reason: &str,
    text: &mut String,
) -> Result<(), AllocError>
    ensures { OnOk result (string_bytes text.new
        ≡ string_bytes text.old ++ why_of clause.now word.now place reason.now) }
{
    write!(text, "{clause}, {word} {place}: {reason}")
}
