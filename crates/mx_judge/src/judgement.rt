//! What is printed of a trace and its verdict.

ghost use Rattle.std.specs.Prelude.{◌≡◌, ◌++◌, IfOk, OnOk, string_bytes};
ghost use Rattle.mx_judge.specs.Listed.{listed};
ghost use Rattle.mx_judge.specs.Judged as spec;

use crate::entry_json::add_entries;
use crate::reasons::{entered_in, reason_for};
use crate::trace::Trace;
use mx_explorer::{Verdict, VerdictLine};
use mx_format::json::{add_number, add_word, start_word};
use mx_plan::Plan;
use mx_trace::Entry;
use std::alloc::{AllocError, Global};

/// Returns what `judge` prints of a trace with this verdict. `word` is what a place in its text is
/// called.
///
/// # Errors
///
/// Returns `AllocError` if memory runs out.
pub fn judgement_of(
    alloc: Global,
    is_json: bool,
    plan: &Plan,
    word: &str,
    trace: &Trace,
    verdict: Verdict,
) -> Result<String, AllocError>
    ensures { spec.IsVerdictOf (listed trace.now).entries verdict
        → IfOk result (λ text. string_bytes text
        ≡ spec.judgement_text is_json plan.now word.now (listed trace.now) verdict) }
{
    let reason = reason_for(alloc, plan, trace.entries.as_slice(), verdict)?;
    let judged = Judged {
        word,
        trace,
        reason: reason.as_str(),
    };
    let mut text = String::new(alloc);
    judged.add_text(is_json, plan, verdict, &mut text)?;
    Ok(text)
}

/// A trace, and why it is broken.
#[derive(Clone, Copy)]
struct Judged<'a> {
    word: &'a str,
    trace: &'a Trace,
    reason: &'a str,
}

impl Judged<'_> {
    fn add_text(
        &self,
        is_json: bool,
        plan: &Plan,
        verdict: Verdict,
        text: &mut String,
    ) -> Result<(), AllocError>
        ensures { OnOk result (string_bytes text.new ≡ string_bytes text.old
            ++ spec.judged_text self.now.word.now (listed self.now.trace.now) self.now.reason.now
            is_json plan.now verdict) }
    {
        if is_json {
            add_entries(plan, self.trace, text)?;
            self.add_object(verdict, text)
        } else {
            self.add_lines(verdict, text)
        }
    }

    fn add_lines(&self, verdict: Verdict, text: &mut String) -> Result<(), AllocError>
        ensures { OnOk result (string_bytes text.new ≡ string_bytes text.old
            ++ spec.judged_lines self.now.word.now (listed self.now.trace.now)
            self.now.reason.now verdict) }
    {
        add_counts(self.trace.entries.as_slice(), text)?;
        text.write(VerdictLine(verdict))?;
        self.add_reason_lines(verdict, text)
    }

    fn add_reason_lines(&self, verdict: Verdict, text: &mut String) -> Result<(), AllocError>
        ensures { OnOk result (string_bytes text.new ≡ string_bytes text.old
            ++ spec.reason_lines self.now.word.now (listed self.now.trace.now)
            self.now.reason.now verdict) }
    {
        match verdict {
            Verdict::Sound => Ok(()),
            Verdict::Broken(index, _) => {
                let (word, place, reason) = (self.word, self.trace.place_of(index), self.reason);
                writeln!(text, "{word} {place}: {reason}")
            }
        }
    }

    /// Appends the object of the verdict.
    fn add_object(&self, verdict: Verdict, text: &mut String) -> Result<(), AllocError>
        ensures { OnOk result (string_bytes text.new ≡ string_bytes text.old
            ++ spec.verdict_object self.now.word.now (listed self.now.trace.now)
            self.now.reason.now verdict) }
    {
        start_verdict(verdict, text)?;
        add_counts_members(self.trace.entries.as_slice(), text)?;
        self.add_reason_members(verdict, text)?;
        text.push_str("}\n")
    }

    fn add_reason_members(&self, verdict: Verdict, text: &mut String) -> Result<(), AllocError>
        ensures { OnOk result (string_bytes text.new ≡ string_bytes text.old
            ++ spec.reason_members self.now.word.now (listed self.now.trace.now)
            self.now.reason.now verdict) }
    {
        match verdict {
            Verdict::Sound => Ok(()),
            Verdict::Broken(index, _) => {
                add_number(self.word, self.trace.place_of(index), text)?;
                add_word("reason", self.reason, text)
            }
        }
    }
}

fn add_counts(entries: &[Entry], text: &mut String) -> Result<(), AllocError>
    ensures { OnOk result (string_bytes text.new
        ≡ string_bytes text.old ++ spec.counts_line entries.now) }
{
    let (events, sections) = (entries.len(), entered_in(entries));
    writeln!(text, "events {events}, sections {sections}")
}

fn start_verdict(verdict: Verdict, text: &mut String) -> Result<(), AllocError>
    ensures { OnOk result (string_bytes text.new
        ≡ string_bytes text.old ++ spec.verdict_start verdict) }
{
    match verdict {
        Verdict::Sound => start_word("verdict", "sound", text),
        Verdict::Broken(index, clause) => {
            start_word("verdict", "broken", text)?;
            add_number("index", index, text)?;
            add_word("clause", clause.word(), text)
        }
    }
}

fn add_counts_members(entries: &[Entry], text: &mut String) -> Result<(), AllocError>
    ensures { OnOk result (string_bytes text.new
        ≡ string_bytes text.old ++ spec.counts_members entries.now) }
{
    add_number("events", entries.len() as u64, text)?;
    add_number("sections", entered_in(entries), text)
}
