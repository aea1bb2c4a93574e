//! The line of a verdict, its object of JSON, and its status.

ghost use Rattle.std.specs.Prelude.{◌≡◌, ◌++◌, OnOk, Some, string_bytes};
ghost use Rattle.mx_explorer.specs.VerdictLines.{broken_json, verdict_json, verdict_line, verdict_status, verdict_text};

use crate::verdict::Verdict;
use std::alloc::AllocError;
use std::fmt;

/// The line of a verdict.
#[derive(Clone, Copy)]
pub struct VerdictLine(pub Verdict);

impl fmt::Display for VerdictLine {
    ghost output = { λ v. Some (verdict_line v.0) };

    fn fmt<W: fmt::Write>(&self, f: &mut fmt::Formatter<W>) -> fmt::Result {
        match self.0 {
            Verdict::Sound => writeln!(f, "verdict sound"),
            Verdict::Broken(index, clause) => {
                writeln!(f, "verdict broken at {index}: {}", clause.word())
            }
        }
    }
}

/// Appends the line of a verdict, or its object of JSON if `is_json`.
pub fn add_verdict(is_json: bool, verdict: Verdict, text: &mut String) -> Result<(), AllocError>
    ensures { OnOk result (string_bytes text.new
        ≡ string_bytes text.old ++ verdict_text is_json verdict) }
{
    if is_json {
        return add_verdict_json(verdict, text);
    }
    text.write(VerdictLine(verdict))
}

fn add_verdict_json(verdict: Verdict, text: &mut String) -> Result<(), AllocError>
    ensures { OnOk result (string_bytes text.new ≡ string_bytes text.old ++ verdict_json verdict) }
{
    match verdict {
        Verdict::Sound => text.push_str("{\"verdict\":\"sound\"}\n"),
        Verdict::Broken(index, clause) => add_broken_json(index, clause.word(), text),
    }
}

fn add_broken_json(index: u64, clause: &str, text: &mut String) -> Result<(), AllocError>
    ensures { OnOk result (string_bytes text.new
        ≡ string_bytes text.old ++ broken_json index clause.now) }
{
    write!(
        text,
        "{{\"verdict\":\"broken\",\"index\":{index},\"clause\":\"{clause}\"}}\n"
    )
}

/// Returns the exit status for a verdict: 0 if the trace is sound, 4 if it is broken.
pub fn verdict_status(verdict: Verdict) -> u8
    ensures { result ≡ verdict_status verdict }
{
    match verdict {
        Verdict::Sound => 0,
        Verdict::Broken(_, _) => 4,
    }
}
