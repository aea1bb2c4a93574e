//! The report on files: a line for each fault and each warning.

ghost use Rattle.std.specs.Prelude.{◌≡◌, ◌↔◌, ◌++◌, [], ◌∷◌, IfOk, OnErr, OnOk, true, string_bytes};
ghost use Rattle.mx_explain.specs.Reports.{AddsLine, AreShown, last_line, line_text, nothing_at_fault, report_text};

use crate::location::FilePart;
use mx_lines::add_escaped_text;
use std::alloc::{AllocError, Global};
use std::fmt::Display;
use std::marker::Model;

pub(crate) type ReportResult = Result<(), AllocError>;

/// The greatest number of faults, and of warnings, of one kind that are shown.
pub(crate) const MAX_LINES: usize = 20;

#[derive(Drop)]
pub(crate) struct FaultReport {
    alloc: Global,
    text: String,
}

impl Model for FaultReport {
    ghost use Rattle.std.specs.Prelude.{string_bytes};
    ghost use Rattle.mx_plan.specs.Text.{Text};
    ghost use Rattle.mx_explain.specs.Reports.{IsReportText};

    ghost Value = { Text };

    ghost view = { λ r. string_bytes r.text };

    ghost invariant = { λ r. IsReportText (string_bytes r.text) };
}

impl FaultReport {
    pub(crate) fn new(alloc: Global) -> FaultReport
        ensures { result ≡ [] }
    {
        FaultReport {
            alloc,
            text: String::new(alloc),
        }
    }

    pub(crate) fn alloc(&self) -> Global {
        self.alloc
    }

    pub(crate) fn add(&mut self, file: &str, message: &str) -> ReportResult
        ensures ok { OnOk result (AddsLine file.now message.now self.old self.new) }
        ensures err { OnErr result (self.new ≡ self.old) }
    {
        let line = line_of(self.alloc, file, message)?;
        self.text.push_str(line.as_str())?;
        Ok(())
    }

    /// Adds a line about the byte `offset` of a part. The message begins with a space.
    pub(crate) fn add_at<D: Display + Drop>(
        &mut self,
        part: &FilePart<'_>,
        offset: usize,
        message: D,
    ) -> ReportResult {
        let location = part.location(offset);
        let text = format!(in self.alloc; "{location}:{message}")?;
        self.add(part.file, text.as_str())
    }

    pub(crate) fn count(&mut self, file: &str, more: u64) -> ReportResult {
        if more == 0 {
            return Ok(());
        }
        let text = format!(in self.alloc; " and {more} more")?;
        self.add(file, text.as_str())
    }

    pub(crate) fn into_text(mut self, is_well: bool) -> Result<String, AllocError>
        ensures well { IfOk result (λ text. is_well ≡ true
            → string_bytes text ≡ report_text self) }
        ensures printable { IfOk result (λ text. AreShown (string_bytes text)) }
        ensures last { IfOk result (λ text. (last_line (string_bytes text) ≡ nothing_at_fault)
            ↔ (is_well ≡ true)) }
    {
        if !is_well {
            return Ok(self.text);
        }
        self.text.push_str("nothing is at fault\n")?;
        Ok(self.text)
    }
}

fn line_of(alloc: Global, file: &str, message: &str) -> Result<String, AllocError>
    ensures { IfOk result (λ line.
        string_bytes line ≡ line_text file.now message.now ++ 10 ∷ []) }
{
    let mut line = String::new(alloc);
    add_escaped_text(file, &mut line)?;
    line.push_str(":")?;
    add_escaped_text(message, &mut line)?;
    line.push_str("\n")?;
    Ok(line)
}
