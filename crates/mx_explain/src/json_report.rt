//! The report on a text of JSON.

use crate::bad_token::report_bad_token;
use crate::location::FilePart;
use crate::report::{FaultReport, ReportResult};
use crate::spot::Spot;
use json::{Error, Scratch, Value};
use mx_lines::{Nearest, Quoted, nearest};
use std::alloc::{AllocError, Global};
use std::fmt;
use std::fmt::Display;

/// Reads a text of JSON. If it is none, reports where it stops being JSON.
pub(crate) fn read_value<'a>(
    report: &mut FaultReport,
    part: &FilePart<'a>,
    scratch: &'a mut Scratch,
) -> Result<Option<Value<'a>>, AllocError> {
    if report_bad_token(report, part)? {
        return Ok(None);
    }
    match Value::from_slice(report.alloc(), part.text, scratch) {
        Ok(value) => Ok(Some(value)),
        Err(Error::OutOfMemory) => Err(AllocError),
        Err(_) => Ok(None),
    }
}

/// The report on a text of JSON, by places in it.
#[derive(Drop)]
pub(crate) struct JsonReport<'r> {
    pub(crate) report: &'r mut FaultReport,
    pub(crate) part: FilePart<'r>,
}

/// A place where something else is expected: one of the known words, if there are any.
#[derive(Clone, Copy)]
pub(crate) struct WrongSpot<'w, 'a> {
    pub(crate) spot: Spot<'w, 'a>,
    pub(crate) expected: &'w str,
    pub(crate) known: &'w [&'w str],
}

impl<'w, 'a> WrongSpot<'w, 'a> {
    pub(crate) fn of(spot: Spot<'w, 'a>, expected: &'w str) -> Self {
        let known: &[&str] = &[];
        WrongSpot {
            spot,
            expected,
            known,
        }
    }
}

impl JsonReport<'_> {
    pub(crate) fn alloc(&self) -> Global {
        self.report.alloc()
    }

    pub(crate) fn add_wrong(&mut self, wrong: &WrongSpot<'_, '_>) -> ReportResult {
        let alloc = self.alloc();
        let (spot, expected) = (wrong.spot, wrong.expected);
        let nearest = Nearest(nearest(alloc, spot.text(), wrong.known)?);
        let text = match spot.value.map(Actual) {
            Some(actual) => { format!(in alloc; "found {actual}, expected {expected}{nearest}")? }
            None => format!(in alloc; "missing; expected {expected}{nearest}")?,
        };
        self.add(spot, text.as_str())
    }

    pub(crate) fn add(&mut self, spot: Spot<'_, '_>, message: &str) -> ReportResult {
        let offset = spot.offset(self.alloc(), self.part.text)?;
        let text = format!(in self.alloc(); " {spot}: {message}")?;
        self.report.add_at(&self.part, offset, text.as_str())
    }
}

#[derive(Clone, Copy)]
struct Actual<'v, 'a>(&'v Value<'a>);

impl Display for Actual<'_, '_> {
    fn fmt<W: fmt::Write>(&self, f: &mut fmt::Formatter<W>) -> fmt::Result {
        match self.0 {
            Value::Null => f.write_str("null"),
            Value::Bool(value) => write!(f, "{value}"),
            Value::Number(text) if text.len() > 40 => {
                write!(f, "a number of {} bytes", text.len())
            }
            Value::Number(text) => f.write_str(text),
            Value::String(text) => write!(f, "{}", Quoted(text)),
            Value::Array(items) => write!(f, "an array of {}", items.len()),
            Value::Object(_) => f.write_str("an object"),
        }
    }
}
