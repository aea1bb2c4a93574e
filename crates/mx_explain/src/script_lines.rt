//! What is wrong in the lines of a script.

use crate::location::FilePart;
use crate::report::{FaultReport, MAX_LINES, ReportResult};
use crate::spot::index_in;
use mx_lines::{FirstWords, first_error, message, place_of_word, words_in};
use mx_plan::Plan;
use std::alloc::{AllocError, Global};

/// Reports the first wrong word of each line of a script; of a text of JSON, that it is no script.
pub(crate) fn explain_lines(
    report: &mut FaultReport,
    part: &FilePart<'_>,
    plan: &Plan,
) -> ReportResult {
    if let Some(offset) = json_begin(part.text) {
        return report.add_at(
            part,
            offset,
            " found JSON, expected the lines of a script; events are explained without --script",
        );
    }
    let mut begin = 0usize;
    let mut count = 0u64;
    for line in part.text.split(|byte| *byte == b'\n') {
        let is_shown = count < MAX_LINES as u64;
        if report_line(report, part, plan, begin, line, is_shown)? {
            count = count.saturating_add(1);
        }
        begin = begin.saturating_add(line.len()).saturating_add(1);
    }
    report.count(part.file, count.saturating_sub(MAX_LINES as u64))
}

fn json_begin(text: &[u8]) -> Option<usize> {
    let begin = text.iter().position(|byte| !byte.is_ascii_whitespace())?;
    match text.get(begin) {
        Some(b'[' | b'{') => Some(begin),
        _ => None,
    }
}

/// Returns the byte at which a text begins, after blank lines and comments, if it begins with a word
/// of scripts.
pub(crate) fn script_begin(alloc: Global, text: &[u8]) -> Result<Option<usize>, AllocError> {
    let Some((begin, word)) = str::from_utf8(text).ok().and_then(first_word) else {
        return Ok(None);
    };
    let known = FirstWords::OfScripts.listed(alloc)?;
    Ok(index_in(word, known.as_slice()).map(|_| begin))
}

/// Returns the first word of a script, and the byte at which it begins.
fn first_word(text: &str) -> Option<(usize, &str)> {
    let mut begin = 0usize;
    for line in text.split('\n') {
        if let Some(place) = place_of_word(line, 0) {
            let word = line.get(place..)?.split(ends_word).next()?;
            return Some((begin.saturating_add(place), word));
        }
        begin = begin.saturating_add(line.len()).saturating_add(1);
    }
    None
}

fn ends_word(character: char) -> bool {
    character == '#' || character.is_whitespace()
}

/// Reports what is wrong in a line that begins at the byte `begin` of the part, if that is to be
/// shown. Returns whether something is.
fn report_line(
    report: &mut FaultReport,
    part: &FilePart<'_>,
    plan: &Plan,
    begin: usize,
    line: &[u8],
    is_shown: bool,
) -> Result<bool, AllocError> {
    let alloc = report.alloc();
    let line = match str::from_utf8(line) {
        Ok(line) => line,
        Err(e) => {
            if is_shown {
                let offset = begin.saturating_add(e.valid_up_to());
                report.add_at(part, offset, " found bytes that are not UTF-8")?;
            }
            return Ok(true);
        }
    };
    let words = words_in(alloc, line)?;
    let Some(error) = first_error(plan, words.as_slice()) else {
        return Ok(false);
    };
    if is_shown {
        let text = message(alloc, plan, FirstWords::OfScripts, words.as_slice(), &error)?;
        let place = place_of_word(line, error.word).unwrap_or(0);
        report.add_at(part, begin.saturating_add(place), text.as_str())?;
    }
    Ok(true)
}
