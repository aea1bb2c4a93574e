//! Where a text stops being JSON.

use crate::location::FilePart;
use crate::report::FaultReport;
use arrayvec::ArrayVec;
use json::{Scratch, Value, is_valid};
use std::alloc::{AllocError, Global};

/// How many brackets may be open at a time: `serde_json` reads no text that nests deeper.
const MAX_OPEN: usize = 127;

const STRING: &str =
    "a text in one line without control characters, each \\ of which begins an escape of a whole character";

#[derive(Clone, Copy)]
enum BadToken {
    Expected(&'static str),
    Is(&'static str),
    /// The text ends before what opens at this byte is closed.
    Cut(usize),
}

/// Reports the first token by which a text is not JSON. Returns whether there is one.
pub(crate) fn report_bad_token(
    report: &mut FaultReport,
    part: &FilePart<'_>,
) -> Result<bool, AllocError> {
    let alloc = report.alloc();
    let end = match str::from_utf8(part.text) {
        Ok(text) => text.len(),
        Err(e) => e.valid_up_to(),
    };
    let text = str::from_utf8(part.text.get(..end).unwrap_or(&[])).unwrap_or("");
    let (offset, cause) = match first_bad_token(alloc, text)? {
        Some((offset, cause)) if end == part.text.len() || offset < end => (offset, cause),
        None if end == part.text.len() => return Ok(false),
        _ => (text.len(), BadToken::Is("found bytes that are not UTF-8")),
    };
    let mut message = String::from_str(alloc, " not JSON: ")?;
    match cause {
        BadToken::Expected(expected) => {
            write!(message, "expected {expected}, found: ")?;
            let line = rest_of(text, offset).lines().next().unwrap_or("");
            for character in line.chars().take(24) {
                message.push(character)?;
            }
        }
        BadToken::Is(words) => message.push_str(words)?,
        BadToken::Cut(opened) => {
            let opened = part.location(opened);
            write!(
                message,
                "the text ends here, and what opens at {opened} is not closed"
            )?;
        }
    }
    report.add_at(part, offset, message.as_str())?;
    Ok(true)
}

fn rest_of(text: &str, offset: usize) -> &str {
    text.get(offset..).unwrap_or("")
}

#[derive(Clone, Copy, PartialEq, Eq)]
enum Next {
    Value,
    ValueOrSquare,
    Key,
    KeyOrCurly,
    Colon,
    /// A comma or a closing bracket, or the end of the text.
    AfterValue,
}

#[derive(Drop)]
struct Scanner {
    next: Next,
    /// Each open bracket with the offset at which it stands, the outermost first.
    open: ArrayVec<(u8, usize), MAX_OPEN>,
}

/// Returns the first token that does not fit and its byte. Each has a byte or more, which bounds
/// the loop.
fn first_bad_token(alloc: Global, text: &str) -> Result<Option<(usize, BadToken)>, AllocError> {
    if text.starts_with("\u{feff}") {
        return Ok(Some((0, BadToken::Is("found a byte order mark"))));
    }
    let mut scratch = Scratch::new(alloc);
    let mut scanner = Scanner {
        next: Next::Value,
        open: ArrayVec::new(),
    };
    let mut offset = 0usize;
    for _ in 0..text.len().saturating_add(1) {
        let rest = rest_of(text, offset).trim_start_matches(is_blank);
        offset = text.len().saturating_sub(rest.len());
        let token = token_of(rest);
        let is_value = is_valid(token, &mut scratch)?;
        match scanner.take(token, is_value, offset) {
            Ok(_) if token.is_empty() => return Ok(None),
            Ok(next) => scanner.next = next,
            Err(BadToken::Cut(opened)) => return Ok(Some((text.len(), BadToken::Cut(opened)))),
            Err(cause) => return Ok(Some((offset, cause))),
        }
        offset = offset.saturating_add(token.len());
    }
    Ok(None)
}

/// Returns the token with which a text begins: a mark, a string with its quotes, or a word. Returns
/// an empty text at the end, and the whole text for a string that is not closed.
fn token_of(text: &str) -> &str {
    let bytes = text.as_bytes();
    let end = match bytes.first() {
        Some(b'{' | b'}' | b'[' | b']' | b':' | b',') => 1,
        Some(b'"') => string_end(bytes).unwrap_or(bytes.len()),
        _ => text.find(ends_word).unwrap_or(text.len()),
    };
    text.get(..end).unwrap_or(text)
}

/// Returns the byte behind the string with which a text begins, if it is closed.
fn string_end(text: &[u8]) -> Option<usize> {
    let mut is_escaped = true;
    for (offset, byte) in text.iter().enumerate() {
        if *byte == b'"' && !is_escaped {
            return Some(offset.saturating_add(1));
        }
        is_escaped = *byte == b'\\' && !is_escaped;
    }
    None
}

fn is_blank(character: char) -> bool {
    matches!(character, ' ' | '\t' | '\r' | '\n')
}

fn ends_word(character: char) -> bool {
    is_blank(character) || matches!(character, '"' | '{' | '}' | '[' | ']' | ':' | ',')
}

impl Scanner {
    /// Takes the token at the byte `offset`, an empty one at the end of the text. Returns what may
    /// come next.
    fn take(&mut self, token: &str, is_value: bool, offset: usize) -> Result<Next, BadToken> {
        match (token, self.next) {
            ("", _) => self.end(),
            ("{", Next::Value | Next::ValueOrSquare) => self.open(b'{', offset, Next::KeyOrCurly),
            ("[", Next::Value | Next::ValueOrSquare) => {
                self.open(b'[', offset, Next::ValueOrSquare)
            }
            ("}", Next::KeyOrCurly | Next::AfterValue) => self.close(b'{'),
            ("]", Next::ValueOrSquare | Next::AfterValue) => self.close(b'['),
            (":", Next::Colon) => Ok(Next::Value),
            (",", Next::AfterValue) => match self.innermost() {
                Some(b'{') => Ok(Next::Key),
                Some(_) => Ok(Next::Value),
                None => Err(self.misfit()),
            },
            (_, Next::Colon | Next::AfterValue) => Err(self.misfit()),
            _ if token.starts_with("\"") && !is_value => Err(bad_string(token, offset)),
            (_, Next::Key | Next::KeyOrCurly) if is_value && token.starts_with("\"") => Ok(
                Next::Colon,
            ),
            (_, Next::Value | Next::ValueOrSquare) if is_value => after_value(token),
            _ => Err(self.misfit()),
        }
    }

    fn end(&self) -> Result<Next, BadToken> {
        match (self.open.as_slice().last(), self.next) {
            (Some((_, opened)), _) => Err(BadToken::Cut(*opened)),
            (None, Next::AfterValue) => Ok(Next::AfterValue),
            _ => Err(BadToken::Is("the text ends here, expected a value")),
        }
    }

    fn open(&mut self, bracket: u8, offset: usize, next: Next) -> Result<Next, BadToken> {
        match self.open.try_push((bracket, offset)) {
            Ok(()) => Ok(next),
            Err(_) => Err(BadToken::Is("brackets nest deeper than 127 here")),
        }
    }

    fn close(&mut self, bracket: u8) -> Result<Next, BadToken> {
        if self.innermost() != Some(bracket) {
            return Err(self.misfit());
        }
        let _ = self.open.pop();
        Ok(Next::AfterValue)
    }

    fn innermost(&self) -> Option<u8> {
        let (bracket, _) = self.open.as_slice().last()?;
        Some(*bracket)
    }

    fn misfit(&self) -> BadToken {
        BadToken::Expected(match (self.next, self.innermost()) {
            (Next::Value, _) => "a value",
            (Next::ValueOrSquare, _) => "a value or ]",
            (Next::Key, _) => "a key in double quotes",
            (Next::KeyOrCurly, _) => "a key in double quotes or }",
            (Next::Colon, _) => "a colon",
            (Next::AfterValue, Some(b'{')) => "a comma or }",
            (Next::AfterValue, Some(_)) => "a comma or ]",
            (Next::AfterValue, None) => "the end of the text",
        })
    }
}

/// Returns why a string at the byte `offset` is no value: it is not closed, or malformed.
fn bad_string(token: &str, offset: usize) -> BadToken {
    let bytes = token.as_bytes();
    if string_end(bytes).is_some() || bytes.iter().any(|byte| *byte < 32) {
        BadToken::Expected(STRING)
    } else {
        BadToken::Cut(offset)
    }
}

/// Returns what may come after a string or a word, unless it is a number too large for an `f64`.
fn after_value(token: &str) -> Result<Next, BadToken> {
    let number: Value<'_, Global> = Value::Number(token);
    match number.as_f64() {
        Some(value) if value.is_infinite() => Err(BadToken::Is("found a number that is too large")),
        _ => Ok(Next::AfterValue),
    }
}
