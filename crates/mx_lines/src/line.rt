ghost use Rattle.std.specs.Prelude.{◌≡◌, Err, IfNone, IfSome, IsOk};
ghost use Rattle.mx_lines.specs.Lines.{expects, line_of, repeated, times_of};
ghost use Rattle.mx_lines.specs.Names.{texts_of};

use crate::errors::{Expected, LineError, LineFault, refuse};
use crate::names::KnownNames;
use crate::numbers::number_of;
use crate::orders::{Order, order_at};
use mx_stamps::MAX_EVENTS;

/// An order, and how often it is done.
#[derive(Clone, Copy)]
pub struct Line {
    pub times: u64,
    pub order: Order,
}

/// What a line of a script asks for.
#[derive(Clone, Copy)]
pub enum ScriptLine {
    Does(Line),
    /// The outcome of the last event is the words after the first.
    Expects,
    /// The line has no words.
    Nothing,
}

/// Parses the words of a line.
///
/// # Errors
///
/// Returns the first wrong word, from the left. A wrong number of arguments goes before a wrong
/// argument, as an error of the word that takes the arguments; but after `times`, a wrong number
/// goes before a missing line.
pub fn read_line<N: KnownNames>(names: &N, words: &[&str]) -> Result<ScriptLine, LineError>
    ensures { result ≡ line_of (N.known names.now) (texts_of words.now) }
{
    let Some((first, rest)) = words.split_first() else {
        return Ok(ScriptLine::Nothing);
    };
    if *first == "times" {
        return repeated(names, rest);
    }
    if *first == "expect" {
        return expects(rest);
    }
    let order = order_at(names, 0, first, rest)?;
    Ok(ScriptLine::Does(Line { times: 1, order }))
}

fn expects(words: &[&str]) -> Result<ScriptLine, LineError>
    ensures { result ≡ expects (texts_of words.now) }
{
    if words.is_empty() {
        return refuse(LineFault::WordCount, 0, Expected::Outcome);
    }
    Ok(ScriptLine::Expects)
}

fn repeated<N: KnownNames>(names: &N, words: &[&str]) -> Result<ScriptLine, LineError>
    ensures { result ≡ repeated (N.known names.now) (texts_of words.now) }
{
    let Some((count, order)) = words.split_first() else {
        return refuse(LineFault::WordCount, 0, Expected::Repetition);
    };
    let times = times_of(count)?;
    let Some((first, rest)) = order.split_first() else {
        return refuse(LineFault::WordCount, 0, Expected::Repetition);
    };
    let order = order_at(names, 2, first, rest)?;
    Ok(ScriptLine::Does(Line { times, order }))
}

fn times_of(text: &str) -> Result<u64, LineError>
    ensures { result ≡ times_of text.now }
{
    match number_of(text) {
        Some(times) if times <= MAX_EVENTS as u64 => Ok(times),
        Some(_) => refuse(LineFault::TooMany, 1, Expected::Times),
        None => refuse(LineFault::NotNumber, 1, Expected::Times),
    }
}

/// The first wrong word of a line, if one is wrong.
pub fn first_error<N: KnownNames>(names: &N, words: &[&str]) -> Option<LineError>
    ensures some { IfSome result
        (λ error. line_of (N.known names.now) (texts_of words.now) ≡ Err error) }
    ensures none { IfNone result (IsOk (line_of (N.known names.now) (texts_of words.now))) }
{
    match read_line(names, words) {
        Ok(_) => None,
        Err(error) => Some(error),
    }
}
