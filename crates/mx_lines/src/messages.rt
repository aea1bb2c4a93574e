//! The messages about lines that are refused.

ghost use Rattle.std.specs.Prelude.{IfOk, string_bytes};
ghost use Rattle.mx_lines.specs.Escapes.{ArePrintable};

use crate::edits::nearest;
use crate::errors::{Expected, LineError, LineFault, OwnWord};
use crate::escapes::add_escaped_text;
use crate::names::KnownNames;
use crate::verbs::Verb;
use crate::words::before_comment;
use mx_events::{ArgumentKind, EVENT_KINDS, EventKind};
use mx_plan::Plan;
use std::alloc::{AllocError, Global};
use std::fmt;
use std::fmt::Display;

/// A word of more bytes is not shown, only its length.
const MAX_BYTES: usize = 40;

/// The words with which orders may begin, beside the words of events.
const ORDER_WORDS: [&str; 5] = ["lose", "again", "cut", "partition", "heal"];

/// The words with which lines of scripts may begin, beside those.
const SCRIPT_WORDS: [&str; 2] = ["times", "expect"];

const SESSION_WORDS: [&str; 11] = [
    "show", "undo", "redo", "events", "script", "save", "mark", "help", "end", "quit", "exit",
];

/// The words that end a session or overwrite a file. None is suggested in place of a wrong word.
const UNSUGGESTED_WORDS: [&str; 4] = ["save", "end", "quit", "exit"];

/// Words that neither events nor scripts use, each with the word that is meant instead.
const MEANT_WORDS: [(&str, &str); 6] = [
    ("request", "ask"),
    ("send", "deliver"),
    ("drop", "lose"),
    ("release", "leave"),
    ("crash", "cut"),
    ("quit", "leave"),
];

/// With which words an event or a line may begin.
#[derive(Clone, Copy, PartialEq, Eq)]
pub enum FirstWords {
    /// The words of events.
    OfEvents,
    /// Those, and the words of other orders: what may be repeated.
    OfOrders,
    /// All those, and the words of scripts.
    OfScripts,
    /// All those, and the words of sessions.
    OfSessions,
}

impl FirstWords {
    /// Returns the words beside those of events.
    fn beside_events(self) -> &'static [&'static [&'static str]] {
        match self {
            FirstWords::OfEvents => &[],
            FirstWords::OfOrders => &[&ORDER_WORDS],
            FirstWords::OfScripts => &[&ORDER_WORDS, &SCRIPT_WORDS],
            FirstWords::OfSessions => &[&ORDER_WORDS, &SCRIPT_WORDS, &SESSION_WORDS],
        }
    }

    /// Returns the words in the order in which a message lists them.
    ///
    /// # Errors
    ///
    /// Returns `AllocError` if memory runs out.
    pub fn listed(self, alloc: Global) -> Result<Vec<&'static str>, AllocError> {
        let mut words = Vec::new(alloc);
        for kind in &EVENT_KINDS {
            words.push(kind.word())?;
        }
        for more in self.beside_events() {
            words.extend_from_slice(more)?;
        }
        Ok(words)
    }
}

/// Returns the message about the wrong word of a line with these words. It begins with a space.
pub fn message<N: KnownNames>(
    alloc: Global,
    names: &N,
    first_words: FirstWords,
    words: &[&str],
    error: &LineError,
) -> Result<String, AllocError> {
    let word = words.get(error.word).copied().unwrap_or("");
    let known = match error.expected {
        Expected::Word if error.word == 0 => first_words.listed(alloc)?,
        Expected::Word => FirstWords::OfOrders.listed(alloc)?,
        Expected::Node => names.node_names(alloc)?,
        Expected::Register => names.register_names(alloc)?,
        _ => Vec::new(alloc),
    };
    let is_list = matches!(error.expected, Expected::Word);
    let mut text = String::new(alloc);
    text.write(Wrong {
        word,
        after: words_after(words, error),
        expected: expected_text(error.expected),
        known: known.as_slice(),
        nearest: suggested(alloc, word, known.as_slice(), is_list)?,
        is_list,
    })?;
    if is_list {
        text.write(Meant(meant_by(word, known.as_slice())))?;
    }
    Ok(text)
}

/// Returns the nearest of the known names or words, but no word that ends a session or overwrites a
/// file.
fn suggested<'a>(
    alloc: Global,
    word: &str,
    known: &[&'a str],
    are_words: bool,
) -> Result<Option<&'a str>, AllocError> {
    let near = nearest(alloc, word, known)?;
    match near {
        Some(word) if are_words && is_among(word, &UNSUGGESTED_WORDS) => Ok(None),
        _ => Ok(near),
    }
}

fn is_among(word: &str, words: &[&str]) -> bool {
    words.iter().any(|other| *other == word)
}

/// Returns which of the known words is meant by a word that is none of them, if that is clear.
pub fn meant_by(word: &str, known: &[&str]) -> Option<&'static str> {
    for (other, meant) in &MEANT_WORDS {
        if *other == word && is_among(meant, known) {
            return Some(*meant);
        }
    }
    None
}

/// Returns the message about a line whose words are right, but that can't be done: a space, and the
/// line without its comment.
pub fn message_of_line(alloc: Global, line: &str) -> Result<String, AllocError> {
    let mut text = String::new(alloc);
    text.push_str(" ")?;
    add_escaped_text(before_comment(line).trim(), &mut text)?;
    Ok(text)
}

/// Returns the message about a name that no node of a plan has: printable text. It begins with a
/// space.
///
/// # Errors
///
/// Returns `AllocError` if memory runs out.
pub fn message_of_unknown_node(alloc: Global, plan: &Plan, name: &str) -> Result<String, AllocError>
    ensures { IfOk result (λ text. ArePrintable (string_bytes text)) }
{
    let nodes = plan.node_names(alloc)?;
    let unknown = UnknownNode {
        name,
        nearest: nearest(alloc, name, nodes.as_slice())?,
    };
    let mut raw = String::new(alloc);
    raw.write(unknown)?;
    let mut message = String::with_capacity(alloc, raw.len())?;
    add_escaped_text(raw.as_str(), &mut message)?;
    Ok(message)
}

/// The message about a name that no node has, with the nearest name of a node, if one is near.
#[derive(Clone, Copy)]
struct UnknownNode<'a> {
    name: &'a str,
    nearest: Option<&'a str>,
}

impl Display for UnknownNode<'_> {
    fn fmt<W: fmt::Write>(&self, f: &mut fmt::Formatter<W>) -> fmt::Result {
        let name = Quoted(self.name);
        let nearest = Nearest(self.nearest);
        write!(f, " {name}, expected a node of the plan{nearest}")
    }
}

/// Returns how many words stand after the word of an error, if their number is what is wrong.
fn words_after(words: &[&str], error: &LineError) -> Option<usize> {
    match error.expected {
        Expected::Repetition
        | Expected::Sides
        | Expected::Outcome
        | Expected::Arguments(_)
        | Expected::OwnArguments(_) => {
            Some(words.len().saturating_sub(error.word).saturating_sub(1))
        }
        _ => None,
    }
}

/// Returns what is expected, as a phrase; an empty one for `Expected::Word`, whose words are listed
/// instead.
fn expected_text(expected: Expected) -> &'static str {
    match expected {
        Expected::Word => "",
        Expected::Single => "a line that is repeated once",
        Expected::Node => "a node of the plan",
        Expected::OtherNode => "a node that is not left of |",
        Expected::Register => "a register of the plan",
        Expected::Number => "a whole number of 64 bits without a sign",
        Expected::Parcel => "all, or the number of a parcel",
        Expected::Times => "a whole number, 0 to 1000000",
        Expected::Repetition => "a number and a line after the word",
        Expected::Sides => "nodes, | and nodes after the word",
        Expected::Outcome => "an outcome after the word",
        Expected::Arguments(Verb::Event(kind)) => arguments_text(kind),
        Expected::Arguments(Verb::Lose) => {
            "all, the number of a parcel, or two nodes after the word"
        }
        Expected::Arguments(Verb::CutNode) => "a node or two after the word",
        Expected::Arguments(Verb::HealNode) => "nothing, a node or two after the word",
        Expected::Arguments(_) => "two nodes after the word",
        Expected::OwnArguments(OwnWord::Show) => "a node or nothing after the word",
        Expected::OwnArguments(OwnWord::Undo) => "a number or nothing after the word",
        Expected::OwnArguments(OwnWord::Save) => "a file after the word",
        Expected::OwnArguments(OwnWord::Mark) => "a word after the word",
        Expected::OwnArguments(_) => "nothing after the word",
    }
}

fn arguments_text(kind: EventKind) -> &'static str {
    match kind.arguments() {
        [ArgumentKind::Node] => "a node after the word, and no more",
        [ArgumentKind::Node, ArgumentKind::Node] => "two nodes after the word",
        [ArgumentKind::Node, ArgumentKind::Register] => "a node and a register after the word",
        [ArgumentKind::Node, ArgumentKind::Section] => {
            "a node and the number of a section after the word"
        }
        [ArgumentKind::Parcel] => "all, the number of a parcel, or two nodes after the word",
        _ => "a node, a register and a number after the word",
    }
}

/// The message about a wrong word, or about a wrong number of words after one.
#[derive(Clone, Copy)]
struct Wrong<'a> {
    word: &'a str,
    /// How many words stand after the word, if their number is wrong.
    after: Option<usize>,
    expected: &'a str,
    known: &'a [&'a str],
    nearest: Option<&'a str>,
    /// Whether the message lists the known words, in place of `expected`.
    is_list: bool,
}

impl Display for Wrong<'_> {
    fn fmt<W: fmt::Write>(&self, f: &mut fmt::Formatter<W>) -> fmt::Result {
        write!(f, " found {}", Quoted(self.word))?;
        write!(f, "{}, expected ", WordsAfter(self.after))?;
        if self.is_list {
            write!(f, "{}", Listed(self.known))?;
        } else {
            f.write_str(self.expected)?;
        }
        write!(f, "{}", Nearest(self.nearest))
    }
}

/// The text that says how many words stand after one; empty if their number is not wrong.
#[derive(Clone, Copy)]
struct WordsAfter(Option<usize>);

impl Display for WordsAfter {
    fn fmt<W: fmt::Write>(&self, f: &mut fmt::Formatter<W>) -> fmt::Result {
        match self.0 {
            Some(0) => f.write_str(" without words after it"),
            Some(1) => f.write_str(" with 1 word after it"),
            Some(count) => write!(f, " with {count} words after it"),
            None => Ok(()),
        }
    }
}

/// Words in a sentence: with commas, and an `or` before the last.
#[derive(Clone, Copy)]
pub struct Listed<'a>(pub &'a [&'a str]);

impl Display for Listed<'_> {
    fn fmt<W: fmt::Write>(&self, f: &mut fmt::Formatter<W>) -> fmt::Result {
        for (k, word) in self.0.iter().enumerate() {
            f.write_str(separator(k, self.0.len()))?;
            f.write_str(word)?;
        }
        Ok(())
    }
}

fn separator(k: usize, count: usize) -> &'static str {
    match count.saturating_sub(k) {
        _ if k == 0 => "",
        1 => " or ",
        _ => ", ",
    }
}

/// A word in quotes; if it has more than 40 bytes, its length.
#[derive(Clone, Copy)]
pub struct Quoted<'a>(pub &'a str);

impl Display for Quoted<'_> {
    fn fmt<W: fmt::Write>(&self, f: &mut fmt::Formatter<W>) -> fmt::Result {
        let text = self.0;
        if text.len() > MAX_BYTES {
            return write!(f, "a text of {} bytes", text.len());
        }
        write!(f, "{text:?}")
    }
}

/// The text that says which word is meant; empty if that is not clear.
#[derive(Clone, Copy)]
pub struct Meant<'a>(pub Option<&'a str>);

impl Display for Meant<'_> {
    fn fmt<W: fmt::Write>(&self, f: &mut fmt::Formatter<W>) -> fmt::Result {
        match self.0 {
            Some(word) => write!(f, "; {word:?} is meant"),
            None => Ok(()),
        }
    }
}

/// The text that suggests the nearest word; empty if none is near.
#[derive(Clone, Copy)]
pub struct Nearest<'a>(pub Option<&'a str>);

impl Display for Nearest<'_> {
    fn fmt<W: fmt::Write>(&self, f: &mut fmt::Formatter<W>) -> fmt::Result {
        match self.0 {
            Some(name) => write!(f, "; the nearest is {name:?}"),
            None => Ok(()),
        }
    }
}
