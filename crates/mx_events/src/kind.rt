//! The kinds of events, and their words.

ghost use Rattle.std.specs.Prelude.{◌≡◌, ◌≤◌, length};
ghost use Rattle.mx_events.specs.Arguments.{arguments_of};
ghost use Rattle.mx_events.specs.Words.{kind_named, word_of};

use crate::argument::ArgumentKind;

/// The kind of an event, without its nodes, registers and numbers.
#[derive(Clone, Copy, Debug, PartialEq, Eq)]
pub enum EventKind {
    Ask,
    Enter,
    Read,
    Write,
    Leave,
    Cancel,
    Settle,
    Tick,
    Want,
    Deliver,
    Restart,
}

/// All kinds, in the order in which they are listed for a reader.
pub const EVENT_KINDS: [EventKind; 11] = [
    EventKind::Ask,
    EventKind::Enter,
    EventKind::Read,
    EventKind::Write,
    EventKind::Leave,
    EventKind::Cancel,
    EventKind::Settle,
    EventKind::Tick,
    EventKind::Want,
    EventKind::Deliver,
    EventKind::Restart,
];

impl EventKind {
    /// Returns the word for the kind in files, scripts and printed lines.
    pub fn word(self) -> &'static str
        ensures { result.now ≡ word_of self }
    {
        match self {
            EventKind::Ask => "ask",
            EventKind::Enter => "enter",
            EventKind::Read => "read",
            EventKind::Write => "write",
            EventKind::Leave => "leave",
            EventKind::Cancel => "cancel",
            EventKind::Settle => "settle",
            EventKind::Tick => "tick",
            EventKind::Want => "want",
            EventKind::Deliver => "deliver",
            EventKind::Restart => "restart",
        }
    }

    /// Returns the kind that this word names, or `None` if it names none.
    pub fn of_word(word: &str) -> Option<EventKind>
        ensures { result ≡ kind_named word.now }
    {
        for kind in &EVENT_KINDS {
            if word == kind.word() {
                return Some(*kind);
            }
        }
        None
    }

    /// Returns the kinds of the 1 to 3 arguments that follow the word, in order.
    pub fn arguments(self) -> &'static [ArgumentKind]
        ensures value { result.now ≡ arguments_of self }
        ensures few { length result.now ≤ 3 }
    {
        match self {
            EventKind::Ask
            | EventKind::Enter
            | EventKind::Leave
            | EventKind::Cancel
            | EventKind::Tick
            | EventKind::Restart => &[ArgumentKind::Node],
            EventKind::Read => &[ArgumentKind::Node, ArgumentKind::Register],
            EventKind::Write => &[
                ArgumentKind::Node,
                ArgumentKind::Register,
                ArgumentKind::Value,
            ],
            EventKind::Settle => &[ArgumentKind::Node, ArgumentKind::Section],
            EventKind::Want => &[ArgumentKind::Node, ArgumentKind::Node],
            EventKind::Deliver => &[ArgumentKind::Parcel],
        }
    }
}
