ghost use Rattle.std.specs.Prelude.{◌≡◌, Some};
ghost use Rattle.mx_lines.specs.Refusals.{refused};
ghost use Rattle.mx_lines.specs.Texts.{fault_text};

use crate::verbs::Verb;
use std::fmt;

/// Why a line is refused.
#[derive(Clone, Copy, PartialEq, Eq)]
pub enum LineFault {
    /// The line is not in UTF-8.
    NotText,
    /// No line begins with this word.
    NoWord,
    /// Words are missing, or there are too many.
    WordCount,
    /// The plan has no such node.
    NoNode,
    /// The plan has no such register.
    NoRegister,
    /// The word is no whole number of 64 bits.
    NotNumber,
    /// The node is on the other side of the partition too.
    OnBothSides,
    /// No parcel of this number was sent.
    NoParcel,
    /// No parcel from the one node to the other is under way.
    NotUnderWay,
    /// No parcel from the one node to the other was delivered.
    NotDelivered,
    /// The link that bears the parcel is cut.
    LinkCut,
    /// There is no event yet, so no outcome.
    NoEvent,
    /// The last event has another outcome.
    OtherOutcome,
    /// The script has more than 1,000,000 events, or a line is to be done more often.
    TooMany,
}

impl fmt::Display for LineFault {
    ghost output = { λ e. Some (fault_text e) };

    fn fmt<W: fmt::Write>(&self, f: &mut fmt::Formatter<W>) -> fmt::Result {
        match self {
            LineFault::NotText => f.write_str("not UTF-8"),
            LineFault::NoWord => f.write_str("no such word"),
            LineFault::WordCount => f.write_str("words missing or too many"),
            LineFault::NoNode => f.write_str("no such node"),
            LineFault::NoRegister => f.write_str("no such register"),
            LineFault::NotNumber => f.write_str("not a number"),
            LineFault::OnBothSides => f.write_str("node on both sides"),
            LineFault::NoParcel => f.write_str("no such parcel"),
            LineFault::NotUnderWay => f.write_str("no such parcel under way"),
            LineFault::NotDelivered => f.write_str("no such parcel delivered"),
            LineFault::LinkCut => f.write_str("the link is cut"),
            LineFault::NoEvent => f.write_str("no event yet"),
            LineFault::OtherOutcome => f.write_str("other outcome"),
            LineFault::TooMany => f.write_str("more than 1000000"),
        }
    }
}

/// A word with which a line of a session may begin, but no line of a script.
#[derive(Clone, Copy)]
pub enum OwnWord {
    Show,
    Undo,
    Redo,
    Events,
    Script,
    Save,
    Mark,
    Help,
    End,
}

/// What is expected in place of a wrong word, or after it.
#[derive(Clone, Copy)]
pub enum Expected {
    /// A word with which a line may begin.
    Word,
    /// A line that is no repetition itself.
    Single,
    /// A node of the plan.
    Node,
    /// A node that is not on the left side.
    OtherNode,
    /// A register of the plan.
    Register,
    /// A whole number of 64 bits.
    Number,
    /// `all`, or the number of a parcel.
    Parcel,
    /// A whole number, 0 to 1,000,000.
    Times,
    /// After `times`: a number and a line.
    Repetition,
    /// After `partition`: the nodes of both sides.
    Sides,
    /// After `expect`: an outcome.
    Outcome,
    /// After a word of a script: its arguments.
    Arguments(Verb),
    /// After a word of a session: its arguments.
    OwnArguments(OwnWord),
}

/// A wrong word of a line, with its fault and what was expected.
#[derive(Clone, Copy)]
pub struct LineError {
    pub fault: LineFault,
    /// Which word of the line it is, counted from 0.
    pub word: usize,
    /// What was expected in place of this word, or after it.
    pub expected: Expected,
}

pub(crate) fn refuse<T: Drop>(
    fault: LineFault,
    word: usize,
    expected: Expected,
) -> Result<T, LineError>
    ensures { result ≡ refused fault word expected }
{
    Err(LineError {
        fault,
        word,
        expected,
    })
}
