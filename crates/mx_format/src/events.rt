ghost use Rattle.std.specs.Prelude.{◌≡◌, ◌++◌, Some, codes};
ghost use Rattle.mx_format.specs.Words.{words_text};
ghost use Rattle.mx_format.specs.EventTexts.{name_of, register_name_of, argument_text, cause_text, outcome_text, event_text, event_line};

use crate::words::Words;
use mx_events::Argument;
use mx_plan::Plan;
use mx_stamps::NodeId;
use mx_trace::{Cause, Event, Outcome};
use std::fmt;

/// Returns the name that the plan gives a node, or an empty text if it has no such node.
pub fn name_of(plan: &Plan, node: NodeId) -> &str
    ensures { result.now ≡ name_of plan.now node }
{
    plan.node_name(node.get()).unwrap_or("")
}

/// Returns the name that the plan gives a register, or an empty text if it has no such register.
pub fn register_name_of(plan: &Plan, register: u8) -> &str
    ensures { result.now ≡ register_name_of plan.now register }
{
    plan.register_name(register).unwrap_or("")
}

/// The text of an event's outcome, such as `entered 1`.
#[derive(Clone, Copy)]
pub struct OutcomeText<'a>(pub &'a Outcome);

impl OutcomeText<'_> {
    fn words(&self) -> Words<'static>
        ensures { words_text result ≡ outcome_text self.now.0.now }
    {
        match self.0 {
            Outcome::Asked(stamp) => Words::Number("asked", stamp.number),
            Outcome::Entered(number) => Words::Number("entered", *number),
            Outcome::Value(value) => Words::Number("value", *value),
            Outcome::Written => Words::Word("written"),
            Outcome::Left(receipt) => {
                let writes = receipt.writes.len() as u64;
                Words::Numbers("left", receipt.number, "writes", writes)
            }
            Outcome::Cancelled => Words::Word("cancelled"),
            Outcome::Sent(count) => Words::Number("sent", *count),
            Outcome::Settled => Words::Word("settled"),
            Outcome::Delivered => Words::Word("delivered"),
            Outcome::Woken => Words::Word("woken"),
            Outcome::Refused(cause) => refusal(cause),
        }
    }
}

fn refusal(cause: &Cause) -> Words<'static>
    ensures { words_text result ≡ codes "refused " ++ cause_text cause.now }
{
    match cause.number() {
        Some(number) => Words::NameAndNumber("refused", cause.words(), number),
        None => Words::Name("refused", cause.words()),
    }
}

impl fmt::Display for OutcomeText<'_> {
    ghost output = { λ o. Some (outcome_text o.0.now) };

    fn fmt<W: fmt::Write>(&self, f: &mut fmt::Formatter<W>) -> fmt::Result {
        self.words().fmt(f)
    }
}

/// The text of an event's argument: a name, or a number.
#[derive(Clone, Copy)]
pub struct ArgumentText<'a> {
    pub plan: &'a Plan,
    pub argument: &'a Argument,
}

impl fmt::Display for ArgumentText<'_> {
    ghost output = { λ a. Some (argument_text a.plan.now a.argument.now) };

    fn fmt<W: fmt::Write>(&self, f: &mut fmt::Formatter<W>) -> fmt::Result {
        match self.argument {
            Argument::Node(node) => f.write_str(name_of(self.plan, *node)),
            Argument::Register(register) => f.write_str(register_name_of(self.plan, *register)),
            Argument::Number(number) => write!(f, "{number}"),
        }
    }
}

/// An event, as a file of events has it, without brackets, quotes and commas.
#[derive(Clone, Copy)]
pub struct EventText<'a> {
    pub plan: &'a Plan,
    pub event: &'a Event,
}

impl EventText<'_> {
    fn argument<'a>(&'a self, argument: &'a Argument) -> ArgumentText<'a>
        ensures plan { result.plan.now ≡ self.now.plan.now }
        ensures argument { result.argument.now ≡ argument.now }
    {
        ArgumentText {
            plan: self.plan,
            argument,
        }
    }
}

impl fmt::Display for EventText<'_> {
    ghost output = { λ e. Some (event_text e.plan.now e.event.now) };

    fn fmt<W: fmt::Write>(&self, f: &mut fmt::Formatter<W>) -> fmt::Result {
        let word = self.event.kind().word();
        let arguments = self.event.arguments();
        match arguments.as_slice() {
            [a] => write!(f, "{word} {}", self.argument(a)),
            [a, b] => write!(f, "{word} {} {}", self.argument(a), self.argument(b)),
            [a, b, c] => {
                let (a, b, c) = (self.argument(a), self.argument(b), self.argument(c));
                write!(f, "{word} {a} {b} {c}")
            }
            _ => f.write_str(word),
        }
    }
}

/// The line of an event and its outcome.
#[derive(Clone, Copy)]
pub struct EventLine<'a> {
    pub plan: &'a Plan,
    pub index: u64,
    pub event: &'a Event,
    pub outcome: &'a Outcome,
}

impl fmt::Display for EventLine<'_> {
    ghost output = { λ l. Some (event_line l.plan.now l.index l.event.now l.outcome.now) };

    fn fmt<W: fmt::Write>(&self, f: &mut fmt::Formatter<W>) -> fmt::Result {
        let index = self.index;
        let event = EventText {
            plan: self.plan,
            event: self.event,
        };
        let outcome = OutcomeText(self.outcome);
        writeln!(f, "{index} {event}: {outcome}")
    }
}
