//! The faults of a trace.

ghost use Rattle.std.specs.Prelude.{◌≡◌, Some};
ghost use Rattle.mx_judge.specs.Faults.{fault_text, item_text, line_fault, list_fault, wrong_member};

use crate::members::Member;
use std::alloc::AllocError;
use std::fmt;

/// The fault of a line of a trace, or of an item of an array.
#[derive(Clone, Copy)]
pub(crate) enum ItemFault {
    /// It begins with a byte order mark.
    Mark,
    /// It is not valid JSON, or not valid UTF-8.
    NotJson,
    /// It is not an object of an event, a parcel, a node or a verdict.
    NotEvent,
    /// It is an event without an outcome.
    NoOutcome,
    Wrong(Member),
    /// It is a message, and no event is before it.
    NoSender,
    /// It is a message whose parcel was sent before.
    SentBefore,
    /// There are 1,000,000 events before it.
    TooMany,
    Memory,
}

impl fmt::Display for ItemFault {
    ghost output = { λ fault. Some (item_text fault) };

    fn fmt<W: fmt::Write>(&self, f: &mut fmt::Formatter<W>) -> fmt::Result {
        match self {
            ItemFault::Mark => f.write_str("a byte order mark"),
            ItemFault::NotJson => f.write_str("not json"),
            ItemFault::NotEvent => f.write_str("no event"),
            ItemFault::NoOutcome => {
                f.write_str("an event without outcome, as in a file of events")
            }
            ItemFault::Wrong(member) => write!(f, "{}: {}", member.key(), member.message()),
            ItemFault::NoSender => f.write_str("a message before the first event"),
            ItemFault::SentBefore => f.write_str("parcel: sent before"),
            ItemFault::TooMany => f.write_str("more than 1000000 events"),
            ItemFault::Memory => f.write_str("out of memory"),
        }
    }
}

impl From<AllocError> for ItemFault {
    ghost use Rattle.std.specs.Prelude.{◌≡◌};
    ghost use Rattle.mx_judge.specs.declared.faults.ItemFault.TheVariants.{Memory};

    ghost from_gives = { λ _ fault. fault ≡ Memory };

    fn from(_e: AllocError) -> ItemFault {
        ItemFault::Memory
    }
}

/// The fault of a trace. Lines and items are numbered from 1.
#[derive(Clone, Copy)]
pub(crate) enum TraceFault {
    NotJson,
    /// The text is a plan.
    Plan,
    Line(u64, ItemFault),
    Item(u64, ItemFault),
    Memory,
}

impl TraceFault {
    pub(crate) fn of_line(number: u64, fault: ItemFault) -> TraceFault
        ensures { result ≡ line_fault number fault }
    {
        match fault {
            ItemFault::Memory => TraceFault::Memory,
            _ => TraceFault::Line(number, fault),
        }
    }

    pub(crate) fn of_item(number: u64, fault: ItemFault) -> TraceFault
        ensures { result ≡ list_fault number fault }
    {
        match fault {
            ItemFault::Memory => TraceFault::Memory,
            _ => TraceFault::Item(number, fault),
        }
    }

    /// Returns the member that is missing or wrong, if that is the fault.
    pub(crate) fn wrong_member(self) -> Option<Member>
        ensures { result ≡ wrong_member self }
    {
        match self {
            TraceFault::Line(_, ItemFault::Wrong(member))
            | TraceFault::Item(_, ItemFault::Wrong(member)) => Some(member),
            _ => None,
        }
    }
}

impl fmt::Display for TraceFault {
    ghost output = { λ fault. Some (fault_text fault) };

    fn fmt<W: fmt::Write>(&self, f: &mut fmt::Formatter<W>) -> fmt::Result {
        match self {
            TraceFault::NotJson => f.write_str("mx: trace: not json"),
            TraceFault::Plan => f.write_str("mx: trace: a plan, not a trace"),
            TraceFault::Line(number, fault) => write!(f, "mx: trace: line {number}: {fault}"),
            TraceFault::Item(number, fault) => write!(f, "mx: trace: item {number}: {fault}"),
            TraceFault::Memory => f.write_str("mx: trace: out of memory"),
        }
    }
}
