ghost use Rattle.std.specs.Prelude.{◌≡◌, ◌↔◌, ◌∷◌, [], IfSome, IsSome, IsTrue, Some};
ghost use Rattle.mx_events.specs.Arguments.{are_of, arguments_of, event_of, given};
ghost use Rattle.mx_events.specs.Events.{kind_of, node_of};

use crate::argument::Argument;
use crate::kind::EventKind;
use arrayvec::ArrayVec;
use mx_stamps::NodeId;

/// An event of one node. A `Deliver` is an event of the parcel's addressee. Registers are numbered
/// from 0.
#[derive(Clone, Copy, Debug, PartialEq, Eq)]
pub enum Event {
    /// The idle node asks for the section.
    Ask(NodeId),
    /// The waiting node enters the section.
    Enter(NodeId),
    /// The node reads a register.
    Read(NodeId, u8),
    /// The node writes a value to a register.
    Write(NodeId, u8, u64),
    /// The node leaves its section.
    Leave(NodeId),
    /// The waiting node withdraws its request.
    Cancel(NodeId),
    /// The node replaces the records of all sections up to this number by the values of the
    /// registers after these sections.
    Settle(NodeId, u64),
    /// The node sends its outstanding letters again.
    Tick(NodeId),
    /// The first node asks the second for the sections that the journal of the first lacks.
    Want(NodeId, NodeId),
    /// The parcel of this number reaches its addressee. Parcels are numbered from 0, in the order
    /// in which they were sent. The network may deliver a parcel late, never, or several times.
    Deliver(u64),
    /// The node restarts from what it has stored, and forgets the reads and writes of its section
    /// so far.
    Restart(NodeId),
}

impl Event {
    /// Returns the kind, without nodes, registers and numbers.
    pub fn kind(&self) -> EventKind
        ensures { result ≡ kind_of self.now }
    {
        match self {
            Event::Ask(_) => EventKind::Ask,
            Event::Enter(_) => EventKind::Enter,
            Event::Read(_, _) => EventKind::Read,
            Event::Write(_, _, _) => EventKind::Write,
            Event::Leave(_) => EventKind::Leave,
            Event::Cancel(_) => EventKind::Cancel,
            Event::Settle(_, _) => EventKind::Settle,
            Event::Tick(_) => EventKind::Tick,
            Event::Want(_, _) => EventKind::Want,
            Event::Deliver(_) => EventKind::Deliver,
            Event::Restart(_) => EventKind::Restart,
        }
    }

    /// Returns the node of the event, or `None` for a delivery, which is an event of the parcel's
    /// addressee.
    pub fn node(&self) -> Option<NodeId>
        ensures { result ≡ node_of self.now }
    {
        match self {
            Event::Deliver(_) => None,
            Event::Ask(node)
            | Event::Enter(node)
            | Event::Read(node, _)
            | Event::Write(node, _, _)
            | Event::Leave(node)
            | Event::Cancel(node)
            | Event::Settle(node, _)
            | Event::Tick(node)
            | Event::Want(node, _)
            | Event::Restart(node) => Some(*node),
        }
    }

    /// Returns the arguments, in the order in which they follow the event's word.
    pub fn arguments(&self) -> ArrayVec<Argument, 3>
        ensures value { result.items ≡ given self.now }
        ensures fit { IsTrue (are_of (arguments_of (kind_of self.now)) result.items) }
        ensures back { event_of (kind_of self.now) result.items ≡ Some self.now }
    {
        let mut arguments = ArrayVec::new();
        if let Some(node) = self.node() {
            arguments.push(Argument::Node(node));
        }
        match self {
            Event::Read(_, register) => arguments.push(Argument::Register(*register)),
            Event::Write(_, register, value) => {
                arguments.push(Argument::Register(*register));
                arguments.push(Argument::Number(*value));
            }
            Event::Want(_, other) => arguments.push(Argument::Node(*other)),
            Event::Settle(_, number) | Event::Deliver(number) => {
                arguments.push(Argument::Number(*number));
            }
            _ => {}
        }
        arguments
    }

    /// Returns the event of a kind with these arguments, or `None` if their number or their kinds
    /// do not fit the kind of event.
    pub fn of(kind: EventKind, arguments: &[Argument]) -> Option<Event>
        ensures value { result ≡ event_of kind arguments.now }
        ensures some { IsSome result ↔ IsTrue (are_of (arguments_of kind) arguments.now) }
        ensures kind { IfSome result (λ event. kind_of event ≡ kind) }
        ensures given { IfSome result (λ event. given event ≡ arguments.now) }
    {
        match arguments {
            [a] => of_one(kind, a),
            [a, b] => of_two(kind, a, b),
            [a, b, c] => of_three(kind, a, b, c),
            _ => None,
        }
    }
}

fn of_one(kind: EventKind, a: &Argument) -> Option<Event>
    ensures value { result ≡ event_of kind (a.now ∷ []) }
    ensures some { IsSome result ↔ IsTrue (are_of (arguments_of kind) (a.now ∷ [])) }
    ensures kind { IfSome result (λ event. kind_of event ≡ kind) }
    ensures given { IfSome result (λ event. given event ≡ a.now ∷ []) }
{
    match kind {
        EventKind::Ask => Some(Event::Ask(a.node()?)),
        EventKind::Enter => Some(Event::Enter(a.node()?)),
        EventKind::Leave => Some(Event::Leave(a.node()?)),
        EventKind::Cancel => Some(Event::Cancel(a.node()?)),
        EventKind::Tick => Some(Event::Tick(a.node()?)),
        EventKind::Restart => Some(Event::Restart(a.node()?)),
        EventKind::Deliver => Some(Event::Deliver(a.number()?)),
        _ => None,
    }
}

fn of_two(kind: EventKind, a: &Argument, b: &Argument) -> Option<Event>
    ensures value { result ≡ event_of kind (a.now ∷ b.now ∷ []) }
    ensures some { IsSome result ↔ IsTrue (are_of (arguments_of kind) (a.now ∷ b.now ∷ [])) }
    ensures kind { IfSome result (λ event. kind_of event ≡ kind) }
    ensures given { IfSome result (λ event. given event ≡ a.now ∷ b.now ∷ []) }
{
    match kind {
        EventKind::Read => Some(Event::Read(a.node()?, b.register()?)),
        EventKind::Settle => Some(Event::Settle(a.node()?, b.number()?)),
        EventKind::Want => Some(Event::Want(a.node()?, b.node()?)),
        _ => None,
    }
}

fn of_three(kind: EventKind, a: &Argument, b: &Argument, c: &Argument) -> Option<Event>
    ensures value { result ≡ event_of kind (a.now ∷ b.now ∷ c.now ∷ []) }
    ensures some { IsSome result
        ↔ IsTrue (are_of (arguments_of kind) (a.now ∷ b.now ∷ c.now ∷ [])) }
    ensures kind { IfSome result (λ event. kind_of event ≡ kind) }
    ensures given { IfSome result (λ event. given event ≡ a.now ∷ b.now ∷ c.now ∷ []) }
{
    match kind {
        EventKind::Write => Some(Event::Write(a.node()?, b.register()?, c.number()?)),
        _ => None,
    }
}
