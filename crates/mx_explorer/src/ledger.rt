//! What the items of a trace leave: who is inside, and the last write to each register.

ghost use Rattle.std.specs.Prelude.{◌≡◌, ◌∷◌, [], List, None, Option};
ghost use Rattle.mx_registers.specs.Registers.{applied};
ghost use Rattle.mx_trace.specs.Sections.{Came, Got, Section, Wrote, Went, Woke, writes_in};
ghost use Rattle.mx_trace.specs.Trace.{mark_of, sections};
ghost use Rattle.mx_explorer.specs.Ledger.{IsLedgerOf, Takes, is_node, last_write};
ghost use Rattle.mx_explorer.specs.Verdict.{IsSoundTrace};

use crate::judgement::judged;
use crate::verdict::Clause;
use mx_journal::Receipt;
use mx_stamps::NodeId;
use mx_trace::{Entry, Event, Outcome};

/// How many registers an event can name: one for each `u8` value.
const REGISTERS: usize = 256;

/// The last write to a register.
#[derive(Clone, Copy)]
pub struct LastWrite {
    pub value: u64,
    pub node: NodeId,
    /// The number of the node's section.
    pub section: u64,
}

/// What the items of a trace leave, if they break no clause.
#[derive(Drop)]
pub struct Ledger {
    /// The node inside the newest section, if it has not left it.
    pub inside: Option<NodeId>,
    /// The number of the newest section, 0 before the first.
    pub last: u64,
    /// The last write to each register before the newest section.
    before: [Option<LastWrite>; REGISTERS],
    /// The last write to each register.
    held: [Option<LastWrite>; REGISTERS],
}

impl Ledger {
    /// Returns the ledger after the items of a trace that breaks no clause.
    pub fn of(trace: &[Entry]) -> Ledger
        ensures { IsSoundTrace trace.now → IsLedgerOf (sections trace.now) result }
    {
        judged(trace).1
    }

    pub(crate) fn new() -> Ledger
        ensures { IsLedgerOf [] result }
    {
        Ledger {
            inside: None,
            last: 0,
            before: [None; REGISTERS],
            held: [None; REGISTERS],
        }
    }

    pub(crate) fn take(&mut self, entry: &Entry) -> Option<Clause>
        ensures { Takes self.old (mark_of entry.now.event entry.now.outcome) result self.new }
    {
        match (&entry.event, &entry.outcome) {
            (Event::Enter(node), Outcome::Entered(number)) => self.came(*node, *number),
            (Event::Read(node, register), Outcome::Value(value)) => {
                self.got(*node, *register, *value)
            }
            (Event::Write(node, register, value), Outcome::Written) => {
                self.wrote(*node, *register, *value);
                None
            }
            (Event::Leave(node), Outcome::Left(receipt)) => self.went(*node, receipt),
            (Event::Restart(node), Outcome::Woken) => {
                self.woke(*node);
                None
            }
            _ => None,
        }
    }

    /// Whether this node is inside.
    pub fn is_inside(&self, node: NodeId) -> bool
        ensures { result ≡ is_node node self.now.inside }
    {
        match self.inside {
            Some(inside) => inside == node,
            None => false,
        }
    }

    /// Returns the last write to a register; `None` before the first, when the register holds 0.
    pub fn last_write(&self, register: u8) -> Option<LastWrite>
        ensures { (ss : List Section) → IsLedgerOf ss self.now → result ≡ last_write register ss }
    {
        self.held[register as usize]
    }

    fn came(&mut self, node: NodeId, number: u64) -> Option<Clause>
        ensures { Takes self.old (Came node number ∷ []) result self.new }
    {
        if self.inside.is_some() {
            return Some(Clause::Overlap);
        }
        if self.last.checked_add(1) != Some(number) {
            return Some(Clause::Number);
        }
        self.inside = Some(node);
        self.last = number;
        self.before.copy_from_slice(&self.held);
        None
    }

    fn got(&self, node: NodeId, register: u8, value: u64) -> Option<Clause>
        ensures { Takes self.now (Got node register value ∷ []) result self.now }
    {
        if self.is_inside(node) && self.value(register) == value {
            None
        } else {
            Some(Clause::Read)
        }
    }

    fn value(&self, register: u8) -> u64
        ensures { (ss : List Section) → IsLedgerOf ss self.now
            → result ≡ applied register (writes_in ss) 0 }
    {
        match self.last_write(register) {
            Some(write) => write.value,
            None => 0,
        }
    }

    fn wrote(&mut self, node: NodeId, register: u8, value: u64)
        ensures { Takes self.old (Wrote node register value ∷ []) None self.new }
    {
        if self.is_inside(node) {
            let section = self.last;
            self.held[register as usize] = Some(LastWrite {
                value,
                node,
                section,
            });
        }
    }

    fn went(&mut self, node: NodeId, receipt: &Receipt) -> Option<Clause>
        ensures { Takes self.old (Went node receipt.now ∷ []) result self.new }
    {
        if self.is_inside(node) && receipt.number == self.last {
            self.inside = None;
            None
        } else {
            Some(Clause::Overlap)
        }
    }

    /// Notes that a node restarted: if it is inside, the writes of its section are lost.
    fn woke(&mut self, node: NodeId)
        ensures { Takes self.old (Woke node ∷ []) None self.new }
    {
        if self.is_inside(node) {
            self.held.copy_from_slice(&self.before);
        }
    }
}
