//! The calls of a node.

use crate::queue::Queue;
use crate::raymond::Raymond;
use mx_letters::{Outbox, RaymondMsg};
use mx_nodelaws::{AskFault, CancelFault, EnterFault, Exclusion, LeaveFault, Phase};
use mx_stamps::{MAX_NODES, NodeId, Stamp};
use mx_trees::Tree;

impl Exclusion for Raymond {
    type Msg = RaymondMsg;

    type Shape = Tree;

    ghost use Rattle.std.specs.Prelude.{◌≡◌, ◌↔◌, IsTrue};
    ghost use Rattle.mx_nodelaws.specs.declared.phase.Phase.TheVariants.{Waiting};
    ghost use Rattle.mx_trees.specs.Tree.{IsRooted};
    ghost use Rattle.mx_raymond.specs.Step.{raymond_core, HasPermission};
    ghost use Rattle.mx_raymond.specs.Good.{IsGood};
    ghost use Rattle.mx_raymond.specs.laws.Laws.{raymond_phases, raymond_laws};

    ghost core = { raymond_core };

    ghost IsShape = { IsRooted };

    ghost Good = { IsGood };

    ghost phases = { raymond_phases };

    ghost laws = { raymond_laws };

    fn nodes(shape: &Tree) -> u8 {
        shape.nodes()
    }

    fn is_same(one: &RaymondMsg, other: &RaymondMsg) -> bool
        ensures same { IsTrue result ↔ (one.now ≡ other.now) }
    {
        one == other
    }

    fn start(shape: &Tree, me: NodeId, origin: u64, limit: u64) -> Self {
        Raymond {
            me,
            tree: *shape,
            limit,
            phase: Phase::Idle,
            holder: shape.toward(me),
            queue: Queue::new(),
            has_asked: false,
            hop: origin,
            unacked: None,
            asks: 0,
            sent: 0,
            heard: [0; MAX_NODES as usize],
            top: 0,
            mine: 0,
        }
    }

    fn ask(&mut self, out: &mut Outbox<RaymondMsg>) -> Result<Stamp, AskFault> {
        if !matches!(self.phase, Phase::Idle) {
            return Err(AskFault::NotIdle);
        }
        if self.asks == u64::MAX {
            return Err(AskFault::StampsSpent);
        }
        self.asks += 1;
        self.queue.push(self.me);
        self.phase = Phase::Waiting;
        let stamp = Stamp {
            number: self.asks,
            node: self.me,
        };
        self.serve(out);
        Ok(stamp)
    }

    fn deliver(&mut self, from: NodeId, letter: RaymondMsg, out: &mut Outbox<RaymondMsg>) {
        if self.is_neighbour(from) {
            match letter {
                RaymondMsg::Request(number) => self.take_request(from, number, out),
                RaymondMsg::Privilege(hop, last) => self.take_privilege(from, hop, last, out),
                RaymondMsg::Got(hop) => self.take_got(from, hop),
            }
        }
    }

    fn can_enter(&self) -> bool
        ensures value { result ≡ raymond_core.can_enter self.now }
        ensures granted { IsTrue result ↔ ((self.now.phase ≡ Waiting) × HasPermission self.now) }
    {
        matches!(self.phase, Phase::Waiting) && self.has_permission()
    }

    fn enter(&mut self) -> Result<u64, EnterFault> {
        if !matches!(self.phase, Phase::Waiting) {
            return Err(EnterFault::NotWaiting);
        }
        if !self.has_permission() {
            return Err(EnterFault::NotGranted);
        }
        if self.top >= self.limit {
            return Err(EnterFault::NumbersSpent);
        }
        self.queue.remove_head();
        self.top += 1;
        self.mine = self.top;
        self.phase = Phase::Inside(self.top);
        Ok(self.top)
    }

    fn leave(&mut self, out: &mut Outbox<RaymondMsg>) -> Result<u64, LeaveFault> {
        let Phase::Inside(number) = self.phase else {
            return Err(LeaveFault::NotInside);
        };
        self.phase = Phase::Idle;
        self.serve(out);
        Ok(number)
    }

    fn cancel(&mut self, out: &mut Outbox<RaymondMsg>) -> Result<(), CancelFault> {
        if !matches!(self.phase, Phase::Waiting) {
            return Err(CancelFault::NotWaiting);
        }
        self.withdraw();
        self.serve(out);
        Ok(())
    }

    fn tick(&mut self, out: &mut Outbox<RaymondMsg>) {
        self.send_again(out);
        self.request_again(out);
    }

    fn phase(&self) -> Phase {
        self.phase
    }

    fn mine(&self) -> u64 {
        self.mine
    }
}
