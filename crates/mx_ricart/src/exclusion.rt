//! The calls of a node.

use crate::count::Count;
use crate::ricart::Ricart;
use mx_letters::{Outbox, RicartMsg};
use mx_nodelaws::{AskFault, CancelFault, EnterFault, Exclusion, LeaveFault, Phase};
use mx_stamps::{Clock, MAX_NODES, NodeId, Stamp};

impl Exclusion for Ricart {
    type Msg = RicartMsg;

    type Shape = Count;

    ghost use Rattle.std.specs.Prelude.{◌≡◌, ◌↔◌, IsTrue};
    ghost use Rattle.mx_nodelaws.specs.declared.phase.Phase.TheVariants.{Waiting};
    ghost use Rattle.mx_ricart.specs.Step.{ricart_core, IsCount, HasAllReplies};
    ghost use Rattle.mx_ricart.specs.Good.{IsGood};
    ghost use Rattle.mx_ricart.specs.laws.Laws.{ricart_phases, ricart_laws};

    ghost core = { ricart_core };

    ghost IsShape = { IsCount };

    ghost Good = { IsGood };

    ghost phases = { ricart_phases };

    ghost laws = { ricart_laws };

    fn nodes(shape: &Count) -> u8 {
        shape.get()
    }

    fn is_same(one: &RicartMsg, other: &RicartMsg) -> bool
        ensures same { IsTrue result ↔ (one.now ≡ other.now) }
    {
        one == other
    }

    fn start(shape: &Count, me: NodeId, origin: u64, limit: u64) -> Self {
        Ricart {
            me,
            count: *shape,
            limit,
            phase: Phase::Idle,
            highest: Clock::at(origin),
            ours: Stamp {
                number: 0,
                node: me,
            },
            got: [false; MAX_NODES as usize],
            deferred: [None; MAX_NODES as usize],
            top: 0,
            mine: 0,
        }
    }

    fn ask(&mut self, out: &mut Outbox<RicartMsg>) -> Result<Stamp, AskFault> {
        if !matches!(self.phase, Phase::Idle) {
            return Err(AskFault::NotIdle);
        }
        let Some(ours) = self.highest.next(self.me) else {
            return Err(AskFault::StampsSpent);
        };
        self.ours = ours;
        self.got = [false; MAX_NODES as usize];
        self.phase = Phase::Waiting;
        self.send_requests(out);
        Ok(ours)
    }

    fn deliver(&mut self, from: NodeId, letter: RicartMsg, out: &mut Outbox<RicartMsg>) {
        if self.is_other(from) {
            match letter {
                RicartMsg::Request(stamp) => {
                    if stamp.node.get() == from.get() {
                        self.take_request(stamp, out);
                    }
                }
                RicartMsg::Reply(stamp, top) => self.take_reply(from, stamp, top),
            }
        }
    }

    fn can_enter(&self) -> bool
        ensures value { result ≡ ricart_core.can_enter self.now }
        ensures granted { IsTrue result ↔ ((self.now.phase ≡ Waiting) × HasAllReplies self.now) }
    {
        matches!(self.phase, Phase::Waiting) && self.has_all_replies()
    }

    fn enter(&mut self) -> Result<u64, EnterFault> {
        if !matches!(self.phase, Phase::Waiting) {
            return Err(EnterFault::NotWaiting);
        }
        if !self.has_all_replies() {
            return Err(EnterFault::NotGranted);
        }
        if self.top >= self.limit {
            return Err(EnterFault::NumbersSpent);
        }
        self.top += 1;
        self.mine = self.top;
        self.phase = Phase::Inside(self.top);
        Ok(self.top)
    }

    fn leave(&mut self, out: &mut Outbox<RicartMsg>) -> Result<u64, LeaveFault> {
        let Phase::Inside(number) = self.phase else {
            return Err(LeaveFault::NotInside);
        };
        self.end_request(out);
        Ok(number)
    }

    fn cancel(&mut self, out: &mut Outbox<RicartMsg>) -> Result<(), CancelFault> {
        if !matches!(self.phase, Phase::Waiting) {
            return Err(CancelFault::NotWaiting);
        }
        self.end_request(out);
        Ok(())
    }

    fn tick(&mut self, out: &mut Outbox<RicartMsg>) {
        if matches!(self.phase, Phase::Waiting) {
            self.send_missing(out);
        }
    }

    fn phase(&self) -> Phase {
        self.phase
    }

    fn mine(&self) -> u64 {
        self.mine
    }
}
