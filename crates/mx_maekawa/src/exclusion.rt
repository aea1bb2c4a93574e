//! The calls of a node.

use crate::arbiter::Arbiter;
use crate::maekawa::Maekawa;
use crate::requester::Requester;
use mx_letters::{MaekawaMsg, Outbox};
use mx_nodelaws::{AskFault, CancelFault, EnterFault, Exclusion, LeaveFault, Phase};
use mx_quorums::Quorums;
use mx_stamps::{NodeId, Stamp};

impl Exclusion for Maekawa {
    type Msg = MaekawaMsg;

    type Shape = Quorums;

    ghost use Rattle.std.specs.Prelude.{◌≡◌, ◌↔◌, IsTrue};
    ghost use Rattle.mx_nodelaws.specs.declared.phase.Phase.TheVariants.{Waiting};
    ghost use Rattle.mx_quorums.specs.Family.{IsMeeting};
    ghost use Rattle.mx_maekawa.specs.RequesterStep.{HoldsAll, can_enter_of};
    ghost use Rattle.mx_maekawa.specs.Step.{maekawa_core};
    ghost use Rattle.mx_maekawa.specs.Good.{IsGood};
    ghost use Rattle.mx_maekawa.specs.laws.Laws.{maekawa_phases, maekawa_laws};

    ghost core = { maekawa_core };

    ghost IsShape = { IsMeeting };

    ghost Good = { IsGood };

    ghost phases = { maekawa_phases };

    ghost laws = { maekawa_laws };

    fn nodes(shape: &Quorums) -> u8 {
        shape.nodes()
    }

    fn is_same(one: &MaekawaMsg, other: &MaekawaMsg) -> bool
        ensures same { IsTrue result ↔ (one.now ≡ other.now) }
    {
        one == other
    }

    fn start(shape: &Quorums, me: NodeId, origin: u64, limit: u64) -> Self {
        let count = shape.nodes();
        let own = shape.set(me);
        Maekawa {
            quorums: *shape,
            requester: Requester::start(me, &own, count, origin, limit),
            arbiter: Arbiter::start(count, origin),
        }
    }

    fn ask(&mut self, out: &mut Outbox<MaekawaMsg>) -> Result<Stamp, AskFault> {
        self.requester.ask(out)
    }

    fn deliver(&mut self, from: NodeId, letter: MaekawaMsg, out: &mut Outbox<MaekawaMsg>) {
        match letter {
            MaekawaMsg::Request(stamp) => {
                if self.is_call(from, &stamp) {
                    self.requester.see(stamp.number);
                    self.arbiter.take_request(&stamp, out);
                }
            }
            MaekawaMsg::Locked(stamp, grant, last) => {
                if self.is_answer(from, &stamp) {
                    self.requester.take_locked(from, &stamp, grant, last, out);
                }
            }
            MaekawaMsg::Failed(stamp) => {
                if self.is_answer(from, &stamp) {
                    self.requester.take_failed(from, &stamp, out);
                }
            }
            MaekawaMsg::Inquire(stamp, grant) => {
                if self.is_answer(from, &stamp) {
                    self.requester.take_inquire(from, &stamp, grant, out);
                }
            }
            MaekawaMsg::Relinquish(stamp, grant) => {
                if self.is_call(from, &stamp) {
                    self.arbiter.take_relinquish(&stamp, grant, out);
                }
            }
            MaekawaMsg::Release(stamp, top) => {
                if self.is_call(from, &stamp) {
                    self.arbiter.take_release(&stamp, top, out);
                }
            }
        }
    }

    fn can_enter(&self) -> bool
        ensures value { result ≡ can_enter_of self.now.requester }
        ensures granted { IsTrue result
            ↔ ((self.now.requester.phase ≡ Waiting) × HoldsAll self.now.requester) }
    {
        self.requester.can_enter()
    }

    fn enter(&mut self) -> Result<u64, EnterFault> {
        self.requester.enter()
    }

    fn leave(&mut self, out: &mut Outbox<MaekawaMsg>) -> Result<u64, LeaveFault> {
        self.requester.leave(out)
    }

    fn cancel(&mut self, out: &mut Outbox<MaekawaMsg>) -> Result<(), CancelFault> {
        self.requester.cancel(out)
    }

    fn tick(&mut self, out: &mut Outbox<MaekawaMsg>) {
        self.requester.tick(out);
        self.arbiter.tick(out);
    }

    fn phase(&self) -> Phase {
        self.requester.phase()
    }

    fn mine(&self) -> u64 {
        self.requester.mine()
    }
}
