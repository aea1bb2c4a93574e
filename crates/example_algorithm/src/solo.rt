//! The one node, and its calls.

use mx_letters::Outbox;
use mx_nodelaws::{AskFault, CancelFault, EnterFault, Exclusion, LeaveFault, Phase};
use mx_stamps::{NodeId, Stamp};
use std::marker::Model;

/// The shape of a cluster of one node. It has no data.
#[derive(Clone, Copy, Debug, PartialEq, Eq)]
pub struct One;

/// The one node.
#[derive(Drop)]
pub struct Solo {
    me: NodeId,
    /// The greatest section number.
    limit: u64,
    phase: Phase,
    /// The number of the last section that the node entered, or 0.
    mine: u64,
}

impl Model for Solo {
    ghost use Rattle.std.specs.Prelude.{◌≤◌};
    ghost use Rattle.mx_stamps.specs.declared.limits.TheConstants.{MAX_SECTIONS};
    ghost use Rattle.mx_nodelaws.specs.Core.{BearsNumber};
    ghost use Rattle.example_algorithm.specs.Node.{Node};

    ghost Value = { Node };

    ghost view = { λ s. record { me = s.me; limit = s.limit; phase = s.phase; mine = s.mine } };

    ghost invariant = { λ s. (s.mine ≤ MAX_SECTIONS) × (s.limit ≤ MAX_SECTIONS)
        × BearsNumber s.phase };
}

impl Exclusion for Solo {
    // there are no letters: any number would be ignored
    type Msg = u8;

    type Shape = One;

    ghost use Rattle.example_algorithm.specs.Step.{solo_core};
    ghost use Rattle.example_algorithm.specs.Good.{IsOne, IsGood};
    ghost use Rattle.example_algorithm.specs.laws.Laws.{solo_phases, solo_laws};

    ghost core = { solo_core 1 };

    ghost IsShape = { IsOne };

    ghost Good = { IsGood };

    ghost phases = { solo_phases 1 };

    ghost laws = { solo_laws };

    fn nodes(_shape: &One) -> u8 {
        1
    }

    fn start(_shape: &One, me: NodeId, _origin: u64, limit: u64) -> Self {
        Solo {
            me,
            limit,
            phase: Phase::Idle,
            mine: 0,
        }
    }

    fn ask(&mut self, _out: &mut Outbox<u8>) -> Result<Stamp, AskFault> {
        if !matches!(self.phase, Phase::Idle) {
            return Err(AskFault::NotIdle);
        }
        self.phase = Phase::Waiting;
        // there is no clock: the stamp has the number of the last section
        Ok(Stamp {
            number: self.mine,
            node: self.me,
        })
    }

    fn deliver(&mut self, _from: NodeId, _letter: u8, _out: &mut Outbox<u8>) {}

    fn can_enter(&self) -> bool {
        matches!(self.phase, Phase::Waiting)
    }

    fn enter(&mut self) -> Result<u64, EnterFault> {
        if !matches!(self.phase, Phase::Waiting) {
            return Err(EnterFault::NotWaiting);
        }
        if self.mine >= self.limit {
            return Err(EnterFault::NumbersSpent);
        }
        self.mine += 1;
        self.phase = Phase::Inside(self.mine);
        Ok(self.mine)
    }

    fn leave(&mut self, _out: &mut Outbox<u8>) -> Result<u64, LeaveFault> {
        let Phase::Inside(number) = self.phase else {
            return Err(LeaveFault::NotInside);
        };
        self.phase = Phase::Idle;
        Ok(number)
    }

    fn cancel(&mut self, _out: &mut Outbox<u8>) -> Result<(), CancelFault> {
        if !matches!(self.phase, Phase::Waiting) {
            return Err(CancelFault::NotWaiting);
        }
        self.phase = Phase::Idle;
        Ok(())
    }

    fn tick(&mut self, _out: &mut Outbox<u8>) {}

    fn phase(&self) -> Phase {
        self.phase
    }

    fn mine(&self) -> u64 {
        self.mine
    }
}
