//! The interface of what sees the events of a script.

ghost use Rattle.std.specs.Prelude.{◌≡◌, length, OnOk};
ghost use Rattle.mx_plan.specs.Fields.{Fields};
ghost use Rattle.mx_scripts.specs.States.{Brings, RunState};
ghost use Rattle.mx_scripts.specs.Told.{IsBroughtTo};
ghost use Rattle.mx_scripts.specs.declared.state.SessionEvent.{SessionEvent};

use crate::line_failure::RefusedLine;
use crate::state::{SessionEvent, State};
use mx_nodelaws::Exclusion;
use mx_plan::Plan;
use std::alloc::AllocError;

/// A state as the contracts of `Recorder` see it: the algorithm of its nodes, and its value.
pub trait Led {
    /// The algorithm of its nodes.
    type Core: Exclusion;

    ghost state: { Self → RunState Self.Core Self.Core.Msg };
}

impl<C: Exclusion> Led for State<C> {
    type Core = C;

    ghost state = { λ state. state };
}

/// A recorder: it is told of each event of a script, with the state `R` after it.
pub trait Recorder<R: Led> {
    // the second recorder is what the first becomes by an event of a run of a plan, which leads from
    // the first state to the second
    ghost noted: { Self → Fields → SessionEvent → RunState R.Core R.Core.Msg
        → RunState R.Core R.Core.Msg → Self → Type 0 } = { λ recorder p event old new told. Unit {0} };

    /// Notes that line `number` of the script begins. Lines are counted from 1.
    fn line(&mut self, number: u64);

    /// Notes an event. `state` is that after the event, which sent the parcels from the number
    /// `before` on.
    ///
    /// # Errors
    ///
    /// Returns `AllocError` if memory runs out.
    fn event(
        &mut self,
        plan: &Plan,
        event: &SessionEvent,
        before: u64,
        state: &R,
    ) -> Result<(), AllocError>
        requires brought { IsBroughtTo R.Core.core event.now before (R.state state.now) }
        ensures noted { (old : RunState R.Core R.Core.Msg)
            → Brings R.Core.core old event.now (R.state state.now)
            → before ≡ length old.cluster.sent → OnOk result
            (noted self.old plan.now event.now old (R.state state.now) self.new) };

    /// Notes a line that is refused. `state` is that after all events before the fault, also those
    /// of the same line.
    ///
    /// # Errors
    ///
    /// Returns `AllocError` if memory runs out.
    fn refused(&mut self, _plan: &Plan, _line: &RefusedLine, _state: &R) -> Result<(), AllocError> {
        Ok(())
    }
}
