//! A session: a cluster, and what lines have done to it.

ghost use Rattle.std.specs.Prelude.{◌≡◌, IfOk};
ghost use Rattle.mx_play.specs.Histories.{first_state};
ghost use Rattle.mx_play.specs.Sessions.{at_start};

use mx_network::Entry;
use mx_nodelaws::Exclusion;
use mx_plan::Plan;
use mx_scripts::{SessionEvent, State};
use std::alloc::{AllocError, Global};
use std::marker::Model;

#[derive(Clone, Copy)]
pub(crate) struct SessionSetting<'a, C: Exclusion> {
    pub(crate) alloc: Global,
    pub(crate) plan: &'a Plan,
    pub(crate) shape: &'a C::Shape,
}

/// A line that was done.
#[derive(Drop)]
pub(crate) struct DoneLine {
    /// The line as it was typed, without white space around it.
    pub(crate) text: String,
    /// What it did, in order.
    pub(crate) events: Vec<SessionEvent>,
}

#[derive(Drop)]
pub(crate) struct Session<C: Exclusion> {
    pub(crate) state: State<C>,
    /// The lines that were done, in order.
    pub(crate) lines: Vec<DoneLine>,
    /// What each `undo` took back, in order, and `redo` can bring back.
    pub(crate) undone: Vec<Vec<DoneLine>>,
}

impl<C: Exclusion> Model for Session<C> {
    ghost use Rattle.mx_play.specs.Sessions.{SessionState};

    ghost Value = { SessionState C C.Msg };

    ghost view = { λ s. record {
      state = s.state;
      lines = s.lines.items;
      undone = s.undone.items;
    } };
}

pub(crate) fn trace_of<C: Exclusion>(state: &State<C>) -> &[Entry]
    ensures { result.now ≡ state.now.cluster.trace }
{
    state.cluster().trace()
}

pub(crate) fn first_state<C: Exclusion>(
    setting: &SessionSetting<'_, C>,
) -> Result<State<C>, AllocError>
    ensures { IfOk result (λ state.
        state ≡ first_state C.core setting.now.plan.now setting.now.shape.now) }
{
    State::start(setting.alloc, setting.plan, setting.shape)
}

pub(crate) fn first_session<C: Exclusion>(
    setting: &SessionSetting<'_, C>,
) -> Result<Session<C>, AllocError>
    ensures { IfOk result (λ session.
        session ≡ at_start C.core setting.now.plan.now setting.now.shape.now) }
{
    Ok(Session {
        state: first_state(setting)?,
        lines: Vec::new(setting.alloc),
        undone: Vec::new(setting.alloc),
    })
}
