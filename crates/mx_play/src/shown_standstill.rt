//! What `show` prints of a session that stands still.

ghost use Rattle.std.specs.Prelude.{◌≡◌, ◌++◌, length, string_bytes, OnOk, None};
ghost use Rattle.mx_play.specs.Views.{stuck_shown};

use crate::session::SessionSetting;
use mx_format::add_stuck;
use mx_knowledge::Knowledge;
use mx_nodelaws::Exclusion;
use mx_scripts::State;
use mx_stamps::NodeId;
use std::alloc::AllocError;

/// Appends the line of a session that stands still, unless a node was named.
pub(crate) fn add_standstill<C: Exclusion + Knowledge>(
    setting: &SessionSetting<'_, C>,
    to: &Option<NodeId>,
    state: &State<C>,
    text: &mut String,
) -> Result<(), AllocError>
    requires { length state.now.cluster.members ≡ length setting.now.plan.now.nodes }
    ensures { OnOk result (string_bytes text.new ≡ string_bytes text.old
        ++ stuck_shown C.core C.knows setting.now.plan.now to.now state.now) }
{
    match to {
        Some(_) => Ok(()),
        None => add_if_stuck(setting, state, text),
    }
}

fn add_if_stuck<C: Exclusion + Knowledge>(
    setting: &SessionSetting<'_, C>,
    state: &State<C>,
    text: &mut String,
) -> Result<(), AllocError>
    requires { length state.now.cluster.members ≡ length setting.now.plan.now.nodes }
    ensures { OnOk result (string_bytes text.new ≡ string_bytes text.old
        ++ stuck_shown C.core C.knows setting.now.plan.now None state.now) }
{
    let waiters = state.stuck(setting.alloc, setting.plan)?;
    add_stuck(setting.plan, false, waiters.as_slice(), text)
}
