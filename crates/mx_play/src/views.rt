//! What `show` prints of a session.

ghost use Rattle.std.specs.Prelude.{◌≡◌, ◌++◌, length, string_bytes, OnOk};
ghost use Rattle.mx_format.specs.LetterTexts.{letter_text};
ghost use Rattle.mx_play.specs.Views.{view_text};

use crate::cuts::add_cuts;
use crate::session::SessionSetting;
use crate::shown_nodes::add_standing;
use crate::shown_parcels::add_waiting;
use crate::shown_standstill::add_standstill;
use mx_format::Letter;
use mx_knowledge::Knowledge;
use mx_nodelaws::Exclusion;
use mx_scripts::State;
use mx_stamps::NodeId;
use std::alloc::AllocError;

pub(crate) fn show<C: Exclusion + Knowledge>(
    setting: &SessionSetting<'_, C>,
    to: &Option<NodeId>,
    state: &State<C>,
    text: &mut String,
) -> Result<(), AllocError>
where
    C::Msg: Letter,
    requires { length state.now.cluster.members ≡ length setting.now.plan.now.nodes }
    ensures { OnOk result (string_bytes text.new ≡ string_bytes text.old
        ++ view_text C.core (letter_text C.Msg.parts) setting.now.plan.now C.knows to.now
        state.now) }
{
    add_standing(setting, to, state.cluster(), text)?;
    add_cuts(setting.plan, to, state.in_flight(), text)?;
    add_waiting(setting.plan, to, state, text)?;
    add_standstill(setting, to, state, text)
}
