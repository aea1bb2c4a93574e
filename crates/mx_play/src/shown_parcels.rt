//! What `show` prints of the parcels under way.

ghost use Rattle.std.specs.Prelude.{◌≡◌, ◌++◌, ◌&&◌, string_bytes, OnOk};
ghost use Rattle.mx_format.specs.LetterTexts.{letter_text};
ghost use Rattle.mx_scripts.specs.Fates.{is_under_way};
ghost use Rattle.mx_play.specs.Cuts.{is_to};
ghost use Rattle.mx_play.specs.Views.{waiting_line, waiting_lines};

use crate::cuts::is_to;
use mx_format::{Letter, add_parcel_line};
use mx_member::SentParcel;
use mx_nodelaws::Exclusion;
use mx_plan::Plan;
use mx_scripts::State;
use mx_stamps::NodeId;
use std::alloc::AllocError;

pub(crate) fn add_waiting<C: Exclusion>(
    plan: &Plan,
    to: &Option<NodeId>,
    state: &State<C>,
    text: &mut String,
) -> Result<(), AllocError>
where
    C::Msg: Letter,
    ensures { OnOk result (string_bytes text.new ≡ string_bytes text.old
        ++ waiting_lines C.core (letter_text C.Msg.parts) plan.now to.now state.now) }
{
    for (number, sent) in state.cluster().parcels_from(0) {
        add_parcel(plan, to, state, number, &sent, text)?;
    }
    Ok(())
}

fn add_parcel<C: Exclusion>(
    plan: &Plan,
    to: &Option<NodeId>,
    state: &State<C>,
    number: u64,
    sent: &SentParcel<'_, C::Msg>,
    text: &mut String,
) -> Result<(), AllocError>
where
    C::Msg: Letter,
    ensures { OnOk result (string_bytes text.new ≡ string_bytes text.old
        ++ waiting_line C.core (letter_text C.Msg.parts) plan.now to.now state.now
        number (sent.now.from, sent.now.to, sent.now.parcel.now)) }
{
    if is_waiting(to, state, number, sent.to) {
        return add_parcel_line(plan, number, sent, text);
    }
    Ok(())
}

fn is_waiting<C: Exclusion>(
    to: &Option<NodeId>,
    state: &State<C>,
    number: u64,
    addressee: NodeId,
) -> bool
    ensures { result ≡ (is_under_way state.now.fates number && is_to to.now addressee) }
{
    state.is_under_way(number) && is_to(to, addressee)
}
