//! What is printed of what happens.

ghost use Rattle.std.specs.Prelude.{◌≡◌, ◌<◌, ◌≤◌, [], ◌∷◌, ◌++◌, length, slice_get, string_bytes, OnOk};
ghost use Rattle.mx_network.specs.Step.{ClusterState};
ghost use Rattle.mx_trace.specs.declared.outcome.Entry.{Entry};
ghost use Rattle.mx_format.specs.LetterTexts.{letter_text};
ghost use Rattle.mx_driver.specs.Runs.{text_of};
ghost use Rattle.mx_scripts.specs.States.{Brings, RunState};
ghost use Rattle.mx_scripts.specs.Told.{IsBroughtTo};
ghost use Rattle.mx_play.specs.Histories.{made_text};
ghost use Rattle.mx_play.specs.Printed.{lost_line, lost_text};

use crate::cuts::add_change;
use mx_driver::{Sink, View};
use mx_format::{Letter, add_parcel, name_of};
use mx_knowledge::Knowledge;
use mx_member::SentParcel;
use mx_network::Cluster;
use mx_nodelaws::Exclusion;
use mx_plan::Plan;
use mx_scripts::{SessionEvent, State};
use std::alloc::{AllocError, Global};

/// Appends what is printed of an event that happened. `state` is that after the event, which sent
/// the parcels from the number `before` on.
pub(crate) fn add_made<C: Exclusion + Knowledge>(
    alloc: Global,
    plan: &Plan,
    event: &SessionEvent,
    before: u64,
    state: &State<C>,
    text: &mut String,
) -> Result<(), AllocError>
where
    C::Msg: Letter,
    requires { IsBroughtTo C.core event.now before state.now }
    ensures { (old : RunState C C.Msg) → Brings C.core old event.now state.now
        → before ≡ length old.cluster.sent
        → OnOk result (string_bytes text.new ≡ string_bytes text.old
        ++ made_text C.core (letter_text C.Msg.parts) plan.now event.now old state.now) }
{
    match event {
        SessionEvent::Happens(_) => add_newest(alloc, plan, before, state.cluster(), text),
        SessionEvent::IsLost(number) => add_lost(plan, state.cluster(), *number, text),
        SessionEvent::LinksChange(change) => add_change(plan, change, text),
    }
}

/// Appends what `replay` prints of the newest event of a cluster, which sent the parcels from the
/// number `before` on.
fn add_newest<C: Exclusion + Knowledge>(
    alloc: Global,
    plan: &Plan,
    before: u64,
    cluster: &Cluster<C>,
    text: &mut String,
) -> Result<(), AllocError>
where
    C::Msg: Letter,
    requires noted { 0 < length cluster.now.trace }
    requires sent { before ≤ length cluster.now.sent }
    ensures { (old : ClusterState C C.Msg) (entry : Entry)
        → cluster.now.trace ≡ old.trace ++ entry ∷ [] → before ≡ length old.sent
        → OnOk result (string_bytes text.new ≡ string_bytes text.old
        ++ text_of C.core (letter_text C.Msg.parts) plan.now (length old.trace) old
        cluster.now) }
{
    let index = cluster.trace().len() as u64 - 1;
    let mut lines = View::LINES;
    lines.event(alloc, plan, index, before, cluster, text)
}

fn add_lost<C: Exclusion>(
    plan: &Plan,
    cluster: &Cluster<C>,
    number: u64,
    text: &mut String,
) -> Result<(), AllocError>
where
    C::Msg: Letter,
    ensures { OnOk result (string_bytes text.new ≡ string_bytes text.old
        ++ lost_text (letter_text C.Msg.parts) plan.now number
        (slice_get cluster.now.sent number)) }
{
    match cluster.sent_parcel(number) {
        Some(sent) => add_lost_parcel(plan, number, &sent, text),
        None => Ok(()),
    }
}

fn add_lost_parcel<M: Letter>(
    plan: &Plan,
    number: u64,
    sent: &SentParcel<'_, M>,
    text: &mut String,
) -> Result<(), AllocError>
    ensures { OnOk result (string_bytes text.new ≡ string_bytes text.old
        ++ lost_line (letter_text M.parts) plan.now number
        (sent.now.from, sent.now.to, sent.now.parcel.now)) }
{
    let (from, to) = (name_of(plan, sent.from), name_of(plan, sent.to));
    write!(text, "lost #{number} {from}>{to} ")?;
    add_parcel(plan, sent.parcel, text)?;
    text.push_str("\n")
}
