//! What is printed of links that are cut, or heal.

ghost use Rattle.std.specs.Prelude.{◌≡◌, ◌++◌, string_bytes, OnOk, Some};
ghost use Rattle.mx_play.specs.Cuts.{change_line, cut_line, cut_lines, cut_lines_of, is_shown, is_to};

use mx_format::name_of;
use mx_lines::LinkChange;
use mx_plan::Plan;
use mx_scripts::InFlight;
use mx_stamps::NodeId;
use std::alloc::AllocError;
use std::fmt;

#[derive(Clone, Copy)]
struct CutLine<'a> {
    plan: &'a Plan,
    one: NodeId,
    other: NodeId,
}

impl fmt::Display for CutLine<'_> {
    ghost output = { λ l. Some (cut_line l.plan.now l.one l.other) };

    fn fmt<W: fmt::Write>(&self, f: &mut fmt::Formatter<W>) -> fmt::Result {
        let one = name_of(self.plan, self.one);
        let other = name_of(self.plan, self.other);
        writeln!(f, "cut {one} {other}")
    }
}

pub(crate) fn add_change(
    plan: &Plan,
    change: &LinkChange,
    text: &mut String,
) -> Result<(), AllocError>
    ensures { OnOk result (string_bytes text.new
        ≡ string_bytes text.old ++ change_line plan.now change.now) }
{
    match change {
        LinkChange::Cut(one, other) => {
            let (one, other) = (*one, *other);
            text.write(CutLine { plan, one, other })
        }
        LinkChange::CutAll(node) => {
            let node = name_of(plan, *node);
            writeln!(text, "cut {node}")
        }
        LinkChange::HealLink(one, other) => {
            let one = name_of(plan, *one);
            let other = name_of(plan, *other);
            writeln!(text, "heal {one} {other}")
        }
        LinkChange::HealNode(node) => {
            let node = name_of(plan, *node);
            writeln!(text, "heal {node}")
        }
        LinkChange::Heal => text.push_str("heal\n"),
    }
}

/// Appends the lines of the links that are cut, for `show`.
pub(crate) fn add_cuts(
    plan: &Plan,
    to: &Option<NodeId>,
    in_flight: &InFlight,
    text: &mut String,
) -> Result<(), AllocError>
    ensures { OnOk result (string_bytes text.new ≡ string_bytes text.old
        ++ cut_lines plan.now to.now in_flight.now.links) }
{
    for node in plan.node_ids() {
        add_cuts_of(plan, to, in_flight, node, text)?;
    }
    Ok(())
}

fn add_cuts_of(
    plan: &Plan,
    to: &Option<NodeId>,
    in_flight: &InFlight,
    one: NodeId,
    text: &mut String,
) -> Result<(), AllocError>
    ensures { OnOk result (string_bytes text.new ≡ string_bytes text.old
        ++ cut_lines_of plan.now to.now in_flight.now.links one) }
{
    for other in plan.node_ids() {
        if is_shown(to, in_flight, one, other) {
            text.write(CutLine { plan, one, other })?;
        }
    }
    Ok(())
}

fn is_shown(to: &Option<NodeId>, in_flight: &InFlight, one: NodeId, other: NodeId) -> bool
    ensures { result ≡ is_shown to.now in_flight.now.links one other }
{
    one.get() <= other.get() && in_flight.is_cut(one, other) && (is_to(to, one) || is_to(to, other))
}

pub(crate) fn is_to(to: &Option<NodeId>, addressee: NodeId) -> bool
    ensures { result ≡ is_to to.now addressee }
{
    match to {
        Some(node) => addressee == *node,
        None => true,
    }
}
