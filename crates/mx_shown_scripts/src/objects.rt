//! Objects of JSON for what a script does beside events.

ghost use Rattle.std.specs.Prelude.{◌≡◌, ◌++◌, string_bytes, OnOk};
ghost use Rattle.mx_shown_scripts.specs.Objects.{IsFaultJson, change_json, line_json, link_json, lost_json, node_json};

use mx_format::name_of;
use mx_lines::LinkChange;
use mx_plan::Plan;
use mx_scripts::RefusedLine;
use mx_stamps::NodeId;
use serde_json::Value;
use std::alloc::{AllocError, Global};

/// Appends the object of a line that did something.
pub(crate) fn add_line(number: u64, text: &mut String) -> Result<(), AllocError>
    ensures { OnOk result (string_bytes text.new ≡ string_bytes text.old ++ line_json number) }
{
    write!(text, "{{\"line\":{number}}}\n")
}

/// Appends the object of a lost parcel.
pub(crate) fn add_lost(number: u64, text: &mut String) -> Result<(), AllocError>
    ensures { OnOk result (string_bytes text.new ≡ string_bytes text.old ++ lost_json number) }
{
    write!(text, "{{\"lost\":{number}}}\n")
}

/// Appends the object of a change of links.
pub(crate) fn add_change(
    plan: &Plan,
    change: &LinkChange,
    text: &mut String,
) -> Result<(), AllocError>
    ensures { OnOk result (string_bytes text.new
        ≡ string_bytes text.old ++ change_json plan.now change.now) }
{
    match change {
        LinkChange::Cut(one, other) => add_link(plan, "cut", *one, *other, text),
        LinkChange::CutAll(node) => add_node(plan, "cut", *node, text),
        LinkChange::HealLink(one, other) => add_link(plan, "heal", *one, *other, text),
        LinkChange::HealNode(node) => add_node(plan, "heal", *node, text),
        LinkChange::Heal => text.push_str("{\"heal\":[]}\n"),
    }
}

fn add_link(
    plan: &Plan,
    word: &str,
    one: NodeId,
    other: NodeId,
    text: &mut String,
) -> Result<(), AllocError>
    ensures { OnOk result (string_bytes text.new
        ≡ string_bytes text.old ++ link_json plan.now word.now one other) }
{
    let one = name_of(plan, one);
    let other = name_of(plan, other);
    write!(text, "{{\"{word}\":[\"{one}\",\"{other}\"]}}\n")
}

fn add_node(plan: &Plan, word: &str, node: NodeId, text: &mut String) -> Result<(), AllocError>
    ensures { OnOk result (string_bytes text.new
        ≡ string_bytes text.old ++ node_json plan.now word.now node) }
{
    let node = name_of(plan, node);
    write!(text, "{{\"{word}\":[\"{node}\"]}}\n")
}

/// Appends the object of a line that is refused: its number, its fault, and the message about it.
pub(crate) fn add_refused(
    alloc: Global,
    line: &RefusedLine,
    text: &mut String,
) -> Result<(), AllocError>
    ensures { OnOk result (IsFaultJson line.now (string_bytes text.old) (string_bytes text.new)) }
{
    let message = Value::String(line.message.clone()?).to_string(alloc)?;
    write!(
        text,
        "{{\"line\":{},\"fault\":\"{}\",\"message\":{message}}}\n",
        line.number, line.fault
    )
}
