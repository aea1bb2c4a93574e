//! Nodes, as JSON.

ghost use Rattle.std.specs.Prelude.{◌≡◌, ◌++◌, OnOk, string_bytes};
ghost use Rattle.mx_format.specs.FactTexts.{knows_json};
ghost use Rattle.mx_format.specs.NodeTexts.{counts_json, journal_json, member_json, phase_json, registers_json, standing_json};

use crate::json::{add_array, add_number, add_word, add_word_and_number, start_node};
use crate::nodes::add_values;
use mx_journal::Journal;
use mx_knowledge::Knowledge;
use mx_member::Member;
use mx_nodelaws::{Exclusion, Phase};
use mx_plan::Plan;
use mx_stamps::NodeId;
use std::alloc::{AllocError, Global};

/// Appends the line of a node, as an object of JSON, with what the node knows.
pub fn add_node_json<C: Exclusion + Knowledge>(
    alloc: Global,
    plan: &Plan,
    node: NodeId,
    member: &Member<C>,
    text: &mut String,
) -> Result<(), AllocError>
    ensures { OnOk result (string_bytes text.new
        ≡ string_bytes text.old ++ member_json C.core C.knows plan.now node member.now) }
{
    add_standing(plan, node, member, text)?;
    add_contents(plan, member.journal(), text)?;
    add_known(alloc, plan, member, text)?;
    text.push_str("}\n")
}

fn add_standing<C: Exclusion>(
    plan: &Plan,
    node: NodeId,
    member: &Member<C>,
    text: &mut String,
) -> Result<(), AllocError>
    ensures { OnOk result (string_bytes text.new
        ≡ string_bytes text.old ++ standing_json C.core plan.now node member.now.core) }
{
    start_node(plan, node, text)?;
    add_phase(member.phase(), text)?;
    add_number("mine", member.mine(), text)
}

fn add_phase(phase: Phase, text: &mut String) -> Result<(), AllocError>
    ensures { OnOk result (string_bytes text.new ≡ string_bytes text.old ++ phase_json phase) }
{
    match phase {
        Phase::Idle => add_word("phase", "idle", text),
        Phase::Waiting => add_word("phase", "waiting", text),
        Phase::Inside(number) => add_word_and_number("phase", "inside", "number", number, text),
    }
}

fn add_contents(plan: &Plan, journal: &Journal, text: &mut String) -> Result<(), AllocError>
    ensures { OnOk result (string_bytes text.new
        ≡ string_bytes text.old ++ journal_json plan.now journal.now) }
{
    add_counts(journal, text)?;
    add_registers(plan, journal, text)
}

fn add_counts(journal: &Journal, text: &mut String) -> Result<(), AllocError>
    ensures { OnOk result (string_bytes text.new
        ≡ string_bytes text.old ++ counts_json journal.now) }
{
    add_number("records", journal.len() as u64, text)?;
    add_number("gapless", journal.gapless_to(), text)
}

fn add_registers(plan: &Plan, journal: &Journal, text: &mut String) -> Result<(), AllocError>
    ensures { OnOk result (string_bytes text.new
        ≡ string_bytes text.old ++ registers_json plan.now journal.now) }
{
    text.push_str(",\"registers\":{")?;
    add_values(plan, journal, true, text)?;
    text.push_str("}")
}

fn add_known<C: Exclusion + Knowledge>(
    alloc: Global,
    plan: &Plan,
    member: &Member<C>,
    text: &mut String,
) -> Result<(), AllocError>
    ensures { OnOk result (string_bytes text.new
        ≡ string_bytes text.old ++ knows_json plan.now (C.knows member.now.core)) }
{
    let facts = member.core().facts(alloc)?;
    add_array(plan, "knows", facts.as_slice(), text)
}
