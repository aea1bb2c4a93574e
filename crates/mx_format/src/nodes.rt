//! Nodes, in lines.

ghost use Rattle.std.specs.Prelude.{◌≡◌, ◌++◌, OnOk, Some, string_bytes};
ghost use Rattle.mx_format.specs.NodeTexts.{comma_at, journal_text, member_line, phase_text, values_by};

use crate::events::{name_of, register_name_of};
use mx_journal::Journal;
use mx_member::Member;
use mx_nodelaws::{Exclusion, Phase};
use mx_plan::Plan;
use mx_registers::view;
use mx_stamps::NodeId;
use std::alloc::AllocError;
use std::fmt;

/// Appends the line of a node: its phase, the last section that it entered, the counts of its
/// journal, and the value of each register after the journal's records.
pub fn add_member_line<C: Exclusion>(
    plan: &Plan,
    node: NodeId,
    member: &Member<C>,
    text: &mut String,
) -> Result<(), AllocError>
    ensures { OnOk result (string_bytes text.new
        ≡ string_bytes text.old ++ member_line C.core plan.now node member.now) }
{
    let name = name_of(plan, node);
    let phase = PhaseText(member.phase());
    let mine = member.mine();
    write!(text, "{name}: {phase}, mine {mine}")?;
    add_journal(plan, member.journal(), text)?;
    text.push_str("\n")
}

/// The phase of a node, as a text.
#[derive(Clone, Copy)]
struct PhaseText(Phase);

impl fmt::Display for PhaseText {
    ghost output = { λ p. Some (phase_text p.0) };

    fn fmt<W: fmt::Write>(&self, f: &mut fmt::Formatter<W>) -> fmt::Result {
        match self.0 {
            Phase::Idle => f.write_str("idle"),
            Phase::Waiting => f.write_str("waiting"),
            Phase::Inside(number) => write!(f, "inside {number}"),
        }
    }
}

fn add_journal(plan: &Plan, journal: &Journal, text: &mut String) -> Result<(), AllocError>
    ensures { OnOk result (string_bytes text.new
        ≡ string_bytes text.old ++ journal_text plan.now journal.now) }
{
    let records = journal.len() as u64;
    let gapless = journal.gapless_to();
    write!(text, ", records {records}, gapless {gapless}")?;
    add_values(plan, journal, false, text)
}

pub(crate) fn add_values(
    plan: &Plan,
    journal: &Journal,
    is_json: bool,
    text: &mut String,
) -> Result<(), AllocError>
    ensures { OnOk result (string_bytes text.new
        ≡ string_bytes text.old ++ values_by is_json plan.now journal.now) }
{
    let shown = view(journal, plan.registers());
    for register in 0..plan.registers() {
        let name = register_name_of(plan, register);
        let value = shown.value(register).unwrap_or(0);
        if is_json {
            write!(text, "{}\"{name}\":{value}", comma_at(register))?;
            continue;
        }
        write!(text, ", {name}={value}")?;
    }
    Ok(())
}

fn comma_at(place: u8) -> &'static str
    ensures { result.now ≡ comma_at place }
{
    if place == 0 { "" } else { "," }
}
