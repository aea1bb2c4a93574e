//! Why an event breaks a rule, in words.

ghost use Rattle.std.specs.Prelude.{◌≡◌, ◌≤◌, ◌++◌, List, length, IfOk, OnOk, string_bytes};
ghost use Rattle.mx_trace.specs.Sections.{Section};
ghost use Rattle.mx_explorer.specs.Ledger.{IsLedgerOf};
ghost use Rattle.mx_explorer.specs.Verdict.{IsSoundTrace, IsVerdictOf};
ghost use Rattle.mx_judge.specs.Reasons as spec;

use mx_events::Event;
use mx_explorer::{Clause, LastWrite, Ledger, Verdict};
use mx_format::{name_of, register_name_of};
use mx_plan::Plan;
use mx_stamps::NodeId;
use mx_trace::{Entry, Outcome};
use std::alloc::{AllocError, Global};

/// Returns why a trace with this verdict is broken; nothing, if it is sound.
///
/// # Errors
///
/// Returns `AllocError` if memory runs out.
pub fn reason_for(
    alloc: Global,
    plan: &Plan,
    entries: &[Entry],
    verdict: Verdict,
) -> Result<String, AllocError>
    ensures { IsVerdictOf entries.now verdict → IfOk result (λ reason.
        string_bytes reason ≡ spec.reason_for plan.now entries.now verdict) }
{
    let mut text = String::new(alloc);
    let Verdict::Broken(index, clause) = verdict else {
        return Ok(text);
    };
    let at = index as usize;
    if at >= entries.len() {
        return Ok(text);
    }
    let (before, entry) = (&entries[..at], &entries[at]);
    add_reason(plan, before, entry, clause, &mut text)?;
    Ok(text)
}

/// Appends why an entry breaks a rule, given the entries before it, which break none.
fn add_reason(
    plan: &Plan,
    before: &[Entry],
    entry: &Entry,
    clause: Clause,
    text: &mut String,
) -> Result<(), AllocError>
    ensures { IsSoundTrace before.now → OnOk result (string_bytes text.new
        ≡ string_bytes text.old ++ spec.reason_of plan.now before.now clause
        entry.now.event entry.now.outcome) }
{
    match clause {
        Clause::Number => add_wrong_number(plan, entered_in(before) + 1, entry, text),
        _ => add_misfit(plan, &Ledger::of(before), entry, text),
    }
}

/// Returns how many sections were entered.
pub(crate) fn entered_in(entries: &[Entry]) -> u64
    ensures value { result ≡ spec.entered_in entries.now }
    ensures few { result ≤ length entries.now }
{
    entries.iter().filter(|entry| entry.is_entry()).count() as u64
}

fn add_wrong_number(
    plan: &Plan,
    next: u64,
    entry: &Entry,
    text: &mut String,
) -> Result<(), AllocError>
    ensures { OnOk result (string_bytes text.new ≡ string_bytes text.old
        ++ spec.number_reason plan.now next entry.now.event entry.now.outcome) }
{
    match (&entry.event, &entry.outcome) {
        (Event::Enter(node), Outcome::Entered(number)) => {
            let name = name_of(plan, *node);
            write!(text, "enter {name} has number {number}, the next is {next}")
        }
        _ => Ok(()),
    }
}

/// Appends why an entry that has the next number breaks a rule, given the ledger of those before.
fn add_misfit(
    plan: &Plan,
    ledger: &Ledger,
    entry: &Entry,
    text: &mut String,
) -> Result<(), AllocError>
    ensures { (ss : List Section) → IsLedgerOf ss ledger.now → OnOk result (string_bytes text.new
        ≡ string_bytes text.old
        ++ spec.misfit_reason plan.now ss entry.now.event entry.now.outcome) }
{
    match (&entry.event, &entry.outcome) {
        (Event::Enter(node), Outcome::Entered(_)) => {
            write!(text, "enter {}", name_of(plan, *node))?;
            add_inside(plan, ledger, text)
        }
        (Event::Leave(node), Outcome::Left(receipt)) => {
            let name = name_of(plan, *node);
            add_named("leave ", name, " from section ", receipt.number, text)?;
            add_inside(plan, ledger, text)
        }
        (Event::Read(node, register), Outcome::Value(value)) => {
            text.push_str(name_of(plan, *node))?;
            add_named(
                " reads ",
                register_name_of(plan, *register),
                " ",
                *value,
                text,
            )?;
            add_wanted(plan, ledger, *node, *register, text)
        }
        _ => Ok(()),
    }
}

/// Appends what a node should have read, or why it should not have read.
fn add_wanted(
    plan: &Plan,
    ledger: &Ledger,
    node: NodeId,
    register: u8,
    text: &mut String,
) -> Result<(), AllocError>
    ensures { (ss : List Section) → IsLedgerOf ss ledger.now → OnOk result (string_bytes text.new
        ≡ string_bytes text.old ++ spec.wanted_text plan.now ss node register) }
{
    if ledger.is_inside(node) {
        add_expected(plan, ledger.last_write(register), text)
    } else {
        add_inside(plan, ledger, text)
    }
}

fn add_inside(plan: &Plan, ledger: &Ledger, text: &mut String) -> Result<(), AllocError>
    ensures { (ss : List Section) → IsLedgerOf ss ledger.now → OnOk result (string_bytes text.new
        ≡ string_bytes text.old ++ spec.inside_text plan.now ss) }
{
    match ledger.inside {
        Some(node) => {
            let name = name_of(plan, node);
            add_named(", while ", name, " is inside section ", ledger.last, text)
        }
        None => text.push_str(", while no node is inside"),
    }
}

fn add_expected(
    plan: &Plan,
    expected: Option<LastWrite>,
    text: &mut String,
) -> Result<(), AllocError>
    ensures { OnOk result (string_bytes text.new
        ≡ string_bytes text.old ++ spec.expected_text plan.now expected) }
{
    match expected {
        Some(write) => {
            let name = name_of(plan, write.node);
            write!(text, ", expected {}", write.value)?;
            add_named(", written by ", name, " in section ", write.section, text)
        }
        None => text.push_str(", expected 0, never written"),
    }
}

/// Appends a name and a number, each with words before it.
fn add_named(
    words: &str,
    name: &str,
    more: &str,
    number: u64,
    text: &mut String,
) -> Result<(), AllocError>
    ensures { OnOk result (string_bytes text.new ≡ string_bytes text.old
        ++ spec.named words.now name.now more.now number) }
{
    write!(text, "{words}{name}{more}{number}")
}
