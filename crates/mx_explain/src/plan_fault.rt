//! What is wrong in a plan.

use crate::json_report::{JsonReport, WrongSpot, read_value};
use crate::location::FilePart;
use crate::report::{FaultReport, MAX_LINES, ReportResult};
use crate::shape_fault::{add_cycle, add_shape};
use crate::spot::{Spot, index_in, offset_of};
use json::{Scratch, Value};
use mx_lines::{Nearest, Quoted, nearest};
use mx_plan::{Place, Plan, PlanFault, is_name, read_plan};
use std::alloc::AllocError;

/// The keys that a plan may have.
const KEYS: [&str; 8] = [
    "algorithm",
    "nodes",
    "registers",
    "sections",
    "origin",
    "quorums",
    "edges",
    "holder",
];

pub(crate) const NODE: &str = "a node of the plan";

pub(crate) const NUMBER: &str = "a whole number of 64 bits without a sign";

/// Reads a plan, and reports its first fault, and keys that no plan uses. Returns the plan if it
/// has no fault.
pub(crate) fn explain_plan(
    report: &mut FaultReport,
    part: FilePart<'_>,
) -> Result<Option<Plan>, AllocError> {
    match read_plan(report.alloc(), part.text) {
        Ok(plan) => {
            let is_json = explain_text(report, part, None)?;
            Ok(if is_json { Some(plan) } else { None })
        }
        Err(PlanFault::Memory) => Err(AllocError),
        Err(fault) => {
            explain_text(report, part, Some(fault))?;
            Ok(None)
        }
    }
}

/// Reports the fault of a plan's text, if it has one, and keys that no plan uses. Returns whether
/// the text is JSON.
fn explain_text(
    report: &mut FaultReport,
    part: FilePart<'_>,
    fault: Option<PlanFault>,
) -> Result<bool, AllocError> {
    let mut scratch = Scratch::new(report.alloc());
    let Some(plan) = read_value(report, &part, &mut scratch)? else {
        return Ok(false);
    };
    let mut report = JsonReport { report, part };
    if let Some(fault) = fault {
        add_fault(&mut report, Spot::root("", &plan), fault)?;
    }
    add_unknown_keys(&mut report, &plan)?;
    Ok(true)
}

fn add_fault(report: &mut JsonReport<'_>, plan: Spot<'_, '_>, fault: PlanFault) -> ReportResult {
    let mut nodes = Vec::new(report.alloc());
    let names = plan.key("nodes");
    for i in 0..names.len() {
        nodes.push(names.item(i).text())?;
    }
    let nodes = nodes.as_slice();
    let place = match fault {
        PlanFault::NotPlan(place) => place,
        PlanFault::DoubleName(place) => place,
        PlanFault::UnknownName(place) => place,
        PlanFault::BadShape(fault) => return add_shape(report, plan, fault, nodes),
        PlanFault::NotJson | PlanFault::Memory => return Ok(()),
    };
    match place {
        Place::Holder if add_cycle(report, plan, nodes)? => Ok(()),
        Place::Nodes => add_names(report, plan.key("nodes"), 21),
        Place::Registers => add_names(report, plan.key("registers"), 32),
        _ => report.add_wrong(&wrong_at(plan, place, nodes)),
    }
}

fn add_names(report: &mut JsonReport<'_>, list: Spot<'_, '_>, most: usize) -> ReportResult {
    let alloc = report.alloc();
    if list.len() == 0 || list.len() > most {
        let expected = format!(in alloc; "an array of 1 to {most} names")?;
        return report.add_wrong(&WrongSpot::of(list, expected.as_str()));
    }
    for i in 0..list.len() {
        let name = list.item(i);
        if !is_name(name.text()) {
            let expected = "a name: 1 to 16 of letters, digits, _ and -";
            return report.add_wrong(&WrongSpot::of(name, expected));
        }
        if (0..i).any(|k| list.item(k).text() == name.text()) {
            let text = format!(in alloc; "duplicate name {}", Quoted(name.text()))?;
            return report.add(name, text.as_str());
        }
    }
    Ok(())
}

fn wrong_at<'w, 'a>(plan: Spot<'w, 'a>, place: Place, nodes: &'w [&'w str]) -> WrongSpot<'w, 'a> {
    match place {
        Place::Algorithm => WrongSpot {
            spot: plan.key("algorithm"),
            expected: "an algorithm: ricart, maekawa or raymond",
            known: &["ricart", "maekawa", "raymond"],
        },
        Place::Sections => WrongSpot::of(plan.key("sections"), "a whole number, 1 to 1000000"),
        Place::Origin => WrongSpot::of(plan.key("origin"), NUMBER),
        Place::Quorums => wrong_in_quorums(plan.key("quorums"), nodes),
        Place::Edges => wrong_in_edges(plan.key("edges"), nodes),
        Place::Holder => WrongSpot {
            spot: plan.key("holder"),
            expected: NODE,
            known: nodes,
        },
        _ => {
            let expected = "an object with algorithm, nodes, registers and sections";
            WrongSpot::of(plan.named("the plan"), expected)
        }
    }
}

pub(crate) fn wrong_word<'w, 'a>(
    spot: Spot<'w, 'a>,
    expected: &'w str,
    known: &'w [&'w str],
) -> Option<WrongSpot<'w, 'a>> {
    if index_in(spot.text(), known).is_some() {
        return None;
    }
    Some(WrongSpot {
        spot,
        expected,
        known,
    })
}

fn wrong_in_edges<'w, 'a>(edges: Spot<'w, 'a>, nodes: &'w [&'w str]) -> WrongSpot<'w, 'a> {
    for k in 0..edges.len() {
        let edge = edges.item(k);
        if edge.len() != 2 {
            return WrongSpot::of(edge, "an array of two nodes");
        }
        if let Some(wrong) = wrong_in_nodes(edge, nodes) {
            return wrong;
        }
    }
    WrongSpot::of(edges, "an array of edges, each an array of two nodes")
}

fn wrong_in_nodes<'w, 'a>(list: Spot<'w, 'a>, nodes: &'w [&'w str]) -> Option<WrongSpot<'w, 'a>> {
    let Some(Value::Array(_)) = list.value else {
        return Some(WrongSpot::of(list, "an array of nodes"));
    };
    for i in 0..list.len() {
        let wrong = wrong_word(list.item(i), NODE, nodes);
        if wrong.is_some() {
            return wrong;
        }
    }
    None
}

fn wrong_in_quorums<'w, 'a>(quorums: Spot<'w, 'a>, nodes: &'w [&'w str]) -> WrongSpot<'w, 'a> {
    let Some(Value::Object(_)) = quorums.value else {
        let expected = "an object: {\"kind\":\"plane\"}, or of kind grid or listed";
        return WrongSpot::of(quorums, expected);
    };
    match quorums.key("kind").text() {
        "grid" => wrong_in_grid(quorums),
        "listed" => wrong_in_sets(quorums.key("sets"), nodes),
        _ => WrongSpot {
            spot: quorums.key("kind"),
            expected: "a kind: plane, grid or listed",
            known: &["plane", "grid", "listed"],
        },
    }
}

fn wrong_in_grid<'w, 'a>(quorums: Spot<'w, 'a>) -> WrongSpot<'w, 'a> {
    for side in [quorums.key("rows"), quorums.key("cols")] {
        match side.value.and_then(Value::as_u64) {
            Some(1..=21) => {}
            _ => return WrongSpot::of(side, "a whole number, 1 to 21"),
        }
    }
    let expected = "such rows that rows times cols is the number of nodes";
    WrongSpot::of(quorums.key("rows"), expected)
}

fn wrong_in_sets<'w, 'a>(sets: Spot<'w, 'a>, nodes: &'w [&'w str]) -> WrongSpot<'w, 'a> {
    let count = sets.len();
    for i in 0..count {
        if let (true, Some(wrong)) = (count == nodes.len(), wrong_in_nodes(sets.item(i), nodes)) {
            return wrong;
        }
    }
    let expected = "an array with a set for each node, in the order of nodes";
    WrongSpot::of(sets, expected)
}

/// Warns of keys that no plan uses: of the first `MAX_LINES`.
fn add_unknown_keys(report: &mut JsonReport<'_>, plan: &Value<'_>) -> ReportResult {
    let alloc = report.alloc();
    let Value::Object(members) = plan else {
        return Ok(());
    };
    let mut count = 0usize;
    for (index, (key, _)) in members.iter().enumerate() {
        if count < MAX_LINES && index_in(key, &KEYS).is_none() {
            let nearest = Nearest(nearest(alloc, key, &KEYS)?);
            let key = Quoted(key);
            let text = format!(in alloc; " warning: unknown key {key}, ignored{nearest}")?;
            let offset = offset_of(alloc, report.part.text, &[index])?;
            report.report.add_at(&report.part, offset, text.as_str())?;
            count = count.saturating_add(1);
        }
    }
    Ok(())
}
