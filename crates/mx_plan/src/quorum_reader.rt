ghost use Rattle.std.specs.Prelude.{◌≡◌, ◌*◌, ◌<◌, ◌≤◌, ◌==◌, IfOk, map, option_map, length};
ghost use Rattle.std.specs.List.{list_all};
ghost use Rattle.serde_json.specs.View.{view};
ghost use Rattle.mx_plan.specs.Text.{AreNames};
ghost use Rattle.mx_plan.specs.Values.{each};
ghost use Rattle.mx_plan.specs.NameLists.{is_name_list};
ghost use Rattle.mx_plan.specs.Plans.{ShapeAnswers};
ghost use Rattle.mx_plan.specs.QuorumKeys as spec;

use crate::faults::PlanFault;
use crate::name_reader::{is_name_list, numbers_of_names};
use crate::names::Names;
use crate::place::Place;
use crate::shape::Shape;
use crate::values::{array_in, list_in, number_in};
use mx_stamps::MAX_NODES;
use serde_json::Value;
use std::alloc::Global;

/// Reads the arbiter sets that the value of a plan's key `quorums` describes.
///
/// # Errors
///
/// Returns `NotPlan` if the value is missing or has another form, and `UnknownName` if a name is
/// that of no node. Returns `BadShape` if the sets break a rule, and `Memory` if memory runs out.
pub fn quorums_in(alloc: Global, value: Option<&Value>, nodes: &Names) -> Result<Shape, PlanFault>
    requires { AreNames MAX_NODES nodes.now }
    ensures { ShapeAnswers (length nodes.now)
        (spec.quorums_of nodes.now (option_map (λ v. view v.now) value.entry)) result }
{
    match value {
        Some(value) => quorums_from(alloc, value, nodes),
        None => Err(PlanFault::NotPlan(Place::Quorums)),
    }
}

fn quorums_from(alloc: Global, value: &Value, nodes: &Names) -> Result<Shape, PlanFault>
    requires { AreNames MAX_NODES nodes.now }
    ensures { ShapeAnswers (length nodes.now)
        (spec.quorums_from nodes.now (view value.now)) result }
{
    match value.get("kind").and_then(Value::as_str) {
        Some(kind) => of_kind(alloc, kind, value, nodes),
        None => Err(PlanFault::NotPlan(Place::Quorums)),
    }
}

fn of_kind(alloc: Global, kind: &str, value: &Value, nodes: &Names) -> Result<Shape, PlanFault>
    requires { AreNames MAX_NODES nodes.now }
    ensures { ShapeAnswers (length nodes.now)
        (spec.kind_of nodes.now (view value.now) kind.now) result }
{
    let count = nodes.len() as u8;
    match kind {
        "plane" => Ok(Shape::plane(count)?),
        "grid" => {
            let rows = number_in(value.get("rows"));
            let cols = number_in(value.get("cols"));
            grid_in(count, rows, cols)
        }
        "listed" => sets_in(alloc, value.get("sets"), nodes),
        _ => Err(PlanFault::NotPlan(Place::Quorums)),
    }
}

fn grid_in(nodes: u8, rows: Option<u64>, cols: Option<u64>) -> Result<Shape, PlanFault>
    requires some { 0 < nodes }
    requires few { nodes ≤ MAX_NODES }
    ensures { ShapeAnswers nodes (spec.grid_of nodes rows cols) result }
{
    match (rows, cols) {
        (Some(rows), Some(cols)) if is_size(nodes, rows, cols) => {
            Ok(Shape::grid(nodes, rows as u8, cols as u8)?)
        }
        _ => Err(PlanFault::NotPlan(Place::Quorums)),
    }
}

fn is_size(nodes: u8, rows: u64, cols: u64) -> bool
    ensures { result ≡ (rows * cols == nodes) }
{
    rows.checked_mul(cols) == Some(u64::from(nodes))
}

fn sets_in(alloc: Global, value: Option<&Value>, nodes: &Names) -> Result<Shape, PlanFault>
    requires { AreNames MAX_NODES nodes.now }
    ensures { ShapeAnswers (length nodes.now)
        (spec.sets_of nodes.now (option_map (λ v. view v.now) value.entry)) result }
{
    match array_in(value) {
        Some(values) if are_sets(values, nodes.len()) => family_of(alloc, values, nodes),
        _ => Err(PlanFault::NotPlan(Place::Quorums)),
    }
}

fn are_sets(values: &[Value], nodes: usize) -> bool
    ensures { result ≡ spec.are_sets nodes (map view values.now) }
{
    values.len() == nodes && all_name_lists(values)
}

fn all_name_lists(values: &[Value]) -> bool
    ensures { result ≡ list_all is_name_list (map view values.now) }
{
    for value in values {
        if !is_name_list(value) {
            return false;
        }
    }
    true
}

fn family_of(alloc: Global, values: &[Value], nodes: &Names) -> Result<Shape, PlanFault>
    requires few { length nodes.now ≤ MAX_NODES }
    requires one_each { length values.now ≡ length nodes.now }
    ensures { ShapeAnswers (length nodes.now)
        (spec.family_of nodes.now (map view values.now)) result }
{
    let sets = all_sets(alloc, values, nodes)?;
    Ok(Shape::listed(nodes.len() as u8, sets.as_slice())?)
}

fn all_sets(alloc: Global, values: &[Value], nodes: &Names) -> Result<Vec<Vec<u8>>, PlanFault>
    requires { length nodes.now ≤ MAX_NODES }
    ensures sets { spec.GivesSets (each (spec.set_of nodes.now) (map view values.now)) result }
    ensures one_each { IfOk result (λ sets. length sets.items ≡ length values.now) }
{
    let mut sets = Vec::new(alloc);
    for value in values {
        let set = numbers_of_names(alloc, list_in(value), nodes, Place::Quorums)?;
        sets.push(set)?;
    }
    Ok(sets)
}
