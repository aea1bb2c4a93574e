ghost use Rattle.std.specs.Prelude.{◌≡◌, ◌≤◌, map, option_map, length};
ghost use Rattle.std.specs.List.{list_all};
ghost use Rattle.serde_json.specs.View.{view};
ghost use Rattle.mx_plan.specs.Text.{AreNames};
ghost use Rattle.mx_plan.specs.Values.{Gives, each};
ghost use Rattle.mx_plan.specs.Plans.{ShapeAnswers, tree_of};
ghost use Rattle.mx_plan.specs.TreeKeys as spec;

use crate::faults::PlanFault;
use crate::name_reader::{is_name_value, number_of_name};
use crate::names::Names;
use crate::place::Place;
use crate::shape::Shape;
use crate::values::{array_in, list_in};
use mx_stamps::MAX_NODES;
use serde_json::Value;
use std::alloc::Global;

/// Reads the tree that the keys `edges` and `holder` of a plan describe.
///
/// # Errors
///
/// Returns `NotPlan` if a value is missing or has another form, and `UnknownName` if a name is that
/// of no node. Returns `BadShape` if the edges and the holder are no tree, and `Memory` if memory
/// runs out.
pub fn tree_in(alloc: Global, plan: &Value, nodes: &Names) -> Result<Shape, PlanFault>
    requires { AreNames MAX_NODES nodes.now }
    ensures { ShapeAnswers (length nodes.now) (tree_of nodes.now (view plan.now)) result }
{
    let edges = edges_in(alloc, plan.get("edges"), nodes)?;
    let holder = holder_in(plan.get("holder"), nodes)?;
    Ok(Shape::tree(nodes.len() as u8, edges.as_slice(), holder)?)
}

/// Reads the edges that the value of the key `edges` lists. The form of all edges is checked first,
/// and then their names.
fn edges_in(alloc: Global, value: Option<&Value>, nodes: &Names) -> Result<Vec<(u8, u8)>, PlanFault>
    requires { length nodes.now ≤ MAX_NODES }
    ensures { Gives (spec.edges_of nodes.now (option_map (λ v. view v.now) value.entry)) result }
{
    match array_in(value) {
        Some(values) if all_edges(values) => each_edge(alloc, values, nodes),
        _ => Err(PlanFault::NotPlan(Place::Edges)),
    }
}

fn all_edges(values: &[Value]) -> bool
    ensures { result ≡ list_all spec.is_edge (map view values.now) }
{
    for value in values {
        if !is_edge(value) {
            return false;
        }
    }
    true
}

#[tactic(auto, unfolding(crate::specs::TreeKeys::is_edge))]
fn is_edge(value: &Value) -> bool
    ensures { result ≡ spec.is_edge (view value.now) }
{
    match list_in(value) {
        [a, b] => is_name_value(a) && is_name_value(b),
        _ => false,
    }
}

fn each_edge(alloc: Global, values: &[Value], nodes: &Names) -> Result<Vec<(u8, u8)>, PlanFault>
    requires { length nodes.now ≤ MAX_NODES }
    ensures { Gives (each (spec.edge_of nodes.now) (map view values.now)) result }
{
    let mut edges = Vec::new(alloc);
    for value in values {
        let edge = edge_in(value, nodes)?;
        edges.push(edge)?;
    }
    Ok(edges)
}

fn edge_in(value: &Value, nodes: &Names) -> Result<(u8, u8), PlanFault>
    requires { length nodes.now ≤ MAX_NODES }
    ensures { result ≡ spec.edge_of nodes.now (view value.now) }
{
    match list_in(value) {
        [a, b] => {
            let i = number_of_name(a, nodes, Place::Edges)?;
            let j = number_of_name(b, nodes, Place::Edges)?;
            Ok((i, j))
        }
        _ => Err(PlanFault::NotPlan(Place::Edges)),
    }
}

fn holder_in(value: Option<&Value>, nodes: &Names) -> Result<u8, PlanFault>
    requires { length nodes.now ≤ MAX_NODES }
    ensures { result ≡ spec.holder_of nodes.now (option_map (λ v. view v.now) value.entry) }
{
    match value {
        Some(value) if is_name_value(value) => number_of_name(value, nodes, Place::Holder),
        _ => Err(PlanFault::NotPlan(Place::Holder)),
    }
}
