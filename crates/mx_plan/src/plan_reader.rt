ghost use Rattle.std.specs.Prelude.{◌≡◌, ◌⊎◌, ◌≤◌, Err, IfOk, codes, length};
ghost use Rattle.serde_json.specs.Find.{get};
ghost use Rattle.serde_json.specs.View.{view};
ghost use Rattle.mx_plan.specs.Text.{AreNames};
ghost use Rattle.mx_plan.specs.Fields.{IsPlan, IsShape};
ghost use Rattle.mx_plan.specs.Values.{Answers};
ghost use Rattle.mx_plan.specs.PlanParts as part;
ghost use Rattle.mx_plan.specs.Plans as spec;

use crate::algorithm::{Algorithm, algorithm_in};
use crate::faults::PlanFault;
use crate::name_reader::names_at;
use crate::names::Names;
use crate::needs::Needs;
use crate::place::Place;
use crate::plan::Plan;
use crate::quorum_reader::quorums_in;
use crate::shape::Shape;
use crate::tree_reader::tree_in;
use crate::values::{number_in, parse};
use mx_stamps::{MAX_NODES, MAX_REGISTERS, MAX_SECTIONS};
use serde_json::Value;
use std::alloc::Global;

/// Reads a plan: an object with the keys `algorithm`, `nodes`, `registers` and `sections`, and
/// optionally `origin`, which is 0 by default. Maekawa's algorithm also needs `quorums`, and
/// Raymond's `edges` and `holder`. Other keys are ignored.
///
/// # Errors
///
/// Returns `NotJson` if the text is not JSON, and `Memory` if memory runs out. Otherwise returns
/// the first fault. Places are checked in the order of `Place`, each first for its form
/// (`NotPlan`), then for double names (`DoubleName`) and unknown ones (`UnknownName`). The shape is
/// checked after all places (`BadShape`).
pub fn read_plan(alloc: Global, text: &[u8]) -> Result<Plan, PlanFault>
    ensures answers { spec.IsOutcome (spec.draft_at Needs.All text.now) result
        ⊎ (result ≡ Err PlanFault.Memory) }
    ensures valid { IfOk result (λ plan. IsPlan plan) }
{
    read_plan_for(alloc, text, Needs::All)
}

/// Reads a plan as `read_plan` does, except that only the needed keys have to be there.
///
/// # Errors
///
/// Returns the errors of `read_plan`, but none for a missing key that is not needed.
pub fn read_plan_for(alloc: Global, text: &[u8], needs: Needs) -> Result<Plan, PlanFault>
    ensures answers { spec.IsOutcome (spec.draft_at needs text.now) result
        ⊎ (result ≡ Err PlanFault.Memory) }
    ensures valid { IfOk result (λ plan. IsPlan plan) }
{
    let value = parse(alloc, text)?;
    plan_in(alloc, &value, needs)
}

fn plan_in(alloc: Global, value: &Value, needs: Needs) -> Result<Plan, PlanFault>
    ensures answers { spec.IsOutcome (spec.draft_of needs (view value.now)) result
        ⊎ (result ≡ Err PlanFault.Memory) }
    ensures valid { IfOk result (λ plan. IsPlan plan) }
{
    if !value.is_object() {
        return Err(PlanFault::NotPlan(Place::Plan));
    }
    let algorithm = algorithm_in(value, needs)?;
    let (nodes, registers) = both_names(alloc, value)?;
    setting_in(alloc, needs, algorithm, value, &nodes).map(|(sections, origin, shape)| Plan::of(
        nodes, registers, sections, origin, shape,
    ))
}

fn both_names(alloc: Global, value: &Value) -> Result<(Names, Names), PlanFault>
    ensures answers { Answers (part.both_names (view value.now)) result }
    ensures nodes { IfOk result (λ names. AreNames MAX_NODES names.0) }
    ensures registers { IfOk result (λ names. AreNames MAX_REGISTERS names.1) }
{
    let nodes = names_at(alloc, value.get("nodes"), MAX_NODES as usize, Place::Nodes)?;
    names_at(
        alloc,
        value.get("registers"),
        MAX_REGISTERS as usize,
        Place::Registers,
    )
    .map(|registers| (nodes, registers))
}

/// Returns the greatest section number, the origin and the shape of a plan, in this order.
fn setting_in(
    alloc: Global,
    needs: Needs,
    algorithm: Algorithm,
    value: &Value,
    nodes: &Names,
) -> Result<(u64, u64, Shape), PlanFault>
    requires { AreNames MAX_NODES nodes.now }
    ensures answers { part.SettingAnswers (length nodes.now)
        (part.setting_of needs algorithm nodes.now (view value.now)) result }
    ensures low { IfOk result (λ setting. 1 ≤ setting.0) }
    ensures high { IfOk result (λ setting. setting.0 ≤ MAX_SECTIONS) }
    ensures shape { IfOk result (λ setting. IsShape (length nodes.now) setting.2) }
{
    let sections = sections_in(value, needs)?;
    let origin = origin_in(value)?;
    shape_in(alloc, algorithm, value, nodes).map(|shape| (sections, origin, shape))
}

fn sections_in(value: &Value, needs: Needs) -> Result<u64, PlanFault>
    ensures value { result ≡ spec.sections_of needs (get (codes "sections") (view value.now)) }
    ensures low { IfOk result (λ n. 1 ≤ n) }
    ensures high { IfOk result (λ n. n ≤ MAX_SECTIONS) }
{
    let sections = value.get("sections");
    if sections.is_none() && matches!(needs, Needs::Names) {
        return Ok(MAX_SECTIONS);
    }
    match number_in(sections) {
        Some(n) if 1 <= n && n <= MAX_SECTIONS => Ok(n),
        _ => Err(PlanFault::NotPlan(Place::Sections)),
    }
}

fn origin_in(value: &Value) -> Result<u64, PlanFault>
    ensures { result ≡ spec.origin_of (get (codes "origin") (view value.now)) }
{
    let Some(origin) = value.get("origin") else {
        return Ok(0);
    };
    origin.as_u64().ok_or(PlanFault::NotPlan(Place::Origin))
}

fn shape_in(
    alloc: Global,
    algorithm: Algorithm,
    value: &Value,
    nodes: &Names,
) -> Result<Shape, PlanFault>
    requires { AreNames MAX_NODES nodes.now }
    ensures { spec.ShapeAnswers (length nodes.now)
        (spec.planned_of algorithm nodes.now (view value.now)) result }
{
    match algorithm {
        Algorithm::Ricart => Ok(Shape::all_others(nodes.len() as u8)),
        Algorithm::Maekawa => quorums_in(alloc, value.get("quorums"), nodes),
        Algorithm::Raymond => tree_in(alloc, value, nodes),
    }
}
