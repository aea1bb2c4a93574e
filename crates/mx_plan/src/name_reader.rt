ghost use Rattle.std.specs.Prelude.{◌≡◌, ◌<◌, ◌≤◌, IfOk, map, option_map, length};
ghost use Rattle.std.specs.List.{list_all};
ghost use Rattle.serde_json.specs.View.{view};
ghost use Rattle.mx_plan.specs.Text.{AreNames};
ghost use Rattle.mx_plan.specs.Values.{Answers, Gives, each, text_of};
ghost use Rattle.mx_plan.specs.NameLists as spec;

use crate::faults::PlanFault;
use crate::names::{Names, is_name};
use crate::place::Place;
use crate::values::{array_in, elements, text_in};
use mx_stamps::MAX_NODES;
use serde_json::Value;
use std::alloc::Global;

/// Reads the names that the value of a key lists: 1 to `most`, all different. A fault has this
/// `place`.
///
/// # Errors
///
/// Returns `NotPlan` if the value is missing or no such list, `DoubleName` if a name occurs twice,
/// and `Memory` if memory runs out.
pub fn names_at(
    alloc: Global,
    value: Option<&Value>,
    most: usize,
    place: Place,
) -> Result<Names, PlanFault>
    ensures answers { Answers
        (spec.names_of most place (option_map (λ v. view v.now) value.entry)) result }
    ensures valid { IfOk result (λ names. AreNames most names) }
{
    match array_in(value) {
        Some(values) if are_names(values, most) => distinct_names(alloc, values, place),
        _ => Err(PlanFault::NotPlan(place)),
    }
}

fn are_names(values: &[Value], most: usize) -> bool
    ensures { result ≡ spec.are_names most (map view values.now) }
{
    let len = values.len();
    1 <= len && len <= most && all_names(values)
}

fn all_names(values: &[Value]) -> bool
    ensures { result ≡ list_all spec.is_name_value (map view values.now) }
{
    for value in values {
        if !is_name_value(value) {
            return false;
        }
    }
    true
}

fn distinct_names(alloc: Global, values: &[Value], place: Place) -> Result<Names, PlanFault>
    ensures { Answers (spec.distinct_names place (map text_of (map view values.now))) result }
{
    let mut names = Names::new(alloc);
    for value in values {
        if !names.add(alloc, text_in(value))? {
            return Err(PlanFault::DoubleName(place));
        }
    }
    Ok(names)
}

/// Returns whether a value is a string that is a name.
#[tactic(auto, unfolding(crate::specs::NameLists::is_name_value))]
pub fn is_name_value(value: &Value) -> bool
    ensures { result ≡ spec.is_name_value (view value.now) }
{
    match value.as_str() {
        Some(text) => is_name(text),
        None => false,
    }
}

/// Returns whether a value is an array of names.
#[tactic(auto, unfolding(crate::specs::NameLists::is_name_list))]
pub fn is_name_list(value: &Value) -> bool
    ensures { result ≡ spec.is_name_list (view value.now) }
{
    match elements(value) {
        Some(values) => all_names(values),
        None => false,
    }
}

/// Returns the number of the node that a value names.
///
/// # Errors
///
/// Returns `UnknownName` with `place` if no node has this name.
pub fn number_of_name(value: &Value, nodes: &Names, place: Place) -> Result<u8, PlanFault>
    requires { length nodes.now ≤ MAX_NODES }
    ensures value { result ≡ spec.number_in place nodes.now (view value.now) }
    ensures within { IfOk result (λ n. n < length nodes.now) }
{
    match nodes.index_of(text_in(value)) {
        Some(index) => Ok(index as u8),
        None => Err(PlanFault::UnknownName(place)),
    }
}

/// Returns the numbers of the nodes that the values name, in order.
///
/// # Errors
///
/// Returns `UnknownName` with `place` if a name is that of no node, and `Memory` if memory runs
/// out.
pub fn numbers_of_names(
    alloc: Global,
    values: &[Value],
    nodes: &Names,
    place: Place,
) -> Result<Vec<u8>, PlanFault>
    requires { length nodes.now ≤ MAX_NODES }
    ensures { Gives (each (spec.number_in place nodes.now) (map view values.now)) result }
{
    let mut numbers = Vec::new(alloc);
    for value in values {
        let number = number_of_name(value, nodes, place)?;
        numbers.push(number)?;
    }
    Ok(numbers)
}
