//! Steps of reading a JSON value.

ghost use Rattle.std.specs.Prelude.{◌≡◌, ◌⊎◌, Some, None, IfOk, IfErr, map, option_map};
ghost use Rattle.serde_json.specs.View.{view};
ghost use Rattle.mx_plan.specs.Values as spec;

use crate::faults::PlanFault;
use serde_json::Value;
use std::alloc::Global;

/// Parses a JSON text.
///
/// # Errors
///
/// Returns `NotJson` if the text is not valid JSON in UTF-8, and `Memory` if memory runs out.
#[tactic(auto, unfolding(crate::specs::Values::value_of))]
pub fn parse(alloc: Global, text: &[u8]) -> Result<Value, PlanFault>
    ensures ok { IfOk result (λ v. spec.value_of text.now ≡ Some (view v)) }
    ensures err { IfErr result (λ e. (e ≡ PlanFault.Memory)
        ⊎ ((e ≡ PlanFault.NotJson) × (spec.value_of text.now ≡ None))) }
{
    match Value::from_slice(alloc, text) {
        Ok(value) => Ok(value),
        Err(e) if e.is_memory() => Err(PlanFault::Memory),
        Err(_) => Err(PlanFault::NotJson),
    }
}

/// Returns the elements of an array, or `None` for any other value.
pub fn elements(value: &Value) -> Option<&[Value]>
    ensures { option_map (λ vs. map view vs.now) result ≡ spec.elements (view value.now) }
{
    match value.as_array() {
        Some(list) => Some(list.as_slice()),
        None => None,
    }
}

/// Returns the elements of a key's value. Returns `None` if the key is missing, or its value is no
/// array.
pub fn array_in<'a>(value: Option<&'a Value>) -> Option<&'a [Value]>
    ensures { option_map (λ vs. map view vs.now) result
        ≡ spec.array_of (option_map (λ v. view v.now) value.entry) }
{
    match value {
        Some(value) => elements(value),
        None => None,
    }
}

/// Returns the elements of an array, or an empty slice for any other value.
pub fn list_in(value: &Value) -> &[Value]
    ensures { map view result.now ≡ spec.list_in (view value.now) }
{
    match elements(value) {
        Some(list) => list,
        None => &[],
    }
}

/// Returns the text of a string, or an empty text for any other value.
pub fn text_in(value: &Value) -> &str
    ensures { result.now ≡ spec.text_of (view value.now) }
{
    value.as_str().unwrap_or("")
}

/// Returns a key's value as a number. Returns `None` if the key is missing, or its value is no
/// `u64`.
pub fn number_in(value: Option<&Value>) -> Option<u64>
    ensures { result ≡ spec.number_of (option_map (λ v. view v.now) value.entry) }
{
    value.and_then(Value::as_u64)
}
