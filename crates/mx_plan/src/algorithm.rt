ghost use Rattle.std.specs.Prelude.{◌≡◌, codes};
ghost use Rattle.serde_json.specs.Find.{get};
ghost use Rattle.serde_json.specs.View.{view};
ghost use Rattle.mx_plan.specs.Plans as spec;

use crate::faults::PlanFault;
use crate::needs::Needs;
use crate::place::Place;
use serde_json::Value;

/// The algorithm by which nodes exclude one another.
#[derive(Clone, Copy)]
pub enum Algorithm {
    /// Ricart and Agrawala's algorithm (1981).
    Ricart,
    /// Maekawa's algorithm (1985).
    Maekawa,
    /// Raymond's algorithm (1989).
    Raymond,
}

fn named(word: &str) -> Result<Algorithm, PlanFault>
    ensures { result ≡ spec.algorithm_named word.now }
{
    match word {
        "ricart" => Ok(Algorithm::Ricart),
        "maekawa" => Ok(Algorithm::Maekawa),
        "raymond" => Ok(Algorithm::Raymond),
        _ => Err(PlanFault::NotPlan(Place::Algorithm)),
    }
}

/// Returns the algorithm that a plan names.
///
/// # Errors
///
/// Returns `NotPlan` if the key `algorithm` is missing and needed, or its value names no algorithm.
pub fn algorithm_in(plan: &Value, needs: Needs) -> Result<Algorithm, PlanFault>
    ensures { result ≡ spec.algorithm_of needs (get (codes "algorithm") (view plan.now)) }
{
    let algorithm = plan.get("algorithm");
    if algorithm.is_none() && matches!(needs, Needs::Names) {
        return Ok(Algorithm::Ricart);
    }
    match algorithm.and_then(Value::as_str) {
        Some(word) => named(word),
        None => Err(PlanFault::NotPlan(Place::Algorithm)),
    }
}
