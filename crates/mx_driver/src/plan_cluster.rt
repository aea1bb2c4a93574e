//! The cluster of a plan, at rest, whatever its algorithm.

ghost use Rattle.std.specs.Prelude.{◌≡◌, IfOk};
ghost use Rattle.mx_driver.specs.Runs.{at_rest};

use mx_network::Cluster;
use mx_nodelaws::Exclusion;
use mx_plan::Plan;
use std::alloc::{AllocError, Global};

/// Creates the cluster of a plan, at rest. `shape` is that of the plan, for the algorithm `C`.
pub fn start<C: Exclusion>(
    alloc: Global,
    plan: &Plan,
    shape: &C::Shape,
) -> Result<Cluster<C>, AllocError>
    ensures { IfOk result (λ cluster. cluster ≡ at_rest C.core plan.now shape.now) }
{
    Cluster::start(
        alloc,
        shape,
        plan.origin(),
        plan.sections(),
        plan.registers(),
    )
}

/// Starts the cluster of a plan, by the plan's algorithm, and evaluates an expression on it, as in
/// `by_shape!(alloc, plan, |cluster| run(alloc, plan, cluster, events, out))`. The expression is
/// written out for each algorithm, and can call functions that are generic over the algorithm. If
/// memory runs out, the calling function returns the error.
#[macro_export]
macro_rules! by_shape {
    ($alloc:expr, $plan:expr, |$cluster:ident| $done:expr) => {
        match $plan.shape() {
            mx_plan::Shape::Ricart(count) => {
                let $cluster = $crate::start::<mx_ricart::Ricart>($alloc, $plan, count)?;
                $done
            }
            mx_plan::Shape::Maekawa(sets) => {
                let $cluster = $crate::start::<mx_maekawa::Maekawa>($alloc, $plan, sets)?;
                $done
            }
            mx_plan::Shape::Raymond(tree) => {
                let $cluster = $crate::start::<mx_raymond::Raymond>($alloc, $plan, tree)?;
                $done
            }
        }
    };
}
