//! Whether a session stands still, and which nodes wait then.

ghost use Rattle.std.specs.Prelude.{◌≡◌, IfOk, length};
ghost use Rattle.mx_scripts.specs.Standstill.{has_under_way, stuck_in};

use crate::in_flight::Wanted;
use crate::state::State;
use mx_driver::stuck_nodes;
use mx_format::Waiter;
use mx_knowledge::Knowledge;
use mx_lines::Scope;
use mx_nodelaws::Exclusion;
use mx_plan::Plan;
use std::alloc::{AllocError, Global};

impl<C: Exclusion + Knowledge> State<C> {
    /// Returns the nodes that wait in a session that stands still, in the order of nodes; none, if
    /// it does not stand still. A lost parcel is not under way; one behind a cut link is.
    ///
    /// # Errors
    ///
    /// Returns `AllocError` if memory runs out.
    pub fn stuck(&self, alloc: Global, plan: &Plan) -> Result<Vec<Waiter>, AllocError>
        requires { length self.now.cluster.members ≡ length plan.now.nodes }
        ensures { IfOk result (λ waiters. waiters.items ≡ stuck_in C.core C.knows self.now) }
    {
        if self.has_under_way() {
            return Ok(Vec::new(alloc));
        }
        stuck_nodes(alloc, plan, self.cluster().members())
    }
}

impl<C: Exclusion> State<C> {
    fn has_under_way(&self) -> bool
        ensures { result ≡ has_under_way self.now }
    {
        self.oldest(&Scope::All, Wanted::Waiting).is_some()
    }
}
