ghost use Rattle.std.specs.Prelude.{◌≡◌, IfOk, List};
ghost use Rattle.mx_knowledge.specs.Facts.{Known};

use crate::fact::Facts;
use std::alloc::{AllocError, Global};

/// A node that lists what it knows by its algorithm.
pub trait Knowledge {
    // the facts that it knows, in the order in which they are shown
    ghost knows: { Self → List Known };

    /// Returns the facts that the node knows, in the order in which they are shown.
    ///
    /// # Errors
    ///
    /// Returns `AllocError` if memory runs out.
    fn facts(&self, alloc: Global) -> Result<Facts, AllocError>
        ensures { IfOk result (λ facts. facts ≡ knows self.now) };
}
