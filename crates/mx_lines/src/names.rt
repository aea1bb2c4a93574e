ghost use Rattle.std.specs.Prelude.{◌≡◌, position};
ghost use Rattle.std.specs.Str.{bytes_eq};
ghost use Rattle.mx_lines.specs.Names.{Known};

use mx_plan::Plan;
use mx_stamps::NodeId;
use std::alloc::{AllocError, Global};

/// The names of nodes and registers, each numbered from 0.
pub trait KnownNames {
    ghost known: { Self → Known };

    /// The node of this name.
    fn node_named(&self, name: &str) -> Option<NodeId>
        ensures { result ≡ position (bytes_eq name.now) (known self.now).nodes };

    /// The number of the register of this name.
    fn register_named(&self, name: &str) -> Option<u8>
        ensures { result ≡ position (bytes_eq name.now) (known self.now).registers };

    /// The names of the nodes, in order.
    fn node_names(&self, alloc: Global) -> Result<Vec<&str>, AllocError>;

    /// The names of the registers, in order.
    fn register_names(&self, alloc: Global) -> Result<Vec<&str>, AllocError>;
}

impl KnownNames for Plan {
    ghost use Rattle.mx_lines.specs.Names.{known_of};

    ghost known = { known_of };

    fn node_named(&self, name: &str) -> Option<NodeId> {
        self.node(name)
    }

    fn register_named(&self, name: &str) -> Option<u8> {
        self.register(name)
    }

    fn node_names(&self, alloc: Global) -> Result<Vec<&str>, AllocError> {
        let mut names = Vec::new(alloc);
        for i in 0..self.nodes() {
            names.push(self.node_name(i).unwrap_or(""))?;
        }
        Ok(names)
    }

    fn register_names(&self, alloc: Global) -> Result<Vec<&str>, AllocError> {
        let mut names = Vec::new(alloc);
        for i in 0..self.registers() {
            names.push(self.register_name(i).unwrap_or(""))?;
        }
        Ok(names)
    }
}
