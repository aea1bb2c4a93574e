ghost use Rattle.std.specs.Prelude.{◌≡◌, ◌↔◌, IfSome, IsSome, IsTrue};
ghost use Rattle.mx_events.specs.Arguments.{is_of, node_in, number_in, register_in};
ghost use Rattle.mx_events.specs.declared.argument.Argument.TheVariants as argument;
ghost use Rattle.mx_events.specs.declared.argument.ArgumentKind.TheVariants as kind;

use mx_stamps::NodeId;

/// The kind of an event's argument. `Value`, `Section` and `Parcel` are `u64` numbers.
#[derive(Clone, Copy, Debug, PartialEq, Eq)]
pub enum ArgumentKind {
    Node,
    Register,
    Value,
    Section,
    Parcel,
}

/// An argument of an event.
#[derive(Clone, Copy, Debug, PartialEq, Eq)]
pub enum Argument {
    Node(NodeId),
    /// A register, numbered from 0.
    Register(u8),
    /// A value, or the number of a section or a parcel.
    Number(u64),
}

/// Returns the number 0, which fills the unused places of an array of arguments.
impl Default for Argument {
    ghost use Rattle.std.specs.Prelude.{◌≡◌};
    ghost use Rattle.mx_events.specs.declared.argument.Argument.TheVariants.{Number};

    ghost is_default = { λ argument. argument ≡ Number 0 };

    fn default() -> Self {
        Argument::Number(0)
    }
}

impl Argument {
    /// Returns the node, or `None` if the argument is no node.
    pub fn node(&self) -> Option<NodeId>
        ensures value { result ≡ node_in self.now }
        ensures some { IsSome result ↔ IsTrue (is_of kind.Node self.now) }
        ensures given { IfSome result (λ node. self.now ≡ argument.Node node) }
    {
        match self {
            Argument::Node(node) => Some(*node),
            _ => None,
        }
    }

    /// Returns the register, or `None` if the argument is no register.
    pub fn register(&self) -> Option<u8>
        ensures value { result ≡ register_in self.now }
        ensures some { IsSome result ↔ IsTrue (is_of kind.Register self.now) }
        ensures given { IfSome result (λ register. self.now ≡ argument.Register register) }
    {
        match self {
            Argument::Register(register) => Some(*register),
            _ => None,
        }
    }

    /// Returns the number, or `None` if the argument is a node or a register.
    pub fn number(&self) -> Option<u64>
        ensures value { result ≡ number_in self.now }
        ensures some { IsSome result ↔ IsTrue (is_of kind.Value self.now) }
        ensures given { IfSome result (λ number. self.now ≡ argument.Number number) }
    {
        match self {
            Argument::Number(number) => Some(*number),
            _ => None,
        }
    }
}
