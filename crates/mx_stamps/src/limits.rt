//! The limits of a cluster, each defined once.

/// The greatest number of nodes in a cluster.
pub const MAX_NODES: u8 = 21;

/// The greatest number of registers that a cluster guards, and the number of registers in a
/// journal's base.
pub const MAX_REGISTERS: u8 = 32;

/// The greatest section number that a cluster may allow.
pub const MAX_SECTIONS: u64 = 1_000_000;

/// The greatest number of events in a file, or in a run that a command draws at random.
pub const MAX_EVENTS: usize = 1_000_000;
