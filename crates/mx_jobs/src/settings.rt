//! The stations of a new cluster.

ghost use Rattle.std.specs.Prelude.{◌≡◌, ◌<◌, ◌≤◌, IfOk};
ghost use Rattle.mx_stamps.specs.declared.limits.TheConstants.{MAX_REGISTERS, MAX_SECTIONS};
ghost use Rattle.mx_member.specs.Steps.{start_of};
ghost use Rattle.mx_stations.specs.Opened.{AreFresh};
ghost use Rattle.mx_jobs.specs.Runs.{AreNew, registers_at};

use mx_nodelaws::Exclusion;
use mx_stations::{Field, Station};
use std::alloc::{AllocError, Global};

/// The settings of a new cluster: the number from which requests count, the greatest section
/// number, and the number of registers.
#[derive(Clone, Copy, Debug, PartialEq, Eq)]
pub struct Settings {
    pub origin: u64,
    pub sections: u64,
    pub registers: u8,
}

/// Creates the stations of a new cluster of this shape, one for each node, in order.
pub fn stations<C: Exclusion>(
    alloc: Global,
    shape: &C::Shape,
    settings: &Settings,
) -> Result<Vec<Station<C>>, AllocError>
    requires low { 0 < settings.now.sections }
    requires high { settings.now.sections ≤ MAX_SECTIONS }
    requires some { 0 < settings.now.registers }
    requires few { settings.now.registers ≤ MAX_REGISTERS }
    ensures new { IfOk result (λ all. AreNew C.core all.items) }
    ensures registers { IfOk result (λ all. registers_at all.items ≡ settings.now.registers) }
    ensures fresh { IfOk result (λ all. AreFresh (C.core.count shape.now)
        (λ i. start_of C.core shape.now i settings.now.origin settings.now.sections
        settings.now.registers) all.items) }
{
    // for the prover: this call shows that there is a node
    let _nodes = C::nodes(shape);
    Field::<C>::stations(
        alloc,
        shape,
        settings.origin,
        settings.sections,
        settings.registers,
    )
}
