//! A random run of a number of steps.

ghost use Rattle.std.specs.Prelude.{◌≡◌, ◌<◌, ◌≤◌, length, OnOk};
ghost use Rattle.mx_event_files.specs.Played.{StaysPlayed};
ghost use Rattle.mx_draw.specs.Walk.{at_first, state_of};
ghost use Rattle.mx_draw.specs.Reads.{AddsNoVainRead};
ghost use Rattle.mx_draw.specs.Runs.{after_placed, after_run, next_of, ran};

use crate::stepper::Stepper;
use mx_cli::{Conditions, RandomRun};
use mx_network::{Cluster, Event, StepFault};
use mx_nodelaws::Exclusion;
use mx_plan::Plan;
use mx_stamps::MAX_NODES;
use std::alloc::{AllocError, Global};

/// Does a run in a cluster of the plan. A step may have no event.
pub fn run<C: Exclusion>(
    alloc: Global,
    plan: &Plan,
    cluster: &mut Cluster<C>,
    drawn: &RandomRun,
) -> Result<(), AllocError>
    ensures ran { OnOk result (after_run C.core plan.now drawn.now cluster.old ≡ cluster.new) }
    ensures plays { OnOk result (StaysPlayed C.core (length plan.now.nodes) (length plan.now.registers)
        cluster.old cluster.new) }
    // a walk adds no read that is refused for a gap to a trace without one
    ensures reads { OnOk result
        (AddsNoVainRead drawn.now.conditions cluster.old.trace cluster.new.trace) }
{
    run_over(alloc, plan.nodes(), plan.registers(), cluster, drawn)
}

fn run_over<C: Exclusion>(
    alloc: Global,
    nodes: u8,
    registers: u8,
    cluster: &mut Cluster<C>,
    drawn: &RandomRun,
) -> Result<(), AllocError>
    requires nodes { (0 < nodes) × (nodes ≤ MAX_NODES) }
    requires registers { 0 < registers }
    ensures { OnOk result (ran C.core drawn.now.conditions nodes registers drawn.now.steps
        (at_first drawn.now.seed) cluster.old ≡ cluster.new) }
{
    let mut stepper = Stepper::of(alloc, drawn.seed);
    for _ in 0..drawn.steps {
        step(nodes, registers, cluster, &drawn.conditions, &mut stepper)?;
    }
    Ok(())
}

fn step<C: Exclusion>(
    nodes: u8,
    registers: u8,
    cluster: &mut Cluster<C>,
    conditions: &Option<Conditions>,
    stepper: &mut Stepper,
) -> Result<(), AllocError>
    requires nodes { (0 < nodes) × (nodes ≤ MAX_NODES) }
    requires registers { 0 < registers }
    ensures cluster { OnOk result (after_placed C.core cluster.old (next_of C.core conditions.now
        cluster.old nodes registers (state_of stepper.old)).event ≡ cluster.new) }
    ensures stepper { OnOk result (state_of stepper.new ≡ (next_of C.core conditions.now
        cluster.old nodes registers (state_of stepper.old)).after) }
{
    let event = stepper.next(conditions, nodes, registers, cluster)?;
    play(cluster, event)
}

/// Applies the event, if there is one. A delivery of an unsent parcel, or an event of a node that
/// the cluster lacks, is passed over.
fn play<C: Exclusion>(cluster: &mut Cluster<C>, event: Option<Event>) -> Result<(), AllocError>
    ensures { OnOk result (after_placed C.core cluster.old event ≡ cluster.new) }
{
    let Some(event) = event else {
        return Ok(());
    };
    match cluster.advance(event) {
        Err(StepFault::Memory) => Err(AllocError),
        Ok(_) | Err(StepFault::NoNode | StepFault::NoParcel) => Ok(()),
    }
}
