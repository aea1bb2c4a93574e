//! The driver: applies the events of a plan in order, and lets a sink print each, or only see it.

ghost use Rattle.std.specs.Prelude.{◌≡◌, ℕ, [], length, string_bytes, OnOk, IfErr, true, false};
ghost use Rattle.mx_network.specs.Step.{step_of};
ghost use Rattle.mx_cli.specs.Printing.{IsReport, Prints, null_output, sight};
ghost use Rattle.mx_driver.specs.Jobs.{run_by};
ghost use Rattle.mx_events.specs.Arguments.{AreEventsWithin, IsWithin};
ghost use Rattle.mx_driver.specs.Runs.{StopsAt, report_from};
ghost use Rattle.mx_driver.specs.Sinks.{IsTold, IsToldBy, report_by};

use crate::by_shape;
use crate::sink::Sink;
use mx_cli::{Fault, Stop};
use mx_io::{Output, OutputFault};
use mx_maekawa::Maekawa;
use mx_network::{Cluster, Event, StepFault};
use mx_nodelaws::Exclusion;
use mx_plan::Plan;
use mx_raymond::Raymond;
use mx_ricart::Ricart;
use std::alloc::Global;

/// Applies events in order to the cluster of a plan. Prints what the sink appends for each event,
/// and at the end, each in one write. Returns the status that the sink returns at the end.
///
/// # Errors
///
/// Returns `Fault` with the first event that delivers a parcel that was not sent, `Writer` if the
/// output refuses, and `Memory` if memory runs out.
pub fn drive<K, O: Output>(
    alloc: Global,
    plan: &Plan,
    events: &[Event],
    sink: &mut K,
    out: &mut O,
) -> Result<u8, Stop>
where
    K: Sink<Cluster<Ricart>> + Sink<Cluster<Maekawa>> + Sink<Cluster<Raymond>>,
    requires { AreEventsWithin (length plan.now.nodes) (length plan.now.registers) events.now }
    ensures prints { Prints (IsReport (report_by (record {
      ricart = ⟦<K as Sink<Cluster<Ricart>>>⟧.texts sink.old plan.now;
      maekawa = ⟦<K as Sink<Cluster<Maekawa>>>⟧.texts sink.old plan.now;
      raymond = ⟦<K as Sink<Cluster<Raymond>>>⟧.texts sink.old plan.now;
    }) plan.now plan.now.shape events.now))
        (sight O.Output out.old) (sight O.Output out.new) result }
    ensures told { OnOk result (IsToldBy (record {
      ricart = ⟦<K as Sink<Cluster<Ricart>>>⟧.tells plan.now;
      maekawa = ⟦<K as Sink<Cluster<Maekawa>>>⟧.tells plan.now;
      raymond = ⟦<K as Sink<Cluster<Raymond>>>⟧.tells plan.now;
    }) plan.now plan.now.shape events.now sink.old sink.new) }
{
    by_shape!(
        alloc,
        plan,
        |cluster| drive_events(alloc, plan, cluster, events, sink, out)
    )
}

fn drive_events<C: Exclusion, K: Sink<Cluster<C>>, O: Output>(
    alloc: Global,
    plan: &Plan,
    mut cluster: Cluster<C>,
    events: &[Event],
    sink: &mut K,
    out: &mut O,
) -> Result<u8, Stop>
    requires members { length cluster.members ≡ length plan.now.nodes }
    requires named { AreEventsWithin (length plan.now.nodes) (length plan.now.registers) events.now }
    ensures prints { Prints (IsReport
        (report_from C.core (K.texts sink.old plan.now) 0 cluster events.now))
        (sight O.Output out.old) (sight O.Output out.new) result }
    ensures told { OnOk result (IsTold C.core (K.tells plan.now)
        0 cluster events.now sink.old sink.new) }
{
    let mut text = String::new(alloc);
    for (index, event) in events.iter().enumerate() {
        text.clear();
        drive_event(
            alloc,
            plan,
            index as u64,
            event,
            &mut cluster,
            sink,
            &mut text,
        )?;
        out.put(text.as_bytes())?;
    }
    text.clear();
    let status = sink.end(alloc, plan, &cluster, &mut text)?;
    out.put(text.as_bytes())?;
    Ok(status)
}

fn drive_event<C: Exclusion, K: Sink<Cluster<C>>>(
    alloc: Global,
    plan: &Plan,
    index: u64,
    event: &Event,
    cluster: &mut Cluster<C>,
    sink: &mut K,
    text: &mut String,
) -> Result<(), Stop>
    requires named { IsWithin (length cluster.old.members) (length plan.now.registers) event.now }
    requires empty { string_bytes text.old ≡ [] }
    ensures ok { OnOk result (step_of C.core cluster.old event.now ≡ Ok cluster.new) }
    ensures text { OnOk result (string_bytes text.new
        ≡ (K.texts sink.old plan.now).event index cluster.old cluster.new) }
    ensures err { IfErr result (StopsAt index (step_of C.core cluster.old event.now)) }
    ensures stays { OnOk result (K.texts sink.new ≡ K.texts sink.old) }
    ensures heard { OnOk result
        ((K.tells plan.now).heard sink.old index cluster.old cluster.new sink.new) }
{
    let before = cluster.sent();
    apply(index, event, cluster)?;
    sink.event(alloc, plan, index, before, cluster, text)?;
    Ok(())
}

/// Applies the event of this index.
fn apply<C: Exclusion>(index: u64, event: &Event, cluster: &mut Cluster<C>) -> Result<(), Stop>
    requires named { (registers : ℕ) × IsWithin (length cluster.old.members) registers event.now }
    ensures ok { OnOk result (step_of C.core cluster.old event.now ≡ Ok cluster.new) }
    ensures err { IfErr result (StopsAt index (step_of C.core cluster.old event.now)) }
{
    match cluster.advance(*event) {
        Ok(()) => Ok(()),
        Err(StepFault::NoParcel) => Err(Stop::Fault(Fault::NoParcel(index))),
        Err(StepFault::Memory) => Err(Stop::Memory),
        Err(StepFault::NoNode) => unreachable!(),
    }
}

/// An output that takes all texts, and keeps nothing.
#[derive(Drop)]
pub struct NullOutput;

impl Output for NullOutput {
    ghost takes_all = { λ _. true };

    ghost has_refused = { λ _. false };

    ghost keeps_back = { λ _. false };

    fn put(&mut self, _text: &[u8]) -> Result<(), OutputFault> {
        Ok(())
    }

    fn flush(&mut self) -> Result<(), OutputFault> {
        Ok(())
    }
}

/// Applies events in order to the cluster of a plan. The sink is told of each event, and of the end
/// of a run without fault. The text that the sink appends is dropped. Returns the status that the
/// sink returns at the end.
///
/// # Errors
///
/// Returns `Fault` with the first event that delivers a parcel that was not sent, and `Memory` if
/// memory runs out.
pub fn observe<K>(alloc: Global, plan: &Plan, events: &[Event], sink: &mut K) -> Result<u8, Stop>
where
    K: Sink<Cluster<Ricart>> + Sink<Cluster<Maekawa>> + Sink<Cluster<Raymond>>,
    requires { AreEventsWithin (length plan.now.nodes) (length plan.now.registers) events.now }
    ensures prints { Prints (IsReport (run_by plan.now plan.now.shape events.now))
        null_output null_output result }
    ensures told { OnOk result (IsToldBy (record {
      ricart = ⟦<K as Sink<Cluster<Ricart>>>⟧.tells plan.now;
      maekawa = ⟦<K as Sink<Cluster<Maekawa>>>⟧.tells plan.now;
      raymond = ⟦<K as Sink<Cluster<Raymond>>>⟧.tells plan.now;
    }) plan.now plan.now.shape events.now sink.old sink.new) }
{
    drive(alloc, plan, events, sink, &mut NullOutput)
}
