//! The interface of what prints the events of a run.

ghost use Rattle.std.specs.Prelude.{◌≡◌, ◌<◌, ◌≤◌, List, [], ◌∷◌, ◌++◌, length, string_bytes, IfOk, OnOk};
ghost use Rattle.mx_network.specs.Step.{ClusterState};
ghost use Rattle.mx_trace.specs.declared.outcome.Entry.{Entry};
ghost use Rattle.mx_plan.specs.Fields.{Fields};
ghost use Rattle.mx_driver.specs.Runs.{Texts};
ghost use Rattle.mx_driver.specs.Sinks.{SinkTells, anything};

use mx_network::{Cluster, Entry};
use mx_nodelaws::Exclusion;
use mx_plan::Plan;
use std::alloc::{AllocError, Global};

/// A cluster as the contracts of `Sink` see it: the algorithm of its nodes, and its state.
pub trait Running {
    /// The algorithm of its nodes.
    type Core: Exclusion;

    ghost state: { Self → ClusterState Self.Core Self.Core.Msg };
}

impl<C: Exclusion> Running for Cluster<C> {
    type Core = C;

    ghost state = { λ cluster. cluster };
}

/// A sink is told of each event of a run of a cluster `R`, and of the end. It appends what is to be
/// printed of them.
pub trait Sink<R: Running> {
    // what the sink prints of a run of a plan; this does not change during the run
    ghost texts: { Self → Fields → Texts R.Core R.Core.Msg };

    // what the sink becomes by the events of a run of a plan, and at the end
    ghost tells: { Fields → SinkTells Self R.Core R.Core.Msg } = { λ _. anything };

    /// Appends the text of the newest event of a run. The event has this index, and sent the
    /// parcels from the number `before` on.
    ///
    /// # Errors
    ///
    /// Returns `AllocError` if memory runs out.
    fn event(
        &mut self,
        alloc: Global,
        plan: &Plan,
        index: u64,
        before: u64,
        cluster: &R,
        text: &mut String,
    ) -> Result<(), AllocError>
        requires noted { 0 < length (R.state cluster.now).trace }
        requires sent { before ≤ length (R.state cluster.now).sent }
        ensures text { (old : ClusterState R.Core R.Core.Msg) (entry : Entry)
            → (R.state cluster.now).trace ≡ old.trace ++ entry ∷ [] → before ≡ length old.sent
            → OnOk result (string_bytes text.new ≡ string_bytes text.old
            ++ (texts self.old plan.now).event index old (R.state cluster.now)) }
        ensures stays { texts self.new ≡ texts self.old }
        ensures heard { (old : ClusterState R.Core R.Core.Msg) (entry : Entry)
            → (R.state cluster.now).trace ≡ old.trace ++ entry ∷ [] → before ≡ length old.sent
            → OnOk result ((tells plan.now).heard self.old index old (R.state cluster.now)
            self.new) };

    /// Appends the closing text of a run, and returns the status.
    ///
    /// # Errors
    ///
    /// Returns `AllocError` if memory runs out.
    fn end(
        &mut self,
        alloc: Global,
        plan: &Plan,
        cluster: &R,
        text: &mut String,
    ) -> Result<u8, AllocError>
        requires members { length (R.state cluster.now).members ≡ length plan.now.nodes }
        ensures text { OnOk result (string_bytes text.new ≡ string_bytes text.old
            ++ (texts self.old plan.now).closing (R.state cluster.now)) }
        ensures zero { IfOk result (λ status. status ≡ 0) }
        ensures closed { OnOk result ((tells plan.now).closed self.old (R.state cluster.now) self.new) };
}

/// Returns the newest item of a trace that has one.
pub fn newest(trace: &[Entry]) -> &Entry
    requires { 0 < length trace.now }
    ensures { (front : List Entry) (entry : Entry) → trace.now ≡ front ++ entry ∷ []
        → result.now ≡ entry }
{
    &trace[trace.len() - 1]
}
