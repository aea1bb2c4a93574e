//! What is shown of a run, and what that has in common with the plain replay.

ghost use Rattle.std.specs.Prelude.{◌≡◌, false, nat_eq};
ghost use Rattle.std.specs.List.{concat};
ghost use Rattle.std.specs.Option.{option_map_or};
ghost use Rattle.mx_cli.specs.Printing.{has_status};
ghost use Rattle.mx_driver.specs.Jobs.{run_by};
ghost use Rattle.mx_driver.specs.Shown.{ShowsRunBy, addressee_of, owner_of, shows, shows_event, shows_parcel, view_by};
ghost use Rattle.mx_driver.specs.declared.view.View.{View};

use mx_member::SentParcel;
use mx_network::{Cluster, Event};
use mx_nodelaws::Exclusion;
use mx_plan::Plan;
use mx_stamps::NodeId;

/// What is shown of a run.
#[derive(Clone, Copy)]
pub struct View {
    /// The only node that is shown, or `None` for all nodes.
    pub node: Option<NodeId>,
    /// Whether only the closing lines are shown: those of nodes, and the verdict.
    pub is_quiet: bool,
    /// Whether JSON is printed, in place of lines.
    pub is_json: bool,
    /// Whether the lines of its node follow each event, what a node knows is shown below each line
    /// of a node, and a run that stands still has a line. The JSON of a node always has what it
    /// knows.
    pub has_state: bool,
}

impl View {
    /// The lines of all nodes, without what they know.
    pub const LINES: View = View {
        node: None,
        is_quiet: false,
        is_json: false,
        has_state: false,
    };

    /// Whether this node is shown.
    pub fn shows_node(&self, node: NodeId) -> bool
        ensures { result ≡ shows self.now.node node }
    {
        match self.node {
            Some(wanted) => wanted.get() == node.get(),
            None => true,
        }
    }

    /// Whether the sender or the addressee of a parcel is shown.
    pub fn shows_parcel<M>(&self, sent: &SentParcel<'_, M>) -> bool
        ensures { result ≡ shows_parcel self.now.node
            (sent.now.from, sent.now.to, sent.now.parcel.now) }
    {
        self.shows_node(sent.from) || self.shows_node(sent.to)
    }

    pub(crate) fn shows_event<C: Exclusion>(&self, cluster: &Cluster<C>, event: &Event) -> bool
        ensures { result ≡ shows_event self.now.node cluster.now.sent event.now }
    {
        match self.node {
            Some(wanted) => is_owner(wanted, cluster, event),
            None => true,
        }
    }
}

fn is_owner<C: Exclusion>(node: NodeId, cluster: &Cluster<C>, event: &Event) -> bool
    ensures { result ≡ option_map_or (nat_eq node) (owner_of cluster.now.sent event.now) false }
{
    match owner_of(cluster, event) {
        Some(owner) => node.get() == owner.get(),
        None => false,
    }
}

/// Returns the node of an event; of a delivery, the addressee of the parcel.
pub(crate) fn owner_of<C: Exclusion>(cluster: &Cluster<C>, event: &Event) -> Option<NodeId>
    ensures { result ≡ owner_of cluster.now.sent event.now }
{
    match event {
        Event::Deliver(number) => addressee_of(cluster, *number),
        _ => event.node(),
    }
}

fn addressee_of<C: Exclusion>(cluster: &Cluster<C>, number: u64) -> Option<NodeId>
    ensures { result ≡ addressee_of cluster.now.sent number }
{
    match cluster.sent_parcel(number) {
        Some(sent) => Some(sent.to),
        None => None,
    }
}

/// Proves that a view of a run ends as the plain replay does: well, or with the same fault. The
/// body does nothing.
pub fn ends_as_replay(plan: &Plan, events: &[Event])
    ensures { (view : View) → (view_by plan.now view plan.now.shape events.now).end
        ≡ (run_by plan.now plan.now.shape events.now).end }
{}

/// Proves that a view of a run without a fault has the lines of the events in order, unless it is
/// quiet, and then the closing lines of the cluster to which they lead. The body does nothing.
pub fn shows_run(plan: &Plan, events: &[Event])
    ensures { (view : View) → (view_by plan.now view plan.now.shape events.now).end ≡ has_status 0
        → ShowsRunBy plan.now view events.now
        (concat (view_by plan.now view plan.now.shape events.now).texts) plan.now.shape }
{}
