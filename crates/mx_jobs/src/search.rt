//! Which node a worker asks for the records that its section lacks.

ghost use Rattle.std.specs.Prelude.{◌<◌, IfSome};

use mx_nodelaws::Exclusion;
use mx_stamps::NodeId;
use mx_stations::Station;

/// The search for missing records.
///
/// The node that had the last missing record of one section often has that of the next: if all
/// nodes ask again and again, they enter in the same order. So a search begins with the node that
/// was asked last, and goes on in cyclic order. A node whose reply brought records is asked again,
/// since a reply has room for four records only.
#[derive(Drop)]
pub(crate) struct Search {
    /// The node that was asked last.
    asked: NodeId,
    /// The number of the section for which it was asked.
    section: u64,
    /// The number up to which the journal then lacked no record.
    gapless: u64,
}

impl Search {
    pub(crate) fn new(node: NodeId) -> Search {
        Search {
            asked: node,
            section: 0,
            gapless: 0,
        }
    }

    /// Returns the node to be asked next, or `None` if the last want is still on its way.
    pub(crate) fn next<C: Exclusion>(&mut self, station: &Station<C>) -> Option<NodeId>
        ensures { IfSome result (λ to. to < station.now.nodes) }
    {
        let section = station.mine();
        let gapless = station.journal().gapless_to();
        let goes_on = section == self.section && gapless == self.gapless;
        let last = within(self.asked, station);
        if goes_on && station.has_put(last) {
            return None;
        }
        let to = next_of(last, goes_on, station);
        self.asked = to;
        self.section = section;
        self.gapless = gapless;
        Some(to)
    }
}

/// Returns the node after the last one if the search goes on, and else the last one.
fn next_of<C: Exclusion>(last: NodeId, goes_on: bool, station: &Station<C>) -> NodeId
    requires { last < station.now.nodes }
    ensures { result < station.now.nodes }
{
    if goes_on {
        return node_after(last, station);
    }
    last
}

fn within<C: Exclusion>(node: NodeId, station: &Station<C>) -> NodeId
    ensures { result < station.now.nodes }
{
    if node.get() < station.nodes() {
        return node;
    }
    station.node()
}

/// Returns the next node in cyclic order that is not the station's own.
fn node_after<C: Exclusion>(node: NodeId, station: &Station<C>) -> NodeId
    ensures { result < station.now.nodes }
{
    let next = successor(node, station);
    if next.get() == station.node().get() {
        return successor(next, station);
    }
    next
}

fn successor<C: Exclusion>(node: NodeId, station: &Station<C>) -> NodeId
    ensures { result < station.now.nodes }
{
    let own = station.node();
    match NodeId::of((node.get() + 1) % station.nodes()) {
        Some(next) => next,
        None => own,
    }
}
