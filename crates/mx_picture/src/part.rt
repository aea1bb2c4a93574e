ghost use Rattle.std.specs.Prelude.{◌≡◌};
ghost use Rattle.mx_events.specs.Events.{node_of};
ghost use Rattle.mx_picture.specs.Marks.{is_shown, shows_event, shows_index, shows_node};

use crate::sent::Sent;
use mx_events::Event;
use mx_stamps::NodeId;

/// The events from the index `from` to `to`, which is included, of all nodes or of one. Only
/// letters and phases are shown if `only_letters`.
#[derive(Clone, Copy)]
pub(crate) struct ShownPart {
    pub(crate) from: u64,
    pub(crate) to: u64,
    pub(crate) node: Option<NodeId>,
    pub(crate) only_letters: bool,
}

impl ShownPart {
    pub(crate) fn has_index(&self, index: u64) -> bool
        ensures { result ≡ shows_index self.now index }
    {
        self.from <= index && index <= self.to
    }

    fn has_node(&self, node: NodeId) -> bool
        ensures { result ≡ shows_node self.now.node node }
    {
        match self.node {
            Some(shown) => shown == node,
            None => true,
        }
    }

    /// Returns whether a parcel is from or to a shown node, and is a letter if only letters are shown.
    pub(crate) fn has_parcel(&self, sent: &Sent) -> bool {
        let is_near = self.has_node(sent.route.from) || self.has_node(sent.route.to);
        is_near && (!self.only_letters || sent.is_letter)
    }

    /// Returns whether an event is one of the node of the part, if it has one. A delivery is of no
    /// node that a run or a trace names.
    fn has_event(&self, event: &Event) -> bool
        ensures { result ≡ shows_event self.now.node (node_of event.now) }
    {
        match event.node() {
            Some(node) => self.has_node(node),
            None => self.node.is_none(),
        }
    }

    /// Returns whether an event is shown: it has an index of the part, and is one of its node, or
    /// near: it sends or delivers a parcel from or to that node.
    pub(crate) fn shows(&self, index: u64, event: &Event, is_near: bool) -> bool
        ensures { result ≡ is_shown self.now index event.now is_near }
    {
        self.has_index(index) && (is_near || self.has_event(event))
    }
}
