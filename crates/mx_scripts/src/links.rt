//! Which links are cut.

ghost use Rattle.std.specs.Prelude.{◌≡◌, ◌<◌, ◌/◌, ◌%◌, ℕ, false, IfNone, IfSome};
ghost use Rattle.mx_scripts.specs.Fates.{IsFirst};
ghost use Rattle.mx_scripts.specs.Links.{changed, is_across, is_cut, uncut, with_link, with_node};

use mx_lines::{LinkChange, Sides};
use mx_stamps::{LINKS, NodeId, link};
use std::marker::Model;

const NODES: usize = 21;

#[derive(Drop)]
pub(crate) struct Links {
    /// For each link, whether it is cut. Both directions always agree.
    cut: [bool; LINKS],
}

impl Model for Links {
    ghost use Rattle.mx_scripts.specs.Links.{LinkState};

    ghost Value = { LinkState };

    ghost view = { λ l. record { cut = l.cut } };
}

/// Returns the nodes that a link leads from and to.
pub(crate) fn ends(link: usize) -> (NodeId, NodeId)
    requires { link < 441 }
    ensures from { result.0 ≡ link / 21 }
    ensures to { result.1 ≡ link % 21 }
{
    (node(link / NODES), node(link % NODES))
}

fn node(number: usize) -> NodeId
    requires { number < 21 }
    ensures { result ≡ number }
{
    NodeId::of(number as u8).unwrap()
}

impl Links {
    pub(crate) fn uncut() -> Links
        ensures { result ≡ uncut }
    {
        Links {
            cut: [false; LINKS],
        }
    }

    pub(crate) fn change(&mut self, change: &LinkChange)
        ensures { self.new ≡ changed change.now self.old }
    {
        match change {
            LinkChange::Cut(one, other) => self.set_link(*one, *other, true),
            LinkChange::CutAll(node) => self.set_node(*node, true),
            LinkChange::HealLink(one, other) => self.set_link(*one, *other, false),
            LinkChange::HealNode(node) => self.set_node(*node, false),
            LinkChange::Heal => *self = Links::uncut(),
        }
    }

    fn set_link(&mut self, one: NodeId, other: NodeId, is_cut: bool)
        ensures { self.new ≡ with_link one other is_cut self.old }
    {
        self.cut[link(one, other)] = is_cut;
        self.cut[link(other, one)] = is_cut;
    }

    fn set_node(&mut self, one: NodeId, is_cut: bool)
        ensures { self.new ≡ with_node one is_cut self.old }
    {
        for other in 0..NODES {
            self.set_link(one, node(other), is_cut);
        }
    }

    pub(crate) fn is_cut(&self, from: NodeId, to: NodeId) -> bool
        ensures { result ≡ is_cut self.now from to }
    {
        self.cut[link(from, to)]
    }

    /// Whether a link leads from the left side to the right side of a partition, and is not cut.
    fn is_across(&self, sides: &Sides, link: usize) -> bool
        requires { link < 441 }
        ensures { result ≡ is_across sides.now self.now link }
    {
        let (from, to) = ends(link);
        sides.crosses(from, to) && !self.is_cut(from, to)
    }

    /// Returns the first such link.
    pub(crate) fn first_across(&self, sides: &Sides) -> Option<usize>
        ensures some { IfSome result (IsFirst (is_across sides.now self.now)) }
        ensures none { IfNone result ((k : ℕ) → is_across sides.now self.now k ≡ false) }
        ensures below { IfSome result (λ k. k < 441) }
    {
        for link in 0..LINKS {
            if self.is_across(sides, link) {
                return Some(link);
            }
        }
        None
    }
}
