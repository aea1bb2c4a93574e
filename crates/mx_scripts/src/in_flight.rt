ghost use Rattle.std.specs.Prelude.{◌≡◌, ◌<◌, ℕ, false, IfNone, IfSome, None, OnErr, OnOk, slice_get, slice_index_or};
ghost use Rattle.mx_scripts.specs.Fates.{IsFirst, arrived, at_first, can_arrive, can_pass, delivered, grown, is_held, is_in, is_under_way, is_waiting, is_wanted, is_within, lost, noted, relinked};
ghost use Rattle.mx_scripts.specs.Links.{is_across, is_cut};
ghost use Rattle.mx_stamps.specs.Links.{link_of};

use crate::links::Links;
use mx_lines::{LinkChange, Scope, Sides};
use mx_network::{Cluster, Event};
use mx_nodelaws::Exclusion;
use mx_stamps::{LINKS, NodeId, link};
use std::alloc::{AllocError, Global};
use std::marker::Model;

/// Which parcels are under way, which was delivered last over each link, and which links are cut.
#[derive(Drop)]
pub struct InFlight {
    /// For each parcel that was sent, whether it is under way no more.
    gone: Vec<bool>,
    /// For each link, the number of the parcel that was delivered last over it.
    last: [Option<u64>; LINKS],
    links: Links,
}

/// Which of the parcels under way `State::oldest` looks for.
#[derive(Clone, Copy)]
pub(crate) enum Wanted {
    Waiting,
    /// Those over a link that is not cut.
    Arriving,
}

impl Model for InFlight {
    ghost use Rattle.mx_scripts.specs.Fates.{Fates};

    ghost Value = { Fates };

    ghost view = { λ m. record { gone = m.gone.items; last = m.last; links = m.links } };
}

fn is_in<C: Exclusion>(cluster: &Cluster<C>, scope: &Scope, number: u64) -> bool
    ensures { result ≡ is_in scope.now (slice_get cluster.now.sent number) }
{
    match cluster.sent_parcel(number) {
        Some(sent) => is_within(scope, sent.from, sent.to),
        None => false,
    }
}

fn is_within(scope: &Scope, from: NodeId, to: NodeId) -> bool
    ensures { result ≡ is_within scope.now from to }
{
    match scope {
        Scope::All => true,
        Scope::Link(first, second) => from == *first && to == *second,
    }
}

/// Extends the list to this many parcels: the new ones are under way.
fn grow(gone: &mut Vec<bool>, sent: usize) -> Result<(), AllocError>
    ensures ok { OnOk result (gone.new.items ≡ grown sent gone.old.items) }
    ensures err { OnErr result (gone.new.items ≡ gone.old.items) }
{
    if sent <= gone.len() {
        return Ok(());
    }
    gone.resize(sent, false)
}

impl InFlight {
    pub(crate) fn new(alloc: Global) -> InFlight
        ensures { result ≡ at_first }
    {
        InFlight {
            gone: Vec::new(alloc),
            last: [None; LINKS],
            links: Links::uncut(),
        }
    }

    /// Notes which parcels an event sent and delivered. `cluster` is the cluster after the event.
    pub(crate) fn note<C: Exclusion>(
        &mut self,
        event: &Event,
        cluster: &Cluster<C>,
    ) -> Result<(), AllocError>
        ensures ok { OnOk result (self.new ≡ noted cluster.now.sent event.now self.old) }
        ensures err { OnErr result (self.new ≡ self.old) }
    {
        grow(&mut self.gone, cluster.sent() as usize)?;
        self.take_in(event, cluster);
        Ok(())
    }

    fn take_in<C: Exclusion>(&mut self, event: &Event, cluster: &Cluster<C>)
        ensures { self.new ≡ delivered cluster.now.sent event.now self.old }
    {
        if let Event::Deliver(number) = event {
            self.arrive(*number, cluster);
        }
    }

    fn arrive<C: Exclusion>(&mut self, number: u64, cluster: &Cluster<C>)
        ensures { self.new ≡ arrived number (slice_get cluster.now.sent number) self.old }
    {
        self.lose(number);
        if let Some(sent) = cluster.sent_parcel(number) {
            self.last[link(sent.from, sent.to)] = Some(number);
        }
    }

    pub(crate) fn lose(&mut self, number: u64)
        ensures { self.new ≡ lost number self.old }
    {
        let place = number as usize;
        if place < self.gone.len() {
            self.gone[place] = true;
        }
    }

    pub(crate) fn is_under_way(&self, number: u64) -> bool
        ensures { result ≡ is_under_way self.now number }
    {
        match self.gone.get(number as usize) {
            Some(gone) => !*gone,
            None => false,
        }
    }

    pub(crate) fn change(&mut self, change: &LinkChange)
        ensures { self.new ≡ relinked change.now self.old }
    {
        self.links.change(change);
    }

    /// Whether the link from one node to another is cut.
    pub fn is_cut(&self, from: NodeId, to: NodeId) -> bool
        ensures { result ≡ is_cut self.now.links from to }
    {
        self.links.is_cut(from, to)
    }

    pub(crate) fn can_pass<C: Exclusion>(&self, event: &Event, cluster: &Cluster<C>) -> bool
        ensures { result ≡ can_pass self.now cluster.now.sent event.now }
    {
        match event {
            Event::Deliver(number) => !self.is_held(cluster, *number),
            _ => true,
        }
    }

    fn is_held<C: Exclusion>(&self, cluster: &Cluster<C>, number: u64) -> bool
        ensures { result ≡ is_held self.now (slice_get cluster.now.sent number) }
    {
        match cluster.sent_parcel(number) {
            Some(sent) => self.links.is_cut(sent.from, sent.to),
            None => false,
        }
    }

    fn is_waiting<C: Exclusion>(&self, cluster: &Cluster<C>, scope: &Scope, number: u64) -> bool
        ensures { result ≡ is_waiting self.now cluster.now.sent scope.now number }
    {
        self.is_under_way(number) && is_in(cluster, scope, number)
    }

    fn can_arrive<C: Exclusion>(&self, cluster: &Cluster<C>, scope: &Scope, number: u64) -> bool
        ensures { result ≡ can_arrive self.now cluster.now.sent scope.now number }
    {
        self.is_waiting(cluster, scope, number) && !self.is_held(cluster, number)
    }

    pub(crate) fn is_wanted<C: Exclusion>(
        &self,
        cluster: &Cluster<C>,
        scope: &Scope,
        wanted: Wanted,
        number: u64,
    ) -> bool
        ensures { result ≡ is_wanted self.now cluster.now.sent scope.now wanted number }
    {
        match wanted {
            Wanted::Waiting => self.is_waiting(cluster, scope, number),
            Wanted::Arriving => self.can_arrive(cluster, scope, number),
        }
    }

    /// Returns the first link from the left side to the right side that is not cut.
    pub(crate) fn first_across(&self, sides: &Sides) -> Option<usize>
        ensures some { IfSome result (IsFirst (is_across sides.now self.now.links)) }
        ensures none { IfNone result ((k : ℕ) → is_across sides.now self.now.links k ≡ false) }
        ensures below { IfSome result (λ k. k < 441) }
    {
        self.links.first_across(sides)
    }

    pub(crate) fn last_between(&self, from: NodeId, to: NodeId) -> Option<u64>
        ensures { result ≡ slice_index_or self.now.last (link_of from to) None }
    {
        self.last[link(from, to)]
    }
}
