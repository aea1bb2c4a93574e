ghost use Rattle.std.specs.Prelude.{◌≡◌, IfErr, IfOk, IsTrue, OnOk};
ghost use Rattle.mx_driver.specs.Runs.{at_rest};
ghost use Rattle.mx_scripts.specs.Fates.{can_pass, is_under_way, noted};
ghost use Rattle.mx_scripts.specs.States.{Brings, IsAllowed, IsNotApplied, before_any};

use crate::in_flight::InFlight;
use crate::line_failure::LineFailure;
use crate::under_way::UnderWay;
use mx_driver::start;
use mx_lines::LinkChange;
use mx_network::{Cluster, Entry, Event};
use mx_nodelaws::Exclusion;
use mx_plan::Plan;
use std::alloc::{AllocError, Global};
use std::marker::Model;

/// One thing that a line does: an event of the cluster, the loss of a parcel, or a change of links.
#[derive(Clone, Copy)]
pub enum SessionEvent {
    /// An event of the cluster.
    Happens(Event),
    /// The parcel of this number is lost.
    IsLost(u64),
    /// Links are cut, or all heal.
    LinksChange(LinkChange),
}

/// A cluster, which of its parcels are under way, and which links are cut.
#[derive(Drop)]
pub struct State<C: Exclusion> {
    pub(crate) cluster: Cluster<C>,
    pub(crate) in_flight: InFlight,
    /// Where to look for the oldest parcels of `in_flight`.
    pub(crate) under_way: UnderWay,
}

impl<C: Exclusion> Model for State<C> {
    ghost use Rattle.mx_scripts.specs.UnderWay.{IsListed};
    ghost use Rattle.mx_scripts.specs.States.{RunState};

    ghost Value = { RunState C C.Msg };

    ghost view = { λ s. record { cluster = s.cluster; fates = s.in_flight } };

    ghost invariant = { λ s. IsListed s.cluster.sent s.in_flight.gone s.under_way };
}

impl<C: Exclusion> State<C> {
    /// Creates the cluster of a plan, at rest, before any parcel was sent. `shape` is the plan's.
    pub fn start(alloc: Global, plan: &Plan, shape: &C::Shape) -> Result<Self, AllocError>
        ensures { IfOk result (λ state.
            state ≡ before_any (at_rest C.core plan.now shape.now)) }
    {
        Ok(State {
            cluster: start(alloc, plan, shape)?,
            in_flight: InFlight::new(alloc),
            under_way: UnderWay::new(alloc),
        })
    }

    /// Takes over a cluster, of whose parcels none counts as under way.
    pub fn of(alloc: Global, cluster: Cluster<C>) -> Self
        ensures { result ≡ before_any cluster }
    {
        State {
            cluster,
            in_flight: InFlight::new(alloc),
            under_way: UnderWay::new(alloc),
        }
    }

    pub fn cluster(&self) -> &Cluster<C>
        ensures { result.now ≡ self.now.cluster }
    {
        &self.cluster
    }

    /// Returns which parcels are under way, and which links are cut.
    pub fn in_flight(&self) -> &InFlight
        ensures { result.now ≡ self.now.fates }
    {
        &self.in_flight
    }

    pub fn trace(&self) -> &[Entry]
        ensures { result.now ≡ self.now.cluster.trace }
    {
        self.cluster.trace()
    }

    /// Whether the parcel of this number was sent, and neither delivered nor lost.
    pub fn is_under_way(&self, number: u64) -> bool
        ensures { result ≡ is_under_way self.now.fates number }
    {
        self.in_flight.is_under_way(number)
    }

    pub(crate) fn can_pass(&self, event: &Event) -> bool
        ensures { result ≡ can_pass self.now.fates self.now.cluster.sent event.now }
    {
        self.in_flight.can_pass(event, &self.cluster)
    }

    /// Applies an event to the cluster, to a parcel that is under way, or to the links.
    ///
    /// # Errors
    ///
    /// `Refused` if the cluster has no such node or parcel: then nothing changes. `Memory` if
    /// memory runs out.
    pub fn apply(&mut self, event: &SessionEvent) -> Result<(), LineFailure>
        requires { IsAllowed self.old event.now }
        ensures ok { OnOk result (Brings C.core self.old event.now self.new) }
        ensures err { IfErr result (IsNotApplied C.core self.old event.now self.new) }
    {
        match event {
            SessionEvent::Happens(event) => self.advance(event),
            SessionEvent::IsLost(number) => {
                self.in_flight.lose(*number);
                self.under_way.remove(*number);
                Ok(())
            }
            SessionEvent::LinksChange(change) => {
                self.in_flight.change(change);
                Ok(())
            }
        }
    }

    fn advance(&mut self, event: &Event) -> Result<(), LineFailure>
        requires { IsTrue (can_pass self.old.fates self.old.cluster.sent event.now) }
        ensures ok { OnOk result
            (Brings C.core self.old (SessionEvent.Happens event.now) self.new) }
        ensures err { IfErr result
            (IsNotApplied C.core self.old (SessionEvent.Happens event.now) self.new) }
    {
        self.cluster.advance(*event)?;
        self.note(event)?;
        Ok(())
    }

    /// Notes which parcels an event sent and delivered, after the cluster has changed.
    fn note(&mut self, event: &Event) -> Result<(), AllocError>
        ensures same { OnOk result (self.new.cluster ≡ self.old.cluster) }
        ensures noted { OnOk result
            (self.new.fates ≡ noted self.old.cluster.sent event.now self.old.fates) }
    {
        self.under_way.grow(&self.cluster)?;
        self.in_flight.note(event, &self.cluster)?;
        self.under_way.take_out(event);
        Ok(())
    }
}
