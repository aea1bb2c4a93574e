//! The next event that an order asks for.

ghost use Rattle.std.specs.Prelude.{◌≡◌, ◌<◌, ◌≤◌, None, Some, IfErr, IfOk, IfSome, OnOk, length, slice_index_or};
ghost use Rattle.mx_scripts.specs.Fates.{IsFirst, NoneWaits, can_arrive, is_waiting};
ghost use Rattle.mx_scripts.specs.Lines.{FindsFirst, IsAgain, IsNext, IsNoNext, Misses, Once, arrival, cut, loss_of};
ghost use Rattle.mx_scripts.specs.Links.{is_across};
ghost use Rattle.mx_stamps.specs.Links.{link_of};
ghost use Rattle.mx_scripts.specs.States.{Admits, Bars, IsAllowed};

use crate::in_flight::Wanted;
use crate::links::ends;
use crate::state::{SessionEvent, State};
use mx_lines::{LineFault, LinkChange, Order, Scope, Sides};
use mx_network::Event;
use mx_nodelaws::Exclusion;
use mx_stamps::{MAX_EVENTS, NodeId};

fn arrival(number: u64) -> SessionEvent
    ensures { result ≡ arrival number }
{
    SessionEvent::Happens(Event::Deliver(number))
}

/// Returns the event that cuts a link.
fn cut(link: usize) -> SessionEvent
    requires { link < 441 }
    ensures { result ≡ cut link }
{
    let (one, other) = ends(link);
    SessionEvent::LinksChange(LinkChange::Cut(one, other))
}

fn once(done: u64, event: SessionEvent) -> Option<SessionEvent>
    ensures { Once done (λ e. e ≡ event) result }
{
    if done > 0 { None } else { Some(event) }
}

impl<C: Exclusion> State<C> {
    /// Returns the next event that an order asks for, or `None` if it asks for no more. `done` is
    /// how many of its events have been done.
    ///
    /// # Errors
    ///
    /// `NoParcel`, `NotUnderWay` or `NotDelivered` if there is no such parcel, `LinkCut` for a
    /// delivery over a cut link, and `TooMany` for an event of the cluster beyond 1,000,000.
    pub(crate) fn next_event(
        &self,
        order: &Order,
        done: u64,
    ) -> Result<Option<SessionEvent>, LineFault>
        ensures next { IfOk result
            (IsNext self.now.fates self.now.cluster.sent order.now done) }
        ensures allowed { IfOk result (λ next. IfSome next (IsAllowed self.now)) }
        ensures err { IfErr result (IsNoNext self.now order.now done) }
    {
        let next = self.asked(order, done)?;
        self.admit(&next)?;
        Ok(next)
    }

    /// Returns the next event that an order asks for after `done` of its events, even if it can't
    /// happen.
    fn asked(&self, order: &Order, done: u64) -> Result<Option<SessionEvent>, LineFault>
        ensures next { IfOk result
            (IsNext self.now.fates self.now.cluster.sent order.now done) }
        ensures err { IfErr result
            (Misses self.now.fates self.now.cluster.sent order.now done) }
    {
        match order {
            Order::AllArrive(scope) => Ok(self.next_arrival(scope)),
            Order::AllAreLost(scope) => Ok(self.next_loss(scope)),
            Order::Happens(event) => Ok(once(done, SessionEvent::Happens(*event))),
            Order::Parts(sides) => Ok(self.next_cut(sides)),
            Order::LinksChange(change) => Ok(once(done, SessionEvent::LinksChange(*change))),
            Order::Arrives(from, to) => self.arrival_between(*from, *to, done),
            Order::ArrivesAgain(from, to) => self.arrival_again(*from, *to, done),
            Order::IsLost(from, to) => self.loss_between(*from, *to, done),
            Order::ParcelIsLost(number) => self.loss_of(*number),
        }
    }

    fn next_arrival(&self, scope: &Scope) -> Option<SessionEvent>
        ensures { FindsFirst (can_arrive self.now.fates self.now.cluster.sent scope.now)
            arrival result }
    {
        match self.oldest(scope, Wanted::Arriving) {
            Some(number) => Some(arrival(number)),
            None => None,
        }
    }

    fn next_loss(&self, scope: &Scope) -> Option<SessionEvent>
        ensures { FindsFirst (is_waiting self.now.fates self.now.cluster.sent scope.now)
            SessionEvent.IsLost result }
    {
        match self.oldest(scope, Wanted::Waiting) {
            Some(number) => Some(SessionEvent::IsLost(number)),
            None => None,
        }
    }

    fn next_cut(&self, sides: &Sides) -> Option<SessionEvent>
        ensures { FindsFirst (is_across sides.now self.now.fates.links) cut result }
    {
        match self.in_flight.first_across(sides) {
            Some(link) => Some(cut(link)),
            None => None,
        }
    }

    fn arrival_between(
        &self,
        from: NodeId,
        to: NodeId,
        done: u64,
    ) -> Result<Option<SessionEvent>, LineFault>
        ensures next { IfOk result (Once done (λ e. FindsFirst
            (is_waiting self.now.fates self.now.cluster.sent (Scope.Link from to)) arrival
            (Some e))) }
        ensures err { IfErr result
            (Misses self.now.fates self.now.cluster.sent (Order.Arrives from to) done) }
    {
        if done > 0 {
            return Ok(None);
        }
        let number = self.oldest_between(from, to)?;
        Ok(Some(arrival(number)))
    }

    fn loss_between(
        &self,
        from: NodeId,
        to: NodeId,
        done: u64,
    ) -> Result<Option<SessionEvent>, LineFault>
        ensures next { IfOk result (Once done (λ e. FindsFirst
            (is_waiting self.now.fates self.now.cluster.sent (Scope.Link from to))
            SessionEvent.IsLost (Some e))) }
        ensures err { IfErr result
            (Misses self.now.fates self.now.cluster.sent (Order.IsLost from to) done) }
    {
        if done > 0 {
            return Ok(None);
        }
        let number = self.oldest_between(from, to)?;
        Ok(Some(SessionEvent::IsLost(number)))
    }

    fn loss_of(&self, number: u64) -> Result<Option<SessionEvent>, LineFault>
        ensures next { IfOk result (λ next. (number < length self.now.cluster.sent)
            × (next ≡ loss_of self.now.fates number)) }
        ensures err { IfErr result (λ fault. (fault ≡ LineFault.NoParcel)
            × (length self.now.cluster.sent ≤ number)) }
    {
        if number >= self.cluster.sent() {
            return Err(LineFault::NoParcel);
        }
        if self.is_under_way(number) {
            Ok(Some(SessionEvent::IsLost(number)))
        } else {
            Ok(None)
        }
    }

    fn arrival_again(
        &self,
        from: NodeId,
        to: NodeId,
        done: u64,
    ) -> Result<Option<SessionEvent>, LineFault>
        ensures next { IfOk result (Once done (λ e. IsAgain self.now.fates from to e)) }
        ensures err { IfErr result
            (Misses self.now.fates self.now.cluster.sent (Order.ArrivesAgain from to) done) }
    {
        if done > 0 {
            return Ok(None);
        }
        let number = self.last_between(from, to)?;
        Ok(Some(arrival(number)))
    }

    fn oldest_between(&self, from: NodeId, to: NodeId) -> Result<u64, LineFault>
        ensures found { IfOk result
            (IsFirst (is_waiting self.now.fates self.now.cluster.sent (Scope.Link from to))) }
        ensures none { IfErr result (λ fault. (fault ≡ LineFault.NotUnderWay)
            × NoneWaits self.now.fates self.now.cluster.sent (Scope.Link from to)) }
    {
        match self.oldest(&Scope::Link(from, to), Wanted::Waiting) {
            Some(number) => Ok(number),
            None => Err(LineFault::NotUnderWay),
        }
    }

    fn last_between(&self, from: NodeId, to: NodeId) -> Result<u64, LineFault>
        ensures found { IfOk result (λ k.
            slice_index_or self.now.fates.last (link_of from to) None ≡ Some k) }
        ensures none { IfErr result (λ fault. (fault ≡ LineFault.NotDelivered)
            × (slice_index_or self.now.fates.last (link_of from to) None ≡ None)) }
    {
        match self.in_flight.last_between(from, to) {
            Some(number) => Ok(number),
            None => Err(LineFault::NotDelivered),
        }
    }

    fn admit(&self, next: &Option<SessionEvent>) -> Result<(), LineFault>
        ensures ok { OnOk result (Admits self.now next.now) }
        ensures err { IfErr result (Bars self.now next.now) }
    {
        match next {
            Some(SessionEvent::Happens(event)) => self.admit_event(event),
            Some(SessionEvent::IsLost(_) | SessionEvent::LinksChange(_)) | None => Ok(()),
        }
    }

    fn admit_event(&self, event: &Event) -> Result<(), LineFault>
        ensures ok { OnOk result (IsAllowed self.now (SessionEvent.Happens event.now)) }
        ensures err { IfErr result (Bars self.now (Some (SessionEvent.Happens event.now))) }
    {
        if self.cluster.trace().len() >= MAX_EVENTS {
            return Err(LineFault::TooMany);
        }
        if !self.can_pass(event) {
            return Err(LineFault::LinkCut);
        }
        Ok(())
    }
}
