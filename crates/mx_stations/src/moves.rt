//! How a station takes parcels in from slots, and puts its waiting parcels out into slots. Each
//! call tries once. A parcel that was taken from a slot is in the station's hand until it is
//! delivered.

ghost use Rattle.std.specs.Prelude.{◌≡◌, ◌≢◌, ◌<◌, ◌≤◌, ◌+◌, IfOk, MatchBool, None, OnErr, length};
ghost use Rattle.mx_letters.specs.declared.fates.Fate.TheVariants.{Pass};
ghost use Rattle.mx_stations.specs.Posts.{DeliversAs, KeepsInHand, PutsOut, TakesIn, turned};
ghost use Rattle.mx_stations.specs.Turns.{HoldsUnknown};

use crate::answers::{PutOut, TakeFault, Taken};
use crate::queue::{bring_forward, turn};
use crate::slots::{Link, claim_empty, place};
use crate::station::Station;
use crate::together::see;
use mx_letters::Fate;
use mx_nodelaws::Exclusion;
use mx_stamps::NodeId;
use std::marker::Brand;

impl<C: Exclusion> Station<C> {
    /// Delivers the parcel in hand, if there is one, which remains there to be delivered `again`.
    pub(crate) fn deliver(&mut self, again: bool) -> Result<bool, TakeFault>
        ensures delivered { IfOk result (λ had.
            MatchBool had (DeliversAs C.core again self.old self.new)
            ((self.old.me.hand ≡ None) × (self.new ≡ self.old))) }
        ensures held { OnErr result (HoldsUnknown C.core self.old) }
        ensures memory { OnErr result (self.new ≡ self.old) }
    {
        let Some(_held) = &self.hand else {
            return Ok(false);
        };
        see(&self.field, &mut self.seat, 0);
        self.hand_over(again)?;
        Ok(true)
    }

    /// Delivers the parcel in hand. If the hand is empty, takes a parcel from the link from node
    /// `from`, and delivers it.
    ///
    /// # Errors
    ///
    /// Returns `Memory` if memory runs out. The parcel remains in hand, and the next call delivers
    /// it first.
    pub fn take_in(&mut self, from: NodeId) -> Result<Taken, TakeFault>
        requires { from < self.old.nodes }
        ensures taken { IfOk result (λ taken. TakesIn C.core from self.old taken self.new) }
        ensures memory { OnErr result (KeepsInHand from self.old self.new) }
    {
        if self.deliver(false)? {
            return Ok(Taken::Got);
        }
        let pass = || -> Fate
            ensures { result ≡ Pass }
        { Fate::Pass };
        let Some(_fate) = self.fetch_fated(from, pass) else {
            return Ok(Taken::Empty);
        };
        self.deliver(false)?;
        Ok(Taken::Got)
    }

    /// Tries once to put the first waiting parcel into the first empty slot of its link.
    pub fn put_out(&mut self) -> PutOut
        ensures { PutsOut self.old result self.new }
    {
        if self.waiting.len() == 0 {
            return PutOut::Nothing;
        }
        let mut kept = 0;
        let answer = self.put_next(0, &mut kept);
        turn(&mut self.waiting, kept);
        answer
    }

    /// Tries once to put out the parcel at `index` of the waiting ones. It stays among them; if no
    /// slot of its link is empty, it moves to the place `kept`, which grows by 1.
    pub(crate) fn put_next(&mut self, index: usize, kept: &mut usize) -> PutOut
        requires within { index < length self.old.waiting }
        requires low { kept.old ≤ index }
        ensures put { PutsOut (turned index kept.old self.old) result
            (turned (index + 1) kept.new self.new) }
        ensures kept { kept.new ≤ index + 1 }
        ensures many { length self.new.waiting ≡ length self.old.waiting }
    {
        let Some(next) = self.waiting.as_slice().get(index) else {
            unreachable!();
        };
        let link = Link {
            from: self.node,
            to: next.0,
        };
        let field = &*self.field;
        let Some(slot) = claim_empty(field, &mut self.seat, &link) else {
            bring_forward(&mut self.waiting, index, *kept);
            *kept += 1;
            return PutOut::Full;
        };
        place::<C, Brand>(field, &mut self.seat, &link, slot, next.1.copy());
        self.put_to.add(link.to);
        PutOut::Sent
    }
}
