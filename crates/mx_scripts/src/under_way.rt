//! The parcels under way, as a list for each link, in the order in which they were sent.

ghost use Rattle.std.specs.Prelude.{◌≡◌, ◌≤◌, ◌<◌, ◌^◌, ◌+◌, ◌-◌, ◌++◌, ◌∷◌, [], ℕ, Bool, List, false, IsTrue, OnErr, OnOk, length, slice_get, slice_set};
ghost use Rattle.mx_scripts.specs.UnderWay.{IsListed, IsListedOver, IsOff, IsPassed, taken_out, without};

use mx_network::{Cluster, Event};
use mx_nodelaws::Exclusion;
use mx_stamps::{LINKS, link};
use std::alloc::{AllocError, Global};
use std::marker::Model;

/// A parcel that was sent.
#[derive(Clone, Copy)]
pub(crate) struct ListedParcel {
    /// The index of its link.
    pub(crate) link: u16,
    /// Whether it is under way no more.
    pub(crate) is_gone: bool,
}

/// The parcels that were sent. For each link, a list leads through those under way, the oldest
/// first, so that a search looks at no parcel of another link.
#[derive(Drop)]
pub(crate) struct UnderWay {
    parcels: Vec<ListedParcel>,
    /// For each parcel, the next of its link. None between the two is under way over the link.
    next: Vec<u64>,
    /// For each link, where its list begins: none below this number is under way over the link.
    first: [u64; LINKS],
    /// For each link, where its list ends: none from this number on is under way over the link.
    end: [u64; LINKS],
    /// No parcel below this number is under way.
    oldest: u64,
}

impl Model for UnderWay {
    ghost use Rattle.std.specs.Prelude.{List};
    ghost use Rattle.mx_scripts.specs.declared.under_way.ListedParcel.{ListedParcel};
    ghost use Rattle.mx_scripts.specs.UnderWay.{IsOrdered};

    ghost Value = { List ListedParcel };

    ghost view = { λ u. u.parcels.items };

    ghost invariant = { λ u. IsOrdered u.parcels.items u.next.items u.first u.end u.oldest };
}

/// Sets the item at this place, if there is such a place.
fn put(numbers: &mut Vec<u64>, place: u64, number: u64)
    ensures { numbers.new.items ≡ slice_set numbers.old.items place number }
{
    let place = place as usize;
    if place < numbers.len() {
        numbers[place] = number;
    }
}

impl UnderWay {
    pub(crate) fn new(alloc: Global) -> UnderWay
        ensures { result ≡ [] }
    {
        UnderWay {
            parcels: Vec::new(alloc),
            next: Vec::new(alloc),
            first: [0; LINKS],
            end: [0; LINKS],
            oldest: 0,
        }
    }

    /// Adds the parcels of a cluster that are not listed yet.
    pub(crate) fn grow<C: Exclusion>(&mut self, cluster: &Cluster<C>) -> Result<(), AllocError>
        ensures kept { (gone : List Bool) → IsListed cluster.now.sent gone self.old
            → IsListed cluster.now.sent gone self.new }
        ensures all { OnOk result (length cluster.now.sent ≤ length self.new) }
    {
        for _number in self.parcels.len() as u64..cluster.sent() {
            self.add_next(cluster)?;
        }
        Ok(())
    }

    fn add_next<C: Exclusion>(&mut self, cluster: &Cluster<C>) -> Result<(), AllocError>
        ensures kept { (gone : List Bool) → IsListed cluster.now.sent gone self.old
            → IsListed cluster.now.sent gone self.new }
        ensures more { length self.old < length cluster.now.sent
            → OnOk result (length self.new ≡ length self.old + 1) }
    {
        match cluster.sent_parcel(self.parcels.len() as u64) {
            Some(sent) => self.add(link(sent.from, sent.to)),
            None => Ok(()),
        }
    }

    fn add(&mut self, link: usize) -> Result<(), AllocError>
        requires { link < 441 }
        ensures ok { OnOk result
            (self.new ≡ self.old ++ (record { link = link; is_gone = false }) ∷ []) }
        ensures err { OnErr result (self.new ≡ self.old) }
    {
        self.lead_on(link);
        self.next.push(self.next.len() as u64 + 1)?;
        self.end[link] = self.parcels.len() as u64 + 1;
        self.parcels.push(ListedParcel {
            link: link as u16,
            is_gone: false,
        })?;
        Ok(())
    }

    /// Lets the list of a link lead to the next parcel that is added.
    fn lead_on(&mut self, link: usize)
        requires { link < 441 }
        ensures { self.new ≡ self.old }
    {
        let number = self.parcels.len() as u64;
        let end = self.end[link];
        if end <= self.first[link] {
            self.first[link] = number;
        } else if self.is_over(link, end - 1) {
            put(&mut self.next, end - 1, number);
        }
    }

    fn is_over(&self, link: usize, number: u64) -> bool
        ensures { IsTrue result → IsListedOver link (slice_get self.now number) }
    {
        match self.parcels.get(number as usize) {
            Some(parcel) => usize::from(parcel.link) == link,
            None => false,
        }
    }

    /// Takes out the parcel that an event delivers, if it delivers one.
    pub(crate) fn take_out(&mut self, event: &Event)
        ensures { self.new ≡ taken_out event.now self.old }
    {
        if let Event::Deliver(number) = event {
            self.remove(*number);
        }
    }

    /// Takes a parcel out, if it is listed.
    pub(crate) fn remove(&mut self, number: u64)
        ensures { self.new ≡ without number self.old }
    {
        let place = number as usize;
        if place < self.parcels.len() {
            let link = usize::from(self.parcels[place].link);
            self.parcels[place].is_gone = true;
            self.pass(link);
        }
    }

    /// Moves the beginning of a link's list, and `oldest`, past parcels that are under way no more.
    fn pass(&mut self, link: usize)
        ensures { self.new ≡ self.old }
    {
        self.oldest = self.oldest_left();
        if link < LINKS {
            self.first[link] = self.first_left(link);
        }
    }

    fn oldest_left(&self) -> u64
        ensures { (link k : ℕ) → k < result → IsPassed link (slice_get self.now k) }
    {
        let mut number = self.oldest;
        while self.is_gone(number) {
            number += 1;
        }
        number
    }

    fn first_left(&self, link: usize) -> u64
        ensures { (k : ℕ) → k < result → IsPassed link (slice_get self.now k) }
    {
        let mut number = self.first(link);
        while number < self.end(link) && self.is_gone(number) {
            number = self.after(link, number);
        }
        number
    }

    fn is_gone(&self, number: u64) -> bool
        ensures gone { IsTrue result → (link : ℕ) → IsPassed link (slice_get self.now number) }
        ensures sent { IsTrue result → number < length self.now }
    {
        match self.parcels.get(number as usize) {
            Some(parcel) => parcel.is_gone,
            None => false,
        }
    }

    /// Returns a number below which no parcel is under way.
    pub(crate) fn oldest(&self) -> u64
        ensures below { (link k : ℕ) → k < result → IsPassed link (slice_get self.now k) }
        ensures links { (link k : ℕ) → 441 ≤ link → IsOff link (slice_get self.now k) }
    {
        self.oldest
    }

    /// Returns where the list of a link begins.
    pub(crate) fn first(&self, link: usize) -> u64
        ensures { (k : ℕ) → k < result → IsPassed link (slice_get self.now k) }
    {
        match self.first.get(link) {
            Some(first) => *first,
            None => 0,
        }
    }

    /// Returns where the list of a link ends.
    pub(crate) fn end(&self, link: usize) -> u64
        ensures { (k : ℕ) → result ≤ k → IsOff link (slice_get self.now k) }
    {
        match self.end.get(link) {
            Some(end) => *end,
            None => 0,
        }
    }

    /// Returns the next number in the list of a link.
    pub(crate) fn after(&self, link: usize, number: u64) -> u64
        requires { number < 2 ^ 64 - 1 }
        ensures ahead { number < result }
        ensures between { (k : ℕ) → number < k → k < result
            → IsPassed link (slice_get self.now k) }
    {
        match self.next.get(number as usize) {
            Some(after) if *after > number && self.is_over(link, number) => *after,
            _ => number + 1,
        }
    }
}
