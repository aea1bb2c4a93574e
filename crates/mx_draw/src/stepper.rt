//! The next event of a random run.

ghost use Rattle.std.specs.Prelude.{◌≡◌, ◌<◌, ◌≤◌, IfOk, OnOk, false};
ghost use Rattle.mx_draw.specs.Runs.{next_of, walk_step};
ghost use Rattle.mx_draw.specs.Walk.{at_first, byte_of, chosen, is_delivery, is_empty, looked, next_step, repeated, state_of, taken_up};

use crate::own_actions::act;
use crate::under_way::{drawn_of, is_empty, oldest_beside, put_new, take};
use mx_cli::Conditions;
use mx_explorer::{draw, place};
use mx_network::{Cluster, Event};
use mx_nodelaws::Exclusion;
use mx_stamps::MAX_NODES;
use rand_core::SeedableRng;
use rand_core::utils::NextWord;
use rand_pcg::Pcg32;
use std::alloc::{AllocError, Global};

/// A step of a walk that repeats no parcel has a chance, 0 to 63. From the first number to below
/// the second, the step delivers or loses a parcel under way, if there is one; else a node acts.
const DELIVERIES: (u32, u32) = (4, 52);

/// A parcel to repeat is drawn from this many newest ones.
const WINDOW: u64 = 64;

/// What the next event is drawn by: a generator of random words, and, in a walk, the parcels that
/// are under way.
#[derive(Drop)]
pub(crate) struct Stepper {
    words: Pcg32,
    /// The numbers of the parcels under way: those that no step has yet taken up, to deliver or
    /// lose them. They are in no order. Empty in a schedule.
    flying: Vec<u64>,
    /// How many parcels had been sent at the last look.
    seen: u64,
}

impl Stepper {
    /// Creates the stepper of a seed. The generator is `Pcg32` by `seed_from_u64`.
    pub(crate) fn of(alloc: Global, seed: u64) -> Stepper
        ensures { state_of result ≡ at_first seed }
    {
        Stepper {
            words: Pcg32::seed_from_u64(seed),
            flying: Vec::new(alloc),
            seen: 0,
        }
    }

    /// Returns the next event, or `None` if the step has none: it loses a parcel, finds nothing to
    /// do, or would deliver one before any was sent. Without conditions, the event is that of a
    /// schedule.
    pub(crate) fn next<C: Exclusion>(
        &mut self,
        conditions: &Option<Conditions>,
        nodes: u8,
        registers: u8,
        cluster: &Cluster<C>,
    ) -> Result<Option<Event>, AllocError>
        requires nodes { (0 < nodes) × (nodes ≤ MAX_NODES) }
        requires registers { 0 < registers }
        ensures event { IfOk result (λ event. event ≡ (next_of C.core conditions.now cluster.now
            nodes registers (state_of self.old)).event) }
        ensures after { OnOk result (state_of self.new ≡ (next_of C.core conditions.now cluster.now
            nodes registers (state_of self.old)).after) }
    {
        match conditions {
            Some(conditions) => self.walk(conditions, nodes, registers, cluster),
            None => Ok(place(draw(&mut self.words, nodes, registers), cluster.sent())),
        }
    }

    fn walk<C: Exclusion>(
        &mut self,
        conditions: &Conditions,
        nodes: u8,
        registers: u8,
        cluster: &Cluster<C>,
    ) -> Result<Option<Event>, AllocError>
        requires nodes { (0 < nodes) × (nodes ≤ MAX_NODES) }
        requires registers { 0 < registers }
        ensures event { IfOk result (λ event. event ≡ (walk_step C.core conditions.now cluster.now
            nodes registers (state_of self.old)).event) }
        ensures after { OnOk result (state_of self.new ≡ (walk_step C.core conditions.now
            cluster.now nodes registers (state_of self.old)).after) }
    {
        self.look(cluster.sent())?;
        Ok(self.walk_on(conditions, nodes, registers, cluster))
    }

    fn look(&mut self, sent: u64) -> Result<(), AllocError>
        ensures { OnOk result (state_of self.new ≡ looked sent (state_of self.old)) }
    {
        put_new(&mut self.flying, self.seen, sent)?;
        self.seen = sent;
        Ok(())
    }

    /// Returns the event of the next step of a walk, which mostly delivers a parcel; else a node
    /// acts by itself.
    fn walk_on<C: Exclusion>(
        &mut self,
        conditions: &Conditions,
        nodes: u8,
        registers: u8,
        cluster: &Cluster<C>,
    ) -> Option<Event>
        requires nodes { (0 < nodes) × (nodes ≤ MAX_NODES) }
        requires registers { 0 < registers }
        ensures event { result ≡ (next_step C.core conditions.now cluster.now
            nodes registers (state_of self.old)).event }
        ensures after { state_of self.new ≡ (next_step C.core conditions.now cluster.now
            nodes registers (state_of self.old)).after }
    {
        let word = self.words.next_word();
        if byte_of(word) < conditions.repeat {
            return self.repeat(conditions, cluster);
        }
        let chance = word % 64;
        let is_calm = is_empty(self.flying.as_slice());
        if is_delivery(chance, is_calm) {
            return self.take_up(conditions, cluster);
        }
        act(&mut self.words, nodes, registers, cluster, chance, is_calm)
    }

    fn repeat<C: Exclusion>(
        &mut self,
        conditions: &Conditions,
        cluster: &Cluster<C>,
    ) -> Option<Event>
        ensures event { result
            ≡ (repeated C.core conditions.now cluster.now.sent (state_of self.old)).event }
        ensures after { state_of self.new
            ≡ (repeated C.core conditions.now cluster.now.sent (state_of self.old)).after }
    {
        let seen = self.seen;
        if seen == 0 {
            return None;
        }
        let back = u64::from(self.words.next_word()) % seen.min(WINDOW);
        let number = self.chosen(conditions, cluster, seen - 1 - back);
        Some(Event::Deliver(number))
    }

    fn take_up<C: Exclusion>(
        &mut self,
        conditions: &Conditions,
        cluster: &Cluster<C>,
    ) -> Option<Event>
        requires { is_empty self.old.flying.items ≡ false }
        ensures event { result
            ≡ (taken_up C.core conditions.now cluster.now.sent (state_of self.old)).event }
        ensures after { state_of self.new
            ≡ (taken_up C.core conditions.now cluster.now.sent (state_of self.old)).after }
    {
        let word = self.words.next_word();
        let drawn = drawn_of(word, self.flying.as_slice());
        let number = self.chosen(conditions, cluster, drawn);
        take(&mut self.flying, number);
        if byte_of(self.words.next_word()) < conditions.loss {
            None
        } else {
            Some(Event::Deliver(number))
        }
    }

    fn chosen<C: Exclusion>(
        &self,
        conditions: &Conditions,
        cluster: &Cluster<C>,
        number: u64,
    ) -> u64
        ensures { result ≡ chosen C.core conditions.now cluster.now.sent self.now.flying.items
            number }
    {
        if conditions.in_order {
            oldest_beside(cluster, self.flying.as_slice(), number)
        } else {
            number
        }
    }
}

fn is_delivery(chance: u32, is_calm: bool) -> bool
    ensures { result ≡ is_delivery chance is_calm }
{
    !is_calm && chance >= DELIVERIES.0 && chance < DELIVERIES.1
}

/// Returns the lowest eight bits of a word as a number, with the lowest six above the other two.
fn byte_of(word: u32) -> u64
    ensures { result ≡ byte_of word }
{
    u64::from(word % 64 * 4 + word / 64 % 4)
}
