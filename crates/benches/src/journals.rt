//! Times the journal against a plain `BTreeMap`: puts in order, in reverse and in a seeded shuffle,
//! and merges of two halves. Also times puts in order into a journal that is settled at intervals.

use anyhow::{Result, bail};
use mx_journal::{Journal, Record, Write};
use mx_merge::merge;
use mx_stamps::NodeId;
use rand_core::utils::NextWord;
use rand_pcg::Pcg32;
use std::alloc::{AllocError, Global};
use std::collections::BTreeMap;
use std::time::Instant;

fn entry(number: u64) -> Record {
    let mut record = Record::default();
    record.number = number;
    record.node = NodeId::default();
    if record.writes.is_empty() {
        record.writes.push(Write {
            register: 0,
            value: number,
        });
    }
    record
}

fn ascending(alloc: Global, records: u64) -> Result<Vec<u64>> {
    let mut numbers = Vec::new(alloc);
    for number in 0..records {
        if number < u64::MAX {
            numbers.push(number + 1)?;
        }
    }
    Ok(numbers)
}

/// Swaps each number with one at or before it, drawn by seed (Fisher and Yates).
fn shuffle(numbers: &mut [u64], seed: u64) {
    let mut draw = Pcg32::new(seed, 54);
    for place in 0..numbers.len() {
        let other = draw.next_word() as usize % (place + 1);
        numbers.swap(place, other);
    }
}

fn put_each(alloc: Global, numbers: &[u64]) -> Result<Journal> {
    let mut journal = Journal::new(alloc);
    for number in numbers {
        if journal.put(entry(*number)).is_err() {
            bail!("a record was refused");
        }
    }
    Ok(journal)
}

fn insert_each(alloc: Global, numbers: &[u64]) -> Result<usize> {
    let mut map = BTreeMap::new(alloc);
    for number in numbers {
        let _ = map.insert(*number, entry(*number))?;
    }
    Ok(map.len())
}

/// Puts records into a journal, and returns how many and in how many milliseconds.
fn timed_puts(rt: &HostRuntime, numbers: &[u64]) -> Result<(usize, u128)> {
    let begun = Instant::now(rt)?;
    let put = put_each(rt.alloc(), numbers)?.len();
    Ok((put, begun.elapsed(rt)?.as_millis()))
}

fn timed_inserts(rt: &HostRuntime, numbers: &[u64]) -> Result<(usize, u128)> {
    let begun = Instant::now(rt)?;
    let len = insert_each(rt.alloc(), numbers)?;
    Ok((len, begun.elapsed(rt)?.as_millis()))
}

fn time_puts(rt: &HostRuntime, name: &str, numbers: &[u64]) -> Result<()> {
    let (put, took) = timed_puts(rt, numbers)?;
    let (len, map_took) = timed_inserts(rt, numbers)?;
    println!(rt; "{name}: {put} records, journal {took} ms; {len} in a map, {map_took} ms")?;
    Ok(())
}

fn tell_merge(rt: &HostRuntime, name: &str, journal: &mut Journal, other: &Journal) -> Result<()> {
    let begun = Instant::now(rt)?;
    let merged = merge(journal, other).is_ok();
    let took = begun.elapsed(rt)?.as_millis();
    println!(rt; "merge of {name}: {merged}, {took} ms")?;
    Ok(())
}

fn time_merge(rt: &HostRuntime, name: &str, into: &[u64], from: &[u64]) -> Result<()> {
    let mut journal = put_each(rt.alloc(), into)?;
    let other = put_each(rt.alloc(), from)?;
    tell_merge(rt, name, &mut journal, &other)
}

fn of_parity(alloc: Global, numbers: &[u64], is_odd: bool) -> Result<Vec<u64>, AllocError> {
    let mut found = Vec::new(alloc);
    for number in numbers {
        if (*number % 2 == 1) == is_odd {
            found.push(*number)?;
        }
    }
    Ok(found)
}

fn time_parities(rt: &HostRuntime, numbers: &[u64]) -> Result<()> {
    let even = of_parity(rt.alloc(), numbers, false)?;
    let odd = of_parity(rt.alloc(), numbers, true)?;
    time_merge(rt, "odd into even numbers", even.as_slice(), odd.as_slice())
}

/// Merges odd numbers into even ones, and the greater half into the lesser.
fn time_merges(rt: &HostRuntime, numbers: &[u64]) -> Result<()> {
    time_parities(rt, numbers)?;
    let (lesser, greater) = numbers.split_at(numbers.len() / 2);
    time_merge(rt, "the greater half into the lesser", lesser, greater)
}

fn time_orders(rt: &HostRuntime, numbers: &mut [u64], seed: u64) -> Result<()> {
    time_puts(rt, "in order", numbers)?;
    time_merges(rt, numbers)?;
    numbers.reverse();
    time_puts(rt, "in reverse", numbers)?;
    shuffle(numbers, seed);
    time_puts(rt, "shuffled", numbers)
}

pub(crate) fn time_journals(rt: &HostRuntime, records: u64, seed: u64) -> Result<()> {
    let mut numbers = ascending(rt.alloc(), records)?;
    time_orders(rt, numbers.as_mut_slice(), seed)
}

fn is_due(number: u64, every: u64) -> bool {
    every > 0 && number % every == 0
}

fn put_and_settle(alloc: Global, records: u64, every: u64) -> Result<Journal> {
    let mut journal = Journal::new(alloc);
    for last in 0..records {
        let number = last.saturating_add(1);
        if journal.put(entry(number)).is_err() {
            bail!("a record was refused");
        }
        if is_due(number, every) && journal.settle(number).is_err() {
            bail!("a journal without gaps was not settled");
        }
    }
    Ok(journal)
}

/// Prints up to which number a journal is settled, how many records it has above that, and how long
/// that took.
fn tell_settled(rt: &HostRuntime, journal: &Journal, every: u64, begun: Instant) -> Result<()> {
    let took = begun.elapsed(rt)?.as_millis();
    let base = journal.base().upto();
    let len = journal.len();
    println!(rt;
        "put in order, settled each {every}: base {base}, {len} records above it, {took} ms"
    )?;
    Ok(())
}

/// Times puts in order into a journal that is settled after each `every` of them, or never if that
/// is 0.
pub(crate) fn time_settling(rt: &HostRuntime, records: u64, every: u64) -> Result<()> {
    let begun = Instant::now(rt)?;
    let journal = put_and_settle(rt.alloc(), records, every)?;
    tell_settled(rt, &journal, every, begun)
}
