//! Two replicas, each with a journal, were apart for a while. The left one asks the right one for
//! the records that it lacks, and the right one merges the left journal: then both have all
//! records. At the end, a journal with a different record of one section is not merged.
#![tactic(auto)]

use anyhow::{Result, bail};
use mx_journal::{Journal, Record, Write};
use mx_merge::{answer, merge, missing};
use mx_registers::view;
use mx_stamps::NodeId;
use std::alloc::Global;

fn record(number: u64, value: u64) -> Record {
    let mut record = Record::default();
    record.number = number;
    record.node = NodeId::default();
    if record.writes.is_empty() {
        record.writes.push(Write { register: 0, value });
    }
    record
}

/// Returns a journal of the sections of these numbers. Each wrote ten times its number.
fn journal_of(alloc: Global, numbers: &[u64]) -> Result<Journal> {
    let mut journal = Journal::new(alloc);
    for number in numbers {
        journal.put(record(*number, number.saturating_mul(10)))?;
    }
    Ok(journal)
}

fn tell(rt: &HostRuntime, name: &str, journal: &Journal) -> Result<()> {
    let registers = view(journal, 1);
    let gapless = journal.gapless_to();
    println!(rt;
        "{name}: {} records, without gaps up to {gapless}",
        journal.len()
    )?;
    if let Some(value) = registers.value(0) {
        println!(rt; "  register 0 is {value}")?;
    }
    Ok(())
}

/// Asks the other journal once for the sections that `journal` lacks up to `upto`, and puts the
/// records that come back, at most four.
fn catch_up(rt: &HostRuntime, journal: &mut Journal, other: &Journal, upto: u64) -> Result<()> {
    let wanted = missing(journal, upto);
    let sent = answer(other, wanted.as_slice());
    let new = journal.put_all(sent.as_slice())?;
    println!(rt; "{} ranges were missing, {new} records came", wanted.len())?;
    Ok(())
}

fn exchange(rt: &HostRuntime, left: &mut Journal, right: &mut Journal) -> Result<()> {
    tell(rt, "left", left)?;
    catch_up(rt, left, right, 7)?;
    tell(rt, "left", left)?;
    let added = merge(right, left)?;
    println!(rt; "{added} records merged")?;
    tell(rt, "right", right)
}

fn refuse_forged(rt: &HostRuntime, journal: &mut Journal) -> Result<()> {
    let mut forged = Journal::new(rt.alloc());
    forged.put(record(2, 99))?;
    match merge(journal, &forged) {
        Ok(_) => bail!("two records bear 2"),
        Err(fault) => println!(rt; "not merged: {fault}")?,
    }
    Ok(())
}

fn main(rt: HostRuntime) -> Result<()> {
    let mut left = journal_of(rt.alloc(), &[1, 2, 5, 7])?;
    let mut right = journal_of(rt.alloc(), &[2, 3, 4, 6])?;
    exchange(&rt, &mut left, &mut right)?;
    refuse_forged(&rt, &mut right)
}
