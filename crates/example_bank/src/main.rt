//! A bank: five tellers, each a node in a separate thread, move money between eight accounts, which
//! are shared registers. The network loses some parcels and repeats others. The first section,
//! whichever node has it, pays in 800. After that no money is made or lost: this is a law of the
//! registers. Each section is proved to keep it, whatever the order of the sections.
#![tactic(auto)]

ghost use Rattle.std.specs.Prelude.{◌≡◌, ◌≢◌, ◌<◌, ◌+◌, ◌*◌, ◌^◌, IfOk, length, min, slice_index, sum};
ghost use Rattle.mx_jobs.specs.Laws.{contents_of};
ghost use Rattle.example_bank.specs.declared.TheConstants.{ACCOUNTS};

use anyhow::{Result, bail};
use arrayvec::ArrayVec;
use mx_explorer::Weather;
use mx_jobs::{Finished, Host, Job, RunOptions, Settings, contents, run, stations};
use mx_journal::Write;
use mx_maekawa::Maekawa;
use mx_quorums::Quorums;
use mx_raymond::Raymond;
use mx_ricart::{Count, Ricart};
use mx_trees::Tree;
use std::alloc::{AllocError, Global};

const TELLERS: u8 = 5;

const ACCOUNTS: u8 = 8;

const TRANSFERS: u64 = 1000;

/// How many parcels of 256 are lost, on average.
const LOST: u16 = 16;

/// How many parcels of 256 come twice, on average.
const TWICE: u16 = 16;

/// Bounds the turns of each node, so that the program ends in any case. A node settles after every
/// 50 of its sections, which keeps its journal short.
const OPTIONS: RunOptions = RunOptions {
    turns: 100_000_000,
    settle_every: 50,
};

const SETTINGS: Settings = Settings {
    origin: 0,
    sections: 10_000,
    registers: ACCOUNTS,
};

/// A teller, which moves money from account `from` to account `to`, in `left` more sections.
#[derive(Drop)]
struct Teller {
    from: u8,
    to: u8,
    left: u64,
    ghost apart: { from ≢ to },
}

impl Job for Teller {
    ghost use Rattle.std.specs.Prelude.{◌≡◌, ◌*◌, [], ◌∷◌, min, sum};
    ghost use Rattle.mx_jobs.specs.Terms.{no_terms};

    // a section reads two accounts; the law: all accounts have 800 together, or 0 before the first
    // section
    ghost terms = { record no_terms {
      asks_for = λ teller accounts. accounts ≡ teller.from ∷ teller.to ∷ [];
      holds = λ sections accounts. sum accounts ≡ 800 * min sections 1;
    } };

    fn asks(&self) -> Option<ArrayVec<u8, 8>> {
        if self.left == 0 {
            return None;
        }
        let mut accounts = ArrayVec::new();
        accounts.push(self.from);
        accounts.push(self.to);
        Some(accounts)
    }

    fn section(&mut self, number: u64, values: &[u64]) -> ArrayVec<Write, 8> {
        self.left = self.left.saturating_sub(1);
        let (from, to) = balances(number, values);
        let mut writes = ArrayVec::new();
        writes.push(Write {
            register: self.from,
            value: from,
        });
        writes.push(Write {
            register: self.to,
            value: to,
        });
        writes
    }
}

/// Returns the new balances of a teller's two accounts; section `number` reads the old ones,
/// `values`. Section 1 pays in 800; every other moves less than 50 from the first account to the
/// second.
fn balances(number: u64, values: &[u64]) -> (u64, u64)
    ensures first { number ≡ 1 → result.0 + result.1 ≡ 800 }
    ensures later { number ≢ 1
        → result.0 + result.1 ≡ slice_index values.now 0 + slice_index values.now 1 }
{
    if number == 1 {
        return (800, 0);
    }
    let from = value_at(values, 0);
    let to = value_at(values, 1);
    let amount = from.min(number % 50).min(u64::MAX - to);
    (from - amount, to + amount)
}

fn value_at(values: &[u64], place: usize) -> u64
    ensures { result ≡ slice_index values.now place }
{
    values.get(place).copied().unwrap_or(0)
}

fn tellers(alloc: Global) -> Result<Vec<Teller>, AllocError> {
    let mut all = Vec::new(alloc);
    for node in 0..TELLERS {
        all.push(Teller {
            from: node,
            to: node + 3,
            left: TRANSFERS,
        })?;
    }
    Ok(all)
}

/// Creates links to each node, which lose and repeat parcels at random, each from another seed.
fn links(alloc: Global) -> Result<Vec<Weather>, AllocError> {
    let mut all = Vec::new(alloc);
    for node in 0..TELLERS {
        all.push(Weather::of(u64::from(node), LOST, TWICE))?;
    }
    Ok(all)
}

/// Returns the sum of all accounts after a run. Fails if no section was left.
fn audit(all: &Finished<Teller>) -> Result<u64>
    requires { sum (contents_of ACCOUNTS all.now.gathered.journal)
        ≡ 800 * min (length all.now.gathered.receipts.items) 1 }
    ensures { IfOk result (λ total. total ≡ 800) }
{
    if all.gathered.receipts.is_empty() {
        bail!("no transfer");
    }
    let accounts = contents(&all.gathered.journal, ACCOUNTS);
    Ok(total(accounts.as_slice()))
}

fn total(values: &[u64]) -> u64
    requires { sum values.now < 2 ^ 64 }
    ensures { result ≡ sum values.now }
{
    values.iter().sum()
}

fn ricart<R: Host>(rt: &R, alloc: Global) -> Result<u64>
    ensures { IfOk result (λ total. total ≡ 800) }
{
    let Some(shape) = Count::of(TELLERS) else {
        bail!("no such cluster");
    };
    let stations = stations::<Ricart>(alloc, &shape, &SETTINGS)?;
    match run(rt, alloc, stations, tellers(alloc)?, links(alloc)?, OPTIONS) {
        Ok(all) => audit(&all),
        Err(left) => bail!("no end: {}", left.fault),
    }
}

fn maekawa<R: Host>(rt: &R, alloc: Global) -> Result<u64>
    ensures { IfOk result (λ total. total ≡ 800) }
{
    let shape = Quorums::grid(1, TELLERS)?;
    let stations = stations::<Maekawa>(alloc, &shape, &SETTINGS)?;
    match run(rt, alloc, stations, tellers(alloc)?, links(alloc)?, OPTIONS) {
        Ok(all) => audit(&all),
        Err(left) => bail!("no end: {}", left.fault),
    }
}

fn raymond<R: Host>(rt: &R, alloc: Global) -> Result<u64>
    ensures { IfOk result (λ total. total ≡ 800) }
{
    let shape = Tree::of(TELLERS, &[(0, 1), (0, 2), (1, 3), (1, 4)], 0)?;
    let stations = stations::<Raymond>(alloc, &shape, &SETTINGS)?;
    match run(rt, alloc, stations, tellers(alloc)?, links(alloc)?, OPTIONS) {
        Ok(all) => audit(&all),
        Err(left) => bail!("no end: {}", left.fault),
    }
}

fn main(rt: HostRuntime) -> Result<()> {
    let total = ricart(&rt, rt.alloc())?;
    println!(rt; "ricart: {total} in all accounts")?;
    let total = maekawa(&rt, rt.alloc())?;
    println!(rt; "maekawa: {total} in all accounts")?;
    let total = raymond(&rt, rt.alloc())?;
    println!(rt; "raymond: {total} in all accounts")?;
    Ok(())
}
