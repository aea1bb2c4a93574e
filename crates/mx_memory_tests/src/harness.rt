//! The harness of calls that may be refused memory: each is made, and after a refusal, if nothing
//! has changed, made again. What a call returns is what its clauses say. A line that cannot be
//! printed is missing from the program's output, which is compared.

use crate::bench::{Bench, make, set_up, state_of};
use crate::jobs::new_run;
use crate::table::{Call, Row};
use anyhow::{Result, bail};
use mx_jobs::Host;

#[derive(Clone, Copy, PartialEq, Eq)]
pub(crate) enum Outcome {
    Done,
    /// Memory was refused, and nothing may have changed.
    Refused,
    /// Memory was refused to the rest of the call, whose first part remains.
    Partly,
    /// Turns were spent, since memory was refused to each of them.
    Spent,
    /// Another fault, or another value than the right one.
    Wrong,
}

use Outcome::{Done, Partly, Refused, Spent, Wrong};

pub(crate) fn done(holds: bool) -> Outcome {
    if holds { Done } else { Wrong }
}

/// Returns the outcome of a call whose fault, if any, is that memory ran out, or not.
pub(crate) fn ended(for_memory: Option<bool>) -> Outcome {
    match for_memory {
        None => Done,
        Some(true) => Refused,
        Some(false) => Wrong,
    }
}

pub(crate) fn expect(name: &str, holds: bool) -> Result<()> {
    if !holds {
        bail!("{name} is not as it should be");
    }
    Ok(())
}

/// Does what a row says with the call of this name.
pub(crate) fn step<R: Host>(
    rt: &HostRuntime,
    threads: &R,
    bench: &mut Bench,
    name: &str,
    call: Call,
    row: Row,
) -> Result<()> {
    if !set_up(bench, row)? {
        return Ok(());
    }
    let before = state_of(bench)?;
    let new = new_run(bench.alloc, &bench.shape)?;
    let _ = println!(rt; "call {name}");
    let mut outcome = make(threads, bench, new, call, row, false);
    let _ = println!(rt; "back");
    if outcome == Refused || outcome == Partly {
        let _ = println!(rt; "refused {name}");
        expect(name, row.takes_memory())?;
        expect(name, outcome == Partly || state_of(bench)? == before)?;
    }
    if outcome == Refused || outcome == Partly || outcome == Spent {
        let new = new_run(bench.alloc, &bench.shape)?;
        outcome = make(threads, bench, new, call, row, true);
    }
    expect(name, outcome == Done)
}
