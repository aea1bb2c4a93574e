//! Each call of the libraries that may be refused memory, made while a program outside refuses it.
//! A line `call NAME` comes before such a call, and `back` after it. If it returned that memory ran
//! out, its promises are checked, `refused NAME` is printed, and the call is made again, which has
//! to succeed. Anything else ends the program with status 1. The file `stdout`, in which no call is
//! refused, refuses the mutant `always_out_of_memory`.
#![tactic(auto)]

mod bench;
mod harness;
mod jobs;
mod nodes;
mod stations;
mod table;
mod values;

use crate::bench::{Bench, new_bench, set_up};
use crate::harness::step;
use crate::table::{Call, Row, TABLE};
use anyhow::Result;
use mx_jobs::Host;

/// Makes a call as a row says: once, or on a new bench for each list of numbers in turn.
fn make_row<R: Host>(
    rt: &HostRuntime,
    threads: &R,
    bench: &mut Bench,
    name: &str,
    call: Call,
    row: Row,
) -> Result<()> {
    let Row::Lists(lists) = row else {
        return step(rt, threads, bench, name, call, row);
    };
    set_up(bench, Row::New)?;
    for numbers in lists {
        step(rt, threads, bench, name, call, Row::Numbers(*numbers))?;
    }
    Ok(())
}

fn make_all<R: Host>(rt: &HostRuntime, threads: &R, bench: &mut Bench) -> Result<()> {
    for (name, call, rows) in &TABLE {
        for row in *rows {
            make_row(rt, threads, bench, *name, *call, *row)?;
        }
    }
    Ok(())
}

fn main(rt: HostRuntime) -> Result<()> {
    let mut bench = new_bench(rt.alloc())?;
    make_all(&rt, &rt, &mut bench)
}
