//! Reports how far a live run has come.

ghost use Rattle.std.specs.Prelude.{◌≡◌, ℕ, Some};
ghost use Rattle.mx_live.specs.Progress.{Progresses, TellsProgress, progress_line};

use crate::threads::NodeWorkers;
use mx_cli::write_line;
use mx_io::Output;
use mx_nodelaws::Exclusion;
use mx_stations::Watch;
use std::alloc::Global;
use std::fmt;
use std::rt::Clock;
use std::thread::sleep;
use std::time::Duration;

/// How often in a second `is_over` looks whether all workers have ended.
const LOOKS_A_SECOND: u32 = 20;

#[derive(Clone, Copy)]
struct ProgressLine(u64);

impl fmt::Display for ProgressLine {
    ghost output = { λ l. Some (progress_line l.0) };

    fn fmt<W: fmt::Write>(&self, f: &mut fmt::Formatter<W>) -> fmt::Result {
        writeln!(f, "mx: {} sections stand", self.0)
    }
}

pub(crate) fn report_if_asked<C: Exclusion, K: Clock, R, E: Output>(
    clock: &K,
    alloc: Global,
    asked: bool,
    watch: Option<Watch<C>>,
    workers: &NodeWorkers<C, R>,
    err: &mut E,
)
    ensures progress { TellsProgress asked (E.written err.old) (E.written err.new) }
    ensures stays { E.takes_all err.new ≡ E.takes_all err.old }
{
    if !asked {
        return;
    }
    if let Some(watch) = watch {
        report_progress(clock, alloc, &watch, workers, err);
    }
}

/// Prints the number of sections completed so far about once a second, until all workers have
/// ended. A line that cannot be written is skipped.
fn report_progress<C: Exclusion, K: Clock, R, E: Output>(
    clock: &K,
    alloc: Global,
    watch: &Watch<C>,
    workers: &NodeWorkers<C, R>,
    err: &mut E,
)
    ensures progress { (shown : ℕ) × Progresses shown (E.written err.old) (E.written err.new) }
    ensures stays { E.takes_all err.new ≡ E.takes_all err.old }
{
    let mut shown = 0;
    for _second in 0..u64::MAX {
        if is_over(clock, workers) {
            return;
        }
        shown = watch.sections().max(shown);
        let _ = write_line(alloc, err, ProgressLine(shown));
    }
}

/// Waits for a second, or until all workers have ended. Returns whether they have.
fn is_over<C: Exclusion, K: Clock, R>(clock: &K, workers: &NodeWorkers<C, R>) -> bool {
    for _look in 0..LOOKS_A_SECOND {
        if workers.has_ended() {
            return true;
        }
        sleep(clock, Duration::from_millis(50));
    }
    false
}
