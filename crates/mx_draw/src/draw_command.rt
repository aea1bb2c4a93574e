//! The command `draw`.

ghost use Rattle.std.specs.Prelude.{◌≡◌, ◌≤◌, ◌^◌, [], Ok, string_bytes, IfOk};
ghost use Rattle.mx_plan.specs.Events.{events_at};
ghost use Rattle.mx_plan.specs.Fields.{IsPlan};
ghost use Rattle.mx_format.specs.Files.{file_text, events_of};
ghost use Rattle.mx_event_files.specs.Played.{IsEventFile, IsFileOf};
ghost use Rattle.mx_draw.specs.Runs.{after_run, schedule_of};
ghost use Rattle.mx_draw.specs.Drawn.{IsDraw, LeadsAs, drawn_events, drawn_file, parcels_in};

use crate::random_run::run;
use mx_cli::{Command, RandomRun, Stop, print};
use mx_driver::by_shape;
use mx_format::file_of;
use mx_io::Output;
use mx_network::Cluster;
use mx_nodelaws::Exclusion;
use mx_plan::Plan;
use mx_stamps::MAX_EVENTS;
use std::alloc::{AllocError, Global};

/// `draw`: prints the events of a random run as a file. Each delivery has the number of its parcel,
/// and a step without an event is left out. A replay of the file does the same to the cluster.
#[derive(Clone, Copy)]
pub struct Draw(pub RandomRun);

impl Command for Draw {
    ghost reports = { λ d. IsDraw d.0 };

    fn run<O: Output>(
        &self,
        alloc: Global,
        plan: &Plan,
        _text: &[u8],
        out: &mut O,
    ) -> Result<u8, Stop> {
        match file_of_run(alloc, plan, &self.0) {
            Ok(file) => print(file.as_bytes(), 0, out),
            Err(_) => Err(Stop::Memory),
        }
    }
}

/// Proves that a replay of the file that `draw` prints of a schedule leads to the cluster that
/// `explore` judges: the same members, parcels and trace. It assumes at most 1,000,000 steps and
/// 2^64 parcels. Does nothing.
pub fn replays_as_explored(plan: &Plan, seed: u64, steps: u64)
    ensures reads { IsPlan plan.now → steps ≤ MAX_EVENTS
        → parcels_in plan.now (schedule_of seed steps) plan.now.shape ≤ 2 ^ 64
        → events_at plan.now (drawn_file plan.now (schedule_of seed steps))
        ≡ Ok (drawn_events plan.now (schedule_of seed steps) plan.now.shape) }
    ensures leads { LeadsAs plan.now (schedule_of seed steps)
        (drawn_events plan.now (schedule_of seed steps) plan.now.shape) plan.now.shape }
{
    // for the prover: the calls show that a plan has nodes and registers
    let _ = plan.nodes();
    let _ = plan.registers();
}

fn file_of_run(alloc: Global, plan: &Plan, drawn: &RandomRun) -> Result<String, AllocError>
    ensures file { IfOk result (λ file. IsEventFile plan.now (string_bytes file) plan.now.shape) }
    ensures drawn { IfOk result (λ file. string_bytes file ≡ drawn_file plan.now drawn.now) }
{
    by_shape!(
        alloc,
        plan,
        |cluster| file_after(alloc, plan, cluster, drawn)
    )
}

fn file_after<C: Exclusion>(
    alloc: Global,
    plan: &Plan,
    mut cluster: Cluster<C>,
    drawn: &RandomRun,
) -> Result<String, AllocError>
    requires { cluster.trace ≡ [] }
    ensures file { IfOk result (λ file.
        IsFileOf C.core plan.now cluster (string_bytes file)) }
    ensures drawn { IfOk result (λ file. string_bytes file ≡ file_text plan.now
        (events_of (after_run C.core plan.now drawn.now cluster).trace)) }
{
    run(alloc, plan, &mut cluster, drawn)?;
    file_of(alloc, plan, cluster.trace())
}
