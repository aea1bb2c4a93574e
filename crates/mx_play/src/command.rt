//! `play`, from the names of its files to the exit status.

ghost use Rattle.std.specs.Prelude.{◌≡◌, ◌≢◌, false, true};
ghost use Rattle.mx_cli.specs.Frames.{IsRunStatus};
ghost use Rattle.mx_cli.specs.Reports.{seen};
ghost use Rattle.mx_cli.specs.Requests.{text_of};
ghost use Rattle.mx_play.specs.Played.{IsPlayedBy, Plays};
ghost use Rattle.mx_play.specs.AskedFiles.{AsksStart};
ghost use Rattle.mx_play.specs.Reasons.{CanBeRead};
ghost use Rattle.mx_play.specs.Stops.{AreReadableLines};

use crate::line_sources::Lines;
use crate::session_by_plan::run_by_plan;
use crate::session_files::fetch_start;
use mx_cli::{FileNames, PlanAndText, close};
use mx_io::{Output, Source, Store};
use std::alloc::Global;

/// Plays a session of the plan of this name, on these lines. The lines of the script come first, if
/// one is named. Stores what the session saves, and returns the exit status.
pub fn play<S: Source, L: Lines, W: Store, O: Output, E: Output>(
    alloc: Global,
    plan: &str,
    script: Option<&str>,
    source: &mut S,
    lines: &mut L,
    store: &mut W,
    out: &mut O,
    err: &mut E,
) -> u8
    ensures played { Plays (S.told source.old) (L.rest lines.old) plan.now (text_of script.entry)
        (seen O.Output E.Output out.old err.old) (seen O.Output E.Output out.new err.new)
        (W.stored store.old) (W.stored store.new) result }
    ensures stops { O.takes_all out.old ≡ true → E.takes_all err.old ≡ true
        → CanBeRead (S.told source.old) (L.rest lines.old) (L.readable lines.old)
        plan.now (text_of script.entry) → result ≢ 1 }
    ensures asks { AsksStart plan.now (text_of script.entry)
        (S.asked source.old) (S.asked source.new) }
{
    match fetch_start(alloc, plan, script, source, lines) {
        Ok(start) => play_and_close(alloc, plan, &start, lines, store, out, err),
        Err(stop) => {
            let events = script.unwrap_or("-");
            close(alloc, Err(stop), &FileNames { plan, events }, out, err)
        }
    }
}

fn play_and_close<L: Lines, W: Store, O: Output, E: Output>(
    alloc: Global,
    plan: &str,
    start: &PlanAndText,
    lines: &mut L,
    store: &mut W,
    out: &mut O,
    err: &mut E,
) -> u8
    ensures played { result ≡ 0 → IsPlayedBy start.now.plan start.now.text.items
        (L.rest lines.old) (seen O.Output E.Output out.old err.old)
        (seen O.Output E.Output out.new err.new)
        (W.stored store.old) (W.stored store.new) start.now.plan.shape }
    ensures passed { result ≡ 0 → O.keeps_back out.new ≡ false }
    ensures status { IsRunStatus result }
    ensures stops { O.takes_all out.old ≡ true → E.takes_all err.old ≡ true
        → AreReadableLines (L.readable lines.old) → result ≢ 1 }
{
    let names = FileNames { plan, events: "-" };
    let ended = run_by_plan(alloc, start, lines, store, out, err);
    close(alloc, ended, &names, out, err)
}
