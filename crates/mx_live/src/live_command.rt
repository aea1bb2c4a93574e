//! The command `live`: runs the nodes of a plan in threads, prints their merged journal, and
//! returns the exit status.

ghost use Rattle.std.specs.Prelude.{◌≡◌, ◌⊎◌, ◌∷◌, [], Option, false, length, IfErr, IfSome, OnErr, OnOk};
ghost use Rattle.std.specs.Io.KnownBytes.{Appends, Keeps};
ghost use Rattle.mx_cli.specs.Table.{mx_app};
ghost use Rattle.mx_cli.specs.Words.{texts_of};
ghost use Rattle.mx_cli.specs.Requests.{AskNothing, request_asked, request_of};
ghost use Rattle.mx_cli.specs.Reports.{Declines, HelpsOrRefuses, seen};
ghost use Rattle.mx_io.specs.Told.{Asks, Telling};
ghost use Rattle.mx_live.specs.LiveErrors.{Fails};
ghost use Rattle.mx_live.specs.Shown.{live_text};
ghost use Rattle.mx_cli.specs.Reading.{IsPlanTold};
ghost use Rattle.mx_live.specs.Lives.{AsksLive, Ends, Lives, LivesAs};
ghost use Rattle.mx_live.specs.Progress.{TellsProgress};

use crate::live_error::{LiveError, report_error, unread_error};
use crate::live_text::add_journal;
use crate::node_runs::live_by_shape;
use mx_cli::{LiveOptions, Request, Task, fetch_plan, parse, refuse};
use mx_io::{Output, Source};
use mx_jobs::Host;
use mx_plan::{Needs, Plan};
use mx_stations::Gathered;
use std::alloc::Global;

/// Runs a command line that asks for `live`, without the program's name, and returns the exit
/// status. For all other requests, writes nothing and returns 2. Of the threads, the contract says
/// only that workers may leave stations that lead to this status, not that threads left them. The
/// stations of the threads are returned by `run_stations`.
pub fn live<R: Host, S: Source, O: Output, E: Output>(
    rt: &R,
    alloc: Global,
    words: &[&str],
    source: &mut S,
    out: &mut O,
    err: &mut E,
) -> u8
    ensures lives { IfSome (request_asked (texts_of words.entry.now)) (λ request.
        LivesAs (S.told source.old) request (O.takes_all out.old) (E.takes_all err.old)
        (seen O.Output E.Output out.old err.old) (seen O.Output E.Output out.new err.new) result) }
    ensures answers { HelpsOrRefuses mx_app (texts_of words.entry.now) (O.takes_all out.old)
        (seen O.Output E.Output out.old err.old) (seen O.Output E.Output out.new err.new) result }
    ensures other { AskNothing (texts_of words.entry.now) → Declines
        (seen O.Output E.Output out.old err.old) (seen O.Output E.Output out.new err.new) result }
    ensures asks { IfSome (request_asked (texts_of words.entry.now)) (λ request.
        AsksLive request (S.asked source.old) (S.asked source.new)) }
{
    match parse(alloc, words) {
        Ok(Some(request)) => carry_out(rt, alloc, &request, source, out, err),
        Ok(None) => 2,
        Err(e) => refuse(alloc, &e, out, err),
    }
}

fn carry_out<R: Host, S: Source, O: Output, E: Output>(
    rt: &R,
    alloc: Global,
    request: &Request<'_>,
    source: &mut S,
    out: &mut O,
    err: &mut E,
) -> u8
    ensures lives { LivesAs (S.told source.old) (request_of request.now)
        (O.takes_all out.old) (E.takes_all err.old)
        (seen O.Output E.Output out.old err.old) (seen O.Output E.Output out.new err.new) result }
    ensures asks { AsksLive (request_of request.now) (S.asked source.old) (S.asked source.new) }
{
    match request {
        Request::Task(files, Task::Live(options)) => {
            run_live(rt, alloc, files.plan, options, source, out, err)
        }
        _ => 2,
    }
}

/// Runs the nodes of the plan of this name in threads, prints their merged journal, and returns the
/// exit status.
pub fn run_live<R: Host, S: Source, O: Output, E: Output>(
    rt: &R,
    alloc: Global,
    plan: &str,
    options: &LiveOptions,
    source: &mut S,
    out: &mut O,
    err: &mut E,
) -> u8
    ensures lives { Lives (O.takes_all out.old) (E.takes_all err.old)
        (S.told source.old plan.now) plan.now options.now
        (seen O.Output E.Output out.old err.old) (seen O.Output E.Output out.new err.new) result }
    ensures asks { Asks (S.asked source.old) (S.asked source.new) (plan.now ∷ []) }
{
    match live_and_show(rt, alloc, plan, options, source, out, err) {
        Ok(()) => 0,
        Err(error) => report_error(alloc, error, plan, err),
    }
}

fn live_and_show<R: Host, S: Source, O: Output, E: Output>(
    rt: &R,
    alloc: Global,
    plan: &str,
    options: &LiveOptions,
    source: &mut S,
    out: &mut O,
    err: &mut E,
) -> Result<(), LiveError>
    ensures ends { Ends (O.takes_all out.old) (S.told source.old plan.now) options.now
        (O.written out.old) (O.written out.new) (O.keeps_back out.new) result }
    ensures progress { TellsProgress options.now.progress
        (E.written err.old) (E.written err.new) }
    ensures stays { E.takes_all err.new ≡ E.takes_all err.old }
    ensures asks { Asks (S.asked source.old) (S.asked source.new) (plan.now ∷ []) }
{
    match fetch_plan(alloc, source, plan, Needs::All) {
        Ok(plan) => live_plan(rt, alloc, &plan, options, out, err),
        Err(stop) => Err(unread_error(stop)),
    }
}

fn live_plan<R: Host, O: Output, E: Output>(
    rt: &R,
    alloc: Global,
    plan: &Plan,
    options: &LiveOptions,
    out: &mut O,
    err: &mut E,
) -> Result<(), LiveError>
    ensures ends { (told : Option Telling) → IsPlanTold told plan.now
        → Ends (O.takes_all out.old) told options.now
        (O.written out.old) (O.written out.new) (O.keeps_back out.new) result }
    ensures progress { TellsProgress options.now.progress
        (E.written err.old) (E.written err.new) }
    ensures stays { E.takes_all err.new ≡ E.takes_all err.old }
{
    if u64::from(plan.nodes()).saturating_mul(options.sections) > plan.sections() {
        return Err(LiveError::TooFewSections);
    }
    let gathered = live_by_shape(rt, alloc, plan, options, err)?;
    show(alloc, plan, &gathered, out)
}

fn show<O: Output>(
    alloc: Global,
    plan: &Plan,
    gathered: &Gathered,
    out: &mut O,
) -> Result<(), LiveError>
    ensures ok { OnOk result (Appends (O.written out.old) (O.written out.new)
        (live_text plan.now (length gathered.now.receipts.items) gathered.now.journal)) }
    ensures passed { OnOk result (O.keeps_back out.new ≡ false) }
    ensures err { IfErr result (Fails (O.takes_all out.old)) }
    ensures whole { OnErr result (Keeps (O.written out.old) (O.written out.new)
        ⊎ Appends (O.written out.old) (O.written out.new)
        (live_text plan.now (length gathered.now.receipts.items) gathered.now.journal)) }
{
    let mut text = String::new(alloc);
    let receipts = gathered.receipts.len() as u64;
    add_journal(plan, receipts, &gathered.journal, &mut text)?;
    out.put(text.as_bytes())?;
    out.flush()?;
    Ok(())
}
