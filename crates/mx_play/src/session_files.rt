//! The files of a session: its plan, and a script whose lines come first.

ghost use Rattle.std.specs.Prelude.{◌≡◌, true, IfOk};
ghost use Rattle.mx_cli.specs.Reading.{is_dash};
ghost use Rattle.mx_cli.specs.Requests.{text_of};
ghost use Rattle.mx_io.specs.Told.{Asks};
ghost use Rattle.mx_play.specs.Lines.{AreLeft, session_lines};
ghost use Rattle.mx_play.specs.Played.{IsLinePlan, IsPlanNamed, IsScriptOf, told_of_script};
ghost use Rattle.mx_play.specs.AskedFiles.{AsksStart, file_of, files_in};
ghost use Rattle.mx_play.specs.Stops.{AreReadableLines, OnlyMemory};
ghost use Rattle.mx_play.specs.Reasons.{CanBeRead, IsLineStated, IsPlanStated, IsStated};

use crate::line_sources::{LineRead, Lines};
use mx_cli::{Fault, Named, PlanAndText, Stop, fetch, fetch_plan, plan_in};
use mx_io::Source;
use mx_plan::{Needs, Plan};
use std::alloc::Global;

pub(crate) fn fetch_start<S: Source, L: Lines>(
    alloc: Global,
    plan: &str,
    script: Option<&str>,
    source: &mut S,
    lines: &mut L,
) -> Result<PlanAndText, Stop>
    ensures plan { IfOk result (λ start.
        IsPlanNamed (S.told source.old) plan.now (L.rest lines.old) start.plan) }
    ensures left { IfOk result (λ _.
        AreLeft (session_lines (is_dash plan.now) (L.rest lines.old))
        (L.rest lines.new)) }
    ensures script { IfOk result (λ start. IsScriptOf
        (told_of_script (S.told source.old) (text_of script.entry)) start.text.items) }
    ensures stops { CanBeRead (S.told source.old) (L.rest lines.old) (L.readable lines.old)
        plan.now (text_of script.entry) → OnlyMemory result }
    ensures readable { AreReadableLines (L.readable lines.old)
        → IfOk result (λ _. AreReadableLines (L.readable lines.new)) }
    ensures asks { AsksStart plan.now (text_of script.entry)
        (S.asked source.old) (S.asked source.new) }
{
    let plan = plan_of(alloc, plan, source, lines)?;
    let text = script_of(alloc, script, source)?;
    Ok(PlanAndText { plan, text })
}

fn plan_of<S: Source, L: Lines>(
    alloc: Global,
    name: &str,
    source: &mut S,
    lines: &mut L,
) -> Result<Plan, Stop>
    ensures named { IfOk result (IsPlanNamed (S.told source.old) name.now (L.rest lines.old)) }
    ensures left { IfOk result (λ _.
        AreLeft (session_lines (is_dash name.now) (L.rest lines.old)) (L.rest lines.new)) }
    ensures stops { AreReadableLines (L.readable lines.old)
        → IsPlanStated (is_dash name.now) (S.told source.old name.now) (L.rest lines.old)
        → OnlyMemory result }
    ensures readable { AreReadableLines (L.readable lines.old)
        → IfOk result (λ _. AreReadableLines (L.readable lines.new)) }
    ensures stays { S.told source.new ≡ S.told source.old }
    ensures asks { Asks (S.asked source.old) (S.asked source.new) (file_of name.now) }
{
    if is_dash(name) {
        first_plan(alloc, lines)
    } else {
        fetch_plan(alloc, source, name, Needs::All)
    }
}

fn first_plan<L: Lines>(alloc: Global, lines: &mut L) -> Result<Plan, Stop>
    ensures plan { IfOk result (IsLinePlan (L.rest lines.old)) }
    ensures left { IfOk result (λ _.
        AreLeft (session_lines true (L.rest lines.old)) (L.rest lines.new)) }
    ensures stops { AreReadableLines (L.readable lines.old)
        → IsLineStated (L.rest lines.old) → OnlyMemory result }
    ensures readable { AreReadableLines (L.readable lines.old)
        → IfOk result (λ _. AreReadableLines (L.readable lines.new)) }
{
    let mut line = Vec::new(alloc);
    match lines.next(&mut line)? {
        LineRead::Line | LineRead::End => plan_in(alloc, line.as_slice(), Needs::All),
        LineRead::TooLong | LineRead::Unreadable => Err(Stop::Fault(Fault::CannotRead(
            Named::Plan,
        ))),
    }
}

/// Returns the bytes of the script. There are none if no script is named, or if it is `-`, standard
/// input, since its lines are read later.
fn script_of<S: Source>(alloc: Global, name: Option<&str>, source: &mut S) -> Result<Vec<u8>, Stop>
    ensures script { IfOk result (λ text. IsScriptOf (told_of_script (S.told source.old)
        (text_of name.entry)) text.items) }
    ensures stops { IsStated (told_of_script (S.told source.old) (text_of name.entry))
        → OnlyMemory result }
    ensures asks { Asks (S.asked source.old) (S.asked source.new) (files_in (text_of name.entry)) }
{
    let Some(name) = name else {
        return Ok(Vec::new(alloc));
    };
    if is_dash(name) {
        return Ok(Vec::new(alloc));
    }
    fetch(alloc, source, name, Named::Events)
}

fn is_dash(name: &str) -> bool
    ensures { result ≡ is_dash name.now }
{
    name == "-"
}
