//! `picture --trace`: a trace is judged, and drawn.

ghost use Rattle.std.specs.Prelude.{false, string_bytes, IfOk};
ghost use Rattle.mx_cli.specs.Printing.{Prints, sight};
ghost use Rattle.mx_cli.specs.Requests.{part_of};
ghost use Rattle.mx_judge.specs.Judged.{IsVerdictOf, judgement_text};
ghost use Rattle.mx_judge.specs.Listed.{listed};
ghost use Rattle.mx_picture.specs.Drawn.{IsTracePicture};
ghost use Rattle.mx_picture.specs.TracePictures.{IsTraceDrawn, IsTracePictured, IsTraceShown};

use crate::command::part_of;
use crate::marked::marked_by;
use crate::opening::Title;
use crate::page::page_of;
use crate::part::ShownPart;
use crate::trace_drawing::draw_trace;
use mx_cli::{Command, PicturePart, Stop, print};
use mx_explorer::{Verdict, judge, verdict_status};
use mx_io::Output;
use mx_judge::{Trace, judgement_of, place_word, trace_in};
use mx_plan::Plan;
use std::alloc::{AllocError, Global};

/// `picture` with `--trace`: a picture of the trace in the text, with a mark at the event that
/// breaks a rule. The status is 0 if the trace is sound, and 4 if it is broken.
#[derive(Clone, Copy)]
pub struct TracePicture<'a>(pub PicturePart<'a>);

impl Command for TracePicture<'_> {
    ghost reports = { λ c p text. IsTracePictured (part_of c.0) p text };

    fn run<O: Output>(
        &self,
        alloc: Global,
        plan: &Plan,
        text: &[u8],
        out: &mut O,
    ) -> Result<u8, Stop> {
        match part_of(alloc, plan, &self.0, false) {
            Ok(part) => draw_text(alloc, plan, &part, text, out),
            Err(stop) => Err(stop),
        }
    }
}

fn draw_text<O: Output>(
    alloc: Global,
    plan: &Plan,
    part: &ShownPart,
    text: &[u8],
    out: &mut O,
) -> Result<u8, Stop>
    ensures prints { Prints (IsTraceDrawn plan.now text.now)
        (sight O.Output out.old) (sight O.Output out.new) result }
{
    match trace_in(alloc, plan, text) {
        Ok(trace) => print_trace(alloc, plan, part, place_word(text), &trace, out),
        Err(stop) => Err(stop),
    }
}

fn print_trace<O: Output>(
    alloc: Global,
    plan: &Plan,
    part: &ShownPart,
    word: &str,
    trace: &Trace,
    out: &mut O,
) -> Result<u8, Stop>
    ensures prints { Prints (IsTraceShown plan.now word.now (listed trace.now))
        (sight O.Output out.old) (sight O.Output out.new) result }
{
    let verdict = judge(trace.entries.as_slice());
    match picture_of(alloc, plan, part, word, trace, verdict) {
        Ok(page) => print(page.as_bytes(), verdict_status(verdict), out),
        Err(_) => Err(Stop::Memory),
    }
}

fn picture_of(
    alloc: Global,
    plan: &Plan,
    part: &ShownPart,
    word: &str,
    trace: &Trace,
    verdict: Verdict,
) -> Result<String, AllocError>
    ensures { IsVerdictOf (listed trace.now).entries verdict → IfOk result (λ page.
        IsTracePicture plan.now
        (judgement_text false plan.now word.now (listed trace.now) verdict)
        (string_bytes page)) }
{
    let judgement = judgement_of(alloc, false, plan, word, trace, verdict)?;
    let marked = marked_by(alloc, plan, word, trace, verdict)?;
    let rows = draw_trace(alloc, plan, part, trace, marked)?;
    page_of(plan, &Title::Trace(judgement.as_str(), verdict), &rows)
}
