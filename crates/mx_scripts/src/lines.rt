//! A line of a script, and what it does.

ghost use Rattle.std.specs.Prelude.{◌≡◌, ◌⊎◌, List, IfErr, IfOk, OnOk};
ghost use Rattle.mx_scripts.specs.Lines.{DoesText, IsNotDone, Misreads, Performs, ReadsLine, Repeats, StopsAfter, StopsWithin};
ghost use Rattle.mx_scripts.specs.States.{Brings, IsAllowed, IsNotApplied};
ghost use Rattle.mx_scripts.specs.Told.{IsTold, IsToldUnlessMemory};
ghost use Rattle.mx_scripts.specs.declared.state.SessionEvent.{SessionEvent};

use crate::expectation::compare_outcome;
use crate::line_failure::LineFailure;
use crate::recorder::Recorder;
use crate::state::{SessionEvent, State};
use mx_lines::{Line, LineFault, Order, ScriptLine, read_line, words_in};
use mx_nodelaws::Exclusion;
use mx_plan::Plan;
use std::alloc::Global;

/// Does what a line of a script asks for, and tells the recorder of each event. After an error only
/// a part of the line is done.
///
/// # Errors
///
/// `WrongWord` if a word is wrong, `Refused` if the line stops or the newest item has another
/// outcome than it expects, and `Memory` if memory runs out.
pub fn do_line<C: Exclusion, K: Recorder<State<C>>>(
    alloc: Global,
    plan: &Plan,
    line: &str,
    state: &mut State<C>,
    recorder: &mut K,
) -> Result<(), LineFailure>
    ensures ok { OnOk result ((es : List SessionEvent)
        × DoesText C.core plan.now line.now state.old es state.new
        × IsTold C.core (λ k. K.noted k plan.now) es state.old state.new
        recorder.old recorder.new) }
    ensures err { IfErr result (IsNotDone C.core plan.now line.now state.old) }
{
    match line_in(alloc, plan, line)? {
        ScriptLine::Does(line) => repeat(plan, &line, state, recorder),
        ScriptLine::Expects => compare_outcome(alloc, line, state.trace()),
        ScriptLine::Nothing => Ok(()),
    }
}

fn line_in(alloc: Global, plan: &Plan, line: &str) -> Result<ScriptLine, LineFailure>
    ensures ok { IfOk result (ReadsLine plan.now line.now) }
    ensures err { IfErr result (λ why.
        (why ≡ LineFailure.Memory) ⊎ Misreads plan.now line.now why) }
{
    let words = words_in(alloc, line)?;
    match read_line(plan, words.as_slice()) {
        Ok(line) => Ok(line),
        Err(error) => Err(LineFailure::WrongWord(error)),
    }
}

/// Does what a line asks for, as often as it says, and tells the recorder of each event. After an
/// error only a part of the line is done.
///
/// # Errors
///
/// `Refused` if the line stops, and `Memory` if memory runs out.
pub fn repeat<C: Exclusion, K: Recorder<State<C>>>(
    plan: &Plan,
    line: &Line,
    state: &mut State<C>,
    recorder: &mut K,
) -> Result<(), LineFailure>
    ensures ok { OnOk result ((es : List SessionEvent)
        × Repeats C.core line.now.order line.now.times state.old es state.new
        × IsTold C.core (λ k. K.noted k plan.now) es state.old state.new
        recorder.old recorder.new) }
    ensures err { IfErr result
        (StopsWithin C.core line.now.order line.now.times state.old) }
    ensures part { IfErr result (IsToldUnlessMemory C.core (λ k. K.noted k plan.now)
        state.old state.new recorder.old recorder.new) }
{
    for _count in 0..line.times {
        perform(plan, &line.order, state, recorder)?;
    }
    Ok(())
}

fn perform<C: Exclusion, K: Recorder<State<C>>>(
    plan: &Plan,
    order: &Order,
    state: &mut State<C>,
    recorder: &mut K,
) -> Result<(), LineFailure>
    ensures ok { OnOk result ((es : List SessionEvent)
        × Performs C.core order.now 0 state.old es state.new
        × IsTold C.core (λ k. K.noted k plan.now) es state.old state.new
        recorder.old recorder.new) }
    ensures err { IfErr result (λ why. (es : List SessionEvent)
        × StopsAfter C.core order.now 0 state.old es why) }
    ensures part { IfErr result (IsToldUnlessMemory C.core (λ k. K.noted k plan.now)
        state.old state.new recorder.old recorder.new) }
{
    for count in 0..u64::MAX {
        let next = state.next_event(order, count)?;
        match next {
            Some(event) => do_event(plan, &event, state, recorder)?,
            None => return Ok(()),
        }
    }
    Err(LineFailure::Refused(LineFault::TooMany))
}

fn do_event<C: Exclusion, K: Recorder<State<C>>>(
    plan: &Plan,
    event: &SessionEvent,
    state: &mut State<C>,
    recorder: &mut K,
) -> Result<(), LineFailure>
    requires { IsAllowed state.old event.now }
    ensures ok { OnOk result (Brings C.core state.old event.now state.new) }
    ensures noted { OnOk result
        (K.noted recorder.old plan.now event.now state.old state.new recorder.new) }
    ensures err { IfErr result (IsNotApplied C.core state.old event.now state.new) }
    ensures part { IfErr result (IsToldUnlessMemory C.core (λ k. K.noted k plan.now)
        state.old state.new recorder.old recorder.new) }
{
    let before = state.cluster().sent();
    state.apply(event)?;
    recorder.event(plan, event, before, state)?;
    Ok(())
}
