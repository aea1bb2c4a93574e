//! The events that the lines of a script ask for, as a file.

ghost use Rattle.std.specs.Prelude.{◌≡◌, [], string_bytes, IfErr, IfOk};
ghost use Rattle.mx_event_files.specs.ScriptFiles.{IsFileOfScript, IsScriptFile, StopsFrom, StopsInPlan};
ghost use Rattle.mx_event_files.specs.Scripts.{HasLine, IsLineOf};
ghost use Rattle.mx_scripts.specs.States.{before_any};

use mx_cli::{Stop, stop_with};
use mx_driver::by_shape;
use mx_format::file_of;
use mx_maekawa::Maekawa;
use mx_nodelaws::Exclusion;
use mx_plan::Plan;
use mx_raymond::Raymond;
use mx_ricart::Ricart;
use mx_scripts::{LineFailure, Recorder, State, do_line, refused_line};
use std::alloc::Global;

pub(crate) fn script_file<K>(
    alloc: Global,
    plan: &Plan,
    script: &str,
    recorder: &mut K,
) -> Result<String, Stop>
where
    K: Recorder<State<Ricart>> + Recorder<State<Maekawa>> + Recorder<State<Raymond>>,
    ensures ok { IfOk result (λ text.
        IsScriptFile plan.now script.now (string_bytes text) plan.now.shape) }
    ensures err { IfErr result (HasLine (λ line.
        StopsInPlan plan.now script.now line plan.now.shape)) }
{
    by_shape!(alloc, plan, |cluster| {
        let mut state = State::of(alloc, cluster);
        file_of_script(alloc, plan, script, &mut state, recorder)
    })
}

fn file_of_script<C: Exclusion, K: Recorder<State<C>>>(
    alloc: Global,
    plan: &Plan,
    script: &str,
    state: &mut State<C>,
    recorder: &mut K,
) -> Result<String, Stop>
    requires fresh { state.old ≡ before_any state.old.cluster }
    requires empty { state.old.cluster.trace ≡ [] }
    ensures ok { IfOk result (λ text.
        IsFileOfScript C.core plan.now state.old.cluster script.now (string_bytes text)) }
    ensures err { IfErr result (HasLine
        (StopsFrom C.core plan.now state.old.cluster script.now)) }
{
    let mut number = 0u64;
    for line in script.lines() {
        number = number.saturating_add(1);
        recorder.line(number);
        if let Err(failure) = do_line(alloc, plan, line, state, recorder) {
            return Err(refuse(alloc, plan, number, failure, line, state, recorder));
        }
    }
    let text = file_of(alloc, plan, state.trace())?;
    Ok(text)
}

/// Tells the recorder of a line that is not done. Returns why the script stops: with the line of the
/// fault, or because memory ran out.
fn refuse<C: Exclusion, K: Recorder<State<C>>>(
    alloc: Global,
    plan: &Plan,
    number: u64,
    failure: LineFailure,
    line: &str,
    state: &State<C>,
    recorder: &mut K,
) -> Stop
    ensures { HasLine (IsLineOf number failure) result }
{
    match refused_line(alloc, plan, number, failure, line, state.trace()) {
        Ok(line) => match recorder.refused(plan, &line, state) {
            Ok(()) => stop_with(alloc, line),
            Err(_) => Stop::Memory,
        },
        Err(_) => Stop::Memory,
    }
}
