//! The command `script`.

ghost use Rattle.std.specs.Prelude.{string_bytes, IfErr, IfOk};
ghost use Rattle.mx_cli.specs.Printing.{Prints, sight};
ghost use Rattle.mx_event_files.specs.Printed.{IsScript};
ghost use Rattle.mx_event_files.specs.ScriptFiles.{IsRefusedScript, IsScriptFile};
ghost use Rattle.mx_event_files.specs.Scripts.{HasLine};

use crate::script_file::script_file;
use crate::texts::text_in;
use mx_cli::{Command, Stop, print};
use mx_io::Output;
use mx_maekawa::Maekawa;
use mx_nodelaws::Exclusion;
use mx_plan::Plan;
use mx_raymond::Raymond;
use mx_ricart::Ricart;
use mx_scripts::{Recorder, SessionEvent, State};
use std::alloc::{AllocError, Global};

/// `script`: prints the file of the events that the lines of a text ask for.
#[derive(Clone, Copy)]
pub struct Script;

impl Command for Script {
    ghost reports = { λ _ p text. IsScript p text };

    fn run<O: Output>(
        &self,
        alloc: Global,
        plan: &Plan,
        text: &[u8],
        out: &mut O,
    ) -> Result<u8, Stop> {
        run_script(alloc, plan, text, &mut NoRecorder, out)
    }
}

/// Prints the file of a script, as `Script` does. The recorder is told of each event and of the
/// refused line. Of a script that is not UTF-8, it is told nothing.
///
/// # Errors
///
/// Returns the line of the fault of the first line that is not done, `Writer` if the output refuses,
/// and `Memory` if memory runs out.
pub fn run_script<K, O: Output>(
    alloc: Global,
    plan: &Plan,
    script: &[u8],
    recorder: &mut K,
    out: &mut O,
) -> Result<u8, Stop>
where
    K: Recorder<State<Ricart>> + Recorder<State<Maekawa>> + Recorder<State<Raymond>>,
    ensures prints { Prints (IsScript plan.now script.now)
        (sight O.Output out.old) (sight O.Output out.new) result }
{
    match file_of_bytes(alloc, plan, script, recorder) {
        Ok(file) => print(file.as_bytes(), 0, out),
        Err(stop) => Err(stop),
    }
}

/// Returns the file of the events of a script, and tells the recorder of each as `run_script` does.
///
/// # Errors
///
/// Returns the line of the fault of the first line that is not done, and `Memory` if memory runs
/// out.
pub fn file_of_bytes<K>(
    alloc: Global,
    plan: &Plan,
    script: &[u8],
    recorder: &mut K,
) -> Result<String, Stop>
where
    K: Recorder<State<Ricart>> + Recorder<State<Maekawa>> + Recorder<State<Raymond>>,
    ensures ok { IfOk result (λ file.
        IsScriptFile plan.now script.now (string_bytes file) plan.now.shape) }
    ensures err { IfErr result (HasLine (IsRefusedScript plan.now script.now)) }
{
    let text = text_in(alloc, script)?;
    script_file(alloc, plan, text, recorder)
}

/// A recorder that records nothing.
#[derive(Clone, Copy)]
pub(crate) struct NoRecorder;

impl<C: Exclusion> Recorder<State<C>> for NoRecorder {
    fn line(&mut self, _number: u64) {}

    fn event(
        &mut self,
        _plan: &Plan,
        _event: &SessionEvent,
        _before: u64,
        _state: &State<C>,
    ) -> Result<(), AllocError> {
        Ok(())
    }
}
