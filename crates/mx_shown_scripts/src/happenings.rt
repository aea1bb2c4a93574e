//! What the lines of a script do, one thing after another.

ghost use Rattle.std.specs.Prelude.{◌≡◌, [], IfOk};
ghost use Rattle.std.specs.Str.Lines.{lines};
ghost use Rattle.mx_shown_scripts.specs.Happenings.{AddsOne, Does, HasDone};
ghost use Rattle.mx_event_files.specs.declared.happening.Happening.{Happening};

use mx_event_files::Happening;
use mx_nodelaws::Exclusion;
use mx_plan::Plan;
use mx_scripts::{Recorder, RefusedLine, SessionEvent, State, do_line, refused_line};
use std::alloc::{AllocError, Global};

/// A recorder that lists what one line does.
#[derive(Drop)]
struct LineRecorder {
    number: u64,
    happened: Vec<Happening>,
}

impl<C: Exclusion> Recorder<State<C>> for LineRecorder {
    ghost noted = { λ recorder _ event _ _ next. AddsOne recorder event next };

    fn line(&mut self, _number: u64) {}

    fn event(
        &mut self,
        _plan: &Plan,
        event: &SessionEvent,
        _before: u64,
        _state: &State<C>,
    ) -> Result<(), AllocError> {
        let event = *event;
        self.happened.push(Happening {
            line: self.number,
            event,
        })?;
        Ok(())
    }
}

/// Does the lines of a script in order, up to the first that is not done, and lists what those
/// before it did. Returns the line that is not done, if there is one.
pub(crate) fn do_lines<C: Exclusion>(
    alloc: Global,
    plan: &Plan,
    script: &str,
    state: &mut State<C>,
    happened: &mut Vec<Happening>,
) -> Result<Option<RefusedLine>, AllocError>
    requires { happened.old.items ≡ [] }
    ensures { IfOk result (HasDone C.core plan.now (lines script.now) state.old
        happened.new.items) }
{
    let mut number = 0u64;
    for line in script.lines() {
        number = number.saturating_add(1);
        let refused = do_listed(alloc, plan, number, line, state, happened)?;
        if refused.is_some() {
            return Ok(refused);
        }
    }
    Ok(None)
}

/// Does a line, and lists what it did. Returns the line, if it is not done.
fn do_listed<C: Exclusion>(
    alloc: Global,
    plan: &Plan,
    number: u64,
    line: &str,
    state: &mut State<C>,
    happened: &mut Vec<Happening>,
) -> Result<Option<RefusedLine>, AllocError>
    ensures { IfOk result (Does C.core plan.now number line.now state.old state.new
        happened.old.items happened.new.items) }
{
    let mut recorder = LineRecorder {
        number,
        happened: Vec::new(alloc),
    };
    match do_line(alloc, plan, line, state, &mut recorder) {
        Ok(()) => {
            happened.extend_from_slice(recorder.happened.as_slice())?;
            Ok(None)
        }
        Err(failure) => {
            let refused = refused_line(alloc, plan, number, failure, line, state.trace())?;
            Ok(Some(refused))
        }
    }
}
