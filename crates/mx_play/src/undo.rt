//! Undoes and redoes lines of a session.

ghost use Rattle.std.specs.Prelude.{◌≡◌, ◌∷◌, ◌++◌, [], IfNone, IfOk, IfSome, OnOk, length, string_bytes};
ghost use Rattle.mx_play.specs.Histories.{CanLead, Leads, first_state};
ghost use Rattle.mx_play.specs.Printed.{steps_text, typed_line};
ghost use Rattle.mx_play.specs.Sessions.{IsSession, line_events};
ghost use Rattle.mx_play.specs.Executions.{CanRefuseRedo, CanRefuseUndo, DoesOr, IsRedone, IsUndone};

use crate::input_fault::InputFault;
use crate::session::{DoneLine, Session, SessionSetting, first_state, trace_of};
use mx_lines::Escaped;
use mx_nodelaws::Exclusion;
use mx_scripts::{SessionEvent, State};
use std::alloc::AllocError;

/// Undoes the last lines, and prints these lines, and how many events those were.
pub(crate) fn undo<C: Exclusion>(
    setting: &SessionSetting<'_, C>,
    count: u64,
    session: &mut Session<C>,
    text: &mut String,
) -> Result<Option<InputFault>, AllocError>
    requires is { IsSession C.core setting.now.plan.now setting.now.shape.now session.old }
    requires empty { string_bytes text.old ≡ [] }
    ensures undone { IfOk result (λ fault.
        DoesOr (IsUndone C.core setting.now.plan.now setting.now.shape.now count
        session.old session.new (string_bytes text.new))
        (CanRefuseUndo session.old count) fault session.old session.new (string_bytes text.new)) }
    ensures is { IfOk result (λ _.
        IsSession C.core setting.now.plan.now setting.now.shape.now session.new) }
{
    let lines = session.lines.len();
    if count > lines as u64 {
        return Ok(Some(InputFault::TooFew(lines)));
    }
    let events = trace_length(session);
    let undone = session.lines.split_off(lines - count as usize)?;
    run_again(setting, session.lines.as_slice(), &mut session.state)?;
    let events_left = trace_length(session);
    add_steps(
        "undone",
        undone.as_slice(),
        events.saturating_sub(events_left),
        text,
    )?;
    session.undone.push(undone)?;
    Ok(None)
}

/// Redoes what was undone last, and prints these lines, and how many events those are.
pub(crate) fn redo<C: Exclusion>(
    setting: &SessionSetting<'_, C>,
    session: &mut Session<C>,
    text: &mut String,
) -> Result<Option<InputFault>, AllocError>
    requires is { IsSession C.core setting.now.plan.now setting.now.shape.now session.old }
    requires empty { string_bytes text.old ≡ [] }
    ensures redone { IfOk result (λ fault.
        DoesOr (IsRedone C.core session.old session.new (string_bytes text.new))
        (CanRefuseRedo session.old) fault session.old session.new (string_bytes text.new)) }
    ensures is { IfOk result (λ _.
        IsSession C.core setting.now.plan.now setting.now.shape.now session.new) }
{
    let events_before = trace_length(session);
    let Some(mut lines) = pop_undone(&mut session.undone) else {
        return Ok(Some(InputFault::NoUndo));
    };
    apply_lines(lines.as_slice(), &mut session.state)?;
    let events = trace_length(session);
    add_steps(
        "redone",
        lines.as_slice(),
        events.saturating_sub(events_before),
        text,
    )?;
    session.lines.append(&mut lines)?;
    Ok(None)
}

/// Appends how many lines and events were undone or redone, and each line.
fn add_steps(
    word: &str,
    lines: &[DoneLine],
    events: usize,
    text: &mut String,
) -> Result<(), AllocError>
    ensures { OnOk result (string_bytes text.new ≡ string_bytes text.old
        ++ steps_text word.now lines.now events) }
{
    writeln!(text, "{word}: lines {}, events {events}", lines.len())?;
    for line in lines {
        add_typed(line, text)?;
    }
    Ok(())
}

fn add_typed(line: &DoneLine, text: &mut String) -> Result<(), AllocError>
    ensures { OnOk result (string_bytes text.new ≡ string_bytes text.old ++ typed_line line.now) }
{
    writeln!(text, "  {}", Escaped(line.text.as_str()))
}

fn pop_undone(undone: &mut Vec<Vec<DoneLine>>) -> Option<Vec<DoneLine>>
    ensures some { IfSome result (λ last. undone.old.items ≡ undone.new.items ++ last ∷ []) }
    ensures none { IfNone result ((undone.old.items ≡ []) × (undone.new.items ≡ [])) }
{
    undone.pop()
}

fn trace_length<C: Exclusion>(session: &Session<C>) -> usize
    ensures { result ≡ length session.now.state.cluster.trace }
{
    trace_of(&session.state).len()
}

/// Starts the cluster of the plan anew, and does these lines.
pub(crate) fn run_again<C: Exclusion>(
    setting: &SessionSetting<'_, C>,
    lines: &[DoneLine],
    state: &mut State<C>,
) -> Result<(), AllocError>
    requires { CanLead C.core
        (first_state C.core setting.now.plan.now setting.now.shape.now) (line_events lines.now) }
    ensures { OnOk result (Leads C.core
        (first_state C.core setting.now.plan.now setting.now.shape.now) (line_events lines.now)
        state.new) }
{
    *state = first_state(setting)?;
    apply_lines(lines, state)
}

fn apply_lines<C: Exclusion>(lines: &[DoneLine], state: &mut State<C>) -> Result<(), AllocError>
    requires { CanLead C.core state.old (line_events lines.now) }
    ensures { OnOk result (Leads C.core state.old (line_events lines.now) state.new) }
{
    for line in lines {
        apply_all(line.events.as_slice(), state)?;
    }
    Ok(())
}

fn apply_all<C: Exclusion>(events: &[SessionEvent], state: &mut State<C>) -> Result<(), AllocError>
    requires { CanLead C.core state.old events.now }
    ensures { OnOk result (Leads C.core state.old events.now state.new) }
{
    for event in events {
        match state.apply(event) {
            Ok(()) => {}
            // what happened before can fail only if memory runs out
            Err(_) => return Err(AllocError),
        }
    }
    Ok(())
}
