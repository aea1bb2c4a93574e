//! A run of a session: its lines are read, executed and printed, one after another.

ghost use Rattle.std.specs.Prelude.{◌≡◌, ◌≤◌, ◌+◌, Some, false, true, length, string_bytes, IfOk, IfSome, OnOk};
ghost use Rattle.std.specs.Io.KnownBytes.{Appends};
ghost use Rattle.mx_plan.specs.Text.{Text};
ghost use Rattle.mx_format.specs.LetterTexts.{letter_text};
ghost use Rattle.mx_cli.specs.Reports.{seen};
ghost use Rattle.mx_io.specs.Stored.{Stores};
ghost use Rattle.mx_driver.specs.Runs.{closing_text};
ghost use Rattle.mx_play.specs.Commands.{IsInput, IsInputOf, is_end};
ghost use Rattle.mx_play.specs.Executions.{Saved};
ghost use Rattle.mx_play.specs.Plays.{ArePlayed, Does, IsPlayed};
ghost use Rattle.mx_play.specs.Printed.{GetsReport};
ghost use Rattle.mx_play.specs.Sessions.{IsSession, at_start};
ghost use Rattle.mx_play.specs.Stops.{AreReadableLines, HaveNumbers, OnlyMemory};

use crate::commands::execute;
use crate::input::{Input, greet, is_end, read_input};
use crate::input_fault::{InputFault, InputFaultLine, message_about};
use crate::line_sources::{GivenLines, Lines};
use crate::run_texts::add_end;
use crate::session::{Session, SessionSetting, trace_of};
use mx_cli::{Fault, Named, Stop, write_line};
use mx_format::Letter;
use mx_io::{Output, Store};
use mx_knowledge::Knowledge;
use mx_nodelaws::Exclusion;
use std::alloc::AllocError;

/// What a line comes to: what is printed, its fault, and what more is said of that.
#[derive(Drop)]
struct Turn {
    text: String,
    fault: Option<InputFault>,
    message: String,
}

pub(crate) fn run_session<C: Exclusion + Knowledge, L: Lines, W: Store, O: Output, E: Output>(
    setting: &SessionSetting<'_, C>,
    script: &[u8],
    lines: &mut L,
    session: &mut Session<C>,
    store: &mut W,
    out: &mut O,
    err: &mut E,
) -> Result<u8, Stop>
where
    C::Msg: Letter,
    requires count { C.core.count setting.now.shape.now ≡ length setting.now.plan.now.nodes }
    requires start { session.old
        ≡ at_start C.core setting.now.plan.now setting.now.shape.now }
    ensures played { IfOk result (λ _. IsPlayed C.core (letter_text C.Msg.parts) C.knows
        setting.now.plan.now setting.now.shape.now script.now (L.rest lines.old)
        (seen O.Output E.Output out.old err.old) (seen O.Output E.Output out.new err.new)
        (W.stored store.old) (W.stored store.new)) }
    ensures zero { IfOk result (λ status. status ≡ 0) }
    ensures stops { O.takes_all out.old ≡ true → E.takes_all err.old ≡ true
        → AreReadableLines (L.readable lines.old) → OnlyMemory result }
    ensures stays { (O.takes_all out.new ≡ O.takes_all out.old)
        × (E.takes_all err.new ≡ E.takes_all err.old) }
{
    let mut listed = GivenLines { rest: script };
    match run_lines(setting, 1, &mut listed, session, store, out, err)? {
        Some(number) => {
            greet(lines, err)?;
            run_lines(setting, number, lines, session, store, out, err)?;
            finish(setting, session, out)
        }
        None => finish(setting, session, out),
    }
}

/// Runs lines to their end, or to the first that ends the session; `first` is the number of the
/// first of them. Returns the number of the line after them, if the session goes on.
fn run_lines<C: Exclusion + Knowledge, L: Lines, W: Store, O: Output, E: Output>(
    setting: &SessionSetting<'_, C>,
    first: u64,
    lines: &mut L,
    session: &mut Session<C>,
    store: &mut W,
    out: &mut O,
    err: &mut E,
) -> Result<Option<u64>, Stop>
where
    C::Msg: Letter,
    requires { IsSession C.core setting.now.plan.now setting.now.shape.now session.old }
    ensures run { IfOk result (λ next. ArePlayed C.core (letter_text C.Msg.parts) C.knows
        setting.now.plan.now setting.now.shape.now first (L.rest lines.old) next
        session.old session.new
        (seen O.Output E.Output out.old err.old) (seen O.Output E.Output out.new err.new)
        (W.stored store.old) (W.stored store.new)) }
    ensures is { IfOk result (λ _.
        IsSession C.core setting.now.plan.now setting.now.shape.now session.new) }
    ensures left { IfSome (L.readable lines.old) (λ n. IfOk result (λ next.
        IfSome next (λ k. k ≤ first + n))) }
    ensures stops { O.takes_all out.old ≡ true → E.takes_all err.old ≡ true
        → HaveNumbers first (L.readable lines.old) → OnlyMemory result }
    ensures stays { (O.takes_all out.new ≡ O.takes_all out.old)
        × (E.takes_all err.new ≡ E.takes_all err.old) }
{
    let mut line = Vec::new(setting.alloc);
    for number in first..u64::MAX {
        let input = read_input(setting.alloc, setting.plan, lines, &mut line, err)?;
        if let Input::Eof = input {
            return Ok(Some(number));
        }
        let turn = execute_input(setting, &input, line.as_slice(), session, store)?;
        print(&turn, out)?;
        report(setting, number, &turn, line.as_slice(), session, err)?;
        if is_end(&input) {
            return Ok(None);
        }
    }
    Err(Stop::Fault(Fault::CannotRead(Named::Events)))
}

fn execute_input<C: Exclusion + Knowledge, W: Store>(
    setting: &SessionSetting<'_, C>,
    input: &Input,
    line: &[u8],
    session: &mut Session<C>,
    store: &mut W,
) -> Result<Turn, AllocError>
where
    C::Msg: Letter,
    requires is { IsSession C.core setting.now.plan.now setting.now.shape.now session.old }
    requires input { IsInput setting.now.plan.now input.now }
    ensures does { IfOk result (λ turn. (from : Text)
        → IsInputOf setting.now.plan.now from input.now line.now
        → (saved : Saved) × Stores (W.stored store.old) (W.stored store.new) saved
        × Does C.core (letter_text C.Msg.parts) C.knows setting.now.plan.now setting.now.shape.now
        from turn.fault (is_end input.now) session.old session.new (string_bytes turn.text)
        saved) }
    ensures is { IfOk result (λ _.
        IsSession C.core setting.now.plan.now setting.now.shape.now session.new) }
{
    let mut text = String::new(setting.alloc);
    let mut message = String::new(setting.alloc);
    match input {
        Input::Command(command) => {
            let fault = execute(
                setting,
                command,
                line,
                session,
                store,
                &mut text,
                &mut message,
            )?;
            Ok(Turn {
                text,
                fault,
                message,
            })
        }
        Input::Fault(fault) => {
            let fault = Some(*fault);
            Ok(Turn {
                text,
                fault,
                message,
            })
        }
        Input::Eof => Ok(Turn {
            text,
            fault: None,
            message,
        }),
    }
}

fn print<O: Output>(turn: &Turn, out: &mut O) -> Result<(), Stop>
    ensures printed { OnOk result
        (Appends (O.written out.old) (O.written out.new) (string_bytes turn.now.text)) }
    ensures passed { OnOk result (O.keeps_back out.new ≡ false) }
    ensures stops { O.takes_all out.old ≡ true → OnlyMemory result }
    ensures stays { O.takes_all out.new ≡ O.takes_all out.old }
{
    out.put(turn.text.as_bytes())?;
    out.flush()?;
    Ok(())
}

/// Reports the fault of a line, if it has one.
fn report<C: Exclusion, E: Output>(
    setting: &SessionSetting<'_, C>,
    number: u64,
    turn: &Turn,
    line: &[u8],
    session: &Session<C>,
    err: &mut E,
) -> Result<(), Stop>
    ensures reports { OnOk result
        (GetsReport number turn.now.fault (E.written err.old) (E.written err.new)) }
    ensures stops { E.takes_all err.old ≡ true → OnlyMemory result }
    ensures stays { E.takes_all err.new ≡ E.takes_all err.old }
{
    let Some(fault) = &turn.fault else {
        return Ok(());
    };
    let trace = trace_of(&session.state);
    let mut message = message_about(setting.alloc, setting.plan, fault, line, trace)?;
    message.push_str(turn.message.as_str())?;
    let said = InputFaultLine {
        number,
        fault: *fault,
        message,
    };
    write_line(setting.alloc, err, said)?;
    err.flush()?;
    Ok(())
}

fn finish<C: Exclusion + Knowledge, O: Output>(
    setting: &SessionSetting<'_, C>,
    session: &Session<C>,
    out: &mut O,
) -> Result<u8, Stop>
where
    C::Msg: Letter,
    requires members { length session.now.state.cluster.members
        ≡ length setting.now.plan.now.nodes }
    ensures closes { IfOk result (λ _. Appends (O.written out.old) (O.written out.new)
        (closing_text C.core (letter_text C.Msg.parts) setting.now.plan.now
        session.now.state.cluster)) }
    ensures zero { IfOk result (λ status. status ≡ 0) }
    ensures stops { O.takes_all out.old ≡ true → OnlyMemory result }
    ensures stays { O.takes_all out.new ≡ O.takes_all out.old }
{
    let mut text = String::new(setting.alloc);
    let status = add_end(setting.alloc, setting.plan, &session.state, &mut text)?;
    out.put(text.as_bytes())?;
    Ok(status)
}
