//! What the commands of a session do.

ghost use Rattle.std.specs.Prelude.{◌≡◌, ◌∷◌, ◌++◌, [], IfOk, OnOk, length, string_bytes};
ghost use Rattle.std.specs.Str.{IsUtf8, trim};
ghost use Rattle.mx_format.specs.LetterTexts.{letter_text};
ghost use Rattle.mx_io.specs.Stored.{Stores};
ghost use Rattle.mx_lines.specs.Names.{texts_of};
ghost use Rattle.mx_play.specs.Commands.{IsSecondWord, IsOverPlan, second_of};
ghost use Rattle.mx_play.specs.Sessions.{IsSession};
ghost use Rattle.mx_play.specs.declared.session.DoneLine.{DoneLine};
ghost use Rattle.mx_play.specs.Executions.{CanRefuseLine, DoesOr, HasExecuted, HasExpected, IsDone, Saved, line_text};
ghost use Rattle.mx_play.specs.Views.{mark_line};
ghost use Rattle.mx_lines.specs.Within.{IsOrderWithin};

use crate::help::add_words;
use crate::input_fault::InputFault;
use crate::printed_events::PrintedEvents;
use crate::run_texts::add_events;
use crate::saved::save;
use crate::session::{DoneLine, Session, SessionSetting, trace_of};
use crate::session_script::add_script;
use crate::undo::{redo, run_again, undo};
use crate::views::show;
use mx_format::Letter;
use mx_io::Store;
use mx_knowledge::Knowledge;
use mx_lines::{Line, SessionCommand, words_in};
use mx_nodelaws::Exclusion;
use mx_scripts::{LineFailure, compare_outcome, repeat};
use std::alloc::{AllocError, Global};
use std::str;

/// Does what a command asks for. A `message` may say more about the fault that it returns.
pub(crate) fn execute<C: Exclusion + Knowledge, W: Store>(
    setting: &SessionSetting<'_, C>,
    command: &SessionCommand,
    line: &[u8],
    session: &mut Session<C>,
    store: &mut W,
    text: &mut String,
    message: &mut String,
) -> Result<Option<InputFault>, AllocError>
where
    C::Msg: Letter,
    requires is { IsSession C.core setting.now.plan.now setting.now.shape.now session.old }
    requires over { IsOverPlan setting.now.plan.now command.now }
    requires empty { string_bytes text.old ≡ [] }
    ensures executed { IfOk result (λ fault. (saved : Saved)
        × Stores (W.stored store.old) (W.stored store.new) saved
        × HasExecuted C.core (letter_text C.Msg.parts) C.knows
        setting.now.plan.now setting.now.shape.now fault command.now line.now
        session.old session.new (string_bytes text.new) saved) }
    ensures is { IfOk result (λ _.
        IsSession C.core setting.now.plan.now setting.now.shape.now session.new) }
{
    match command {
        SessionCommand::Does(order) => do_line(setting, order, line, session, text),
        SessionCommand::Expects => expect(setting.alloc, line, session),
        SessionCommand::Undo(count) => undo(setting, *count, session, text),
        SessionCommand::Redo => redo(setting, session, text),
        SessionCommand::Show(to) => {
            show(setting, to, &session.state, text)?;
            Ok(None)
        }
        SessionCommand::Events => {
            add_events(setting.plan, &session.state, text)?;
            Ok(None)
        }
        SessionCommand::Script => {
            add_script(setting.plan, session.lines.as_slice(), text)?;
            Ok(None)
        }
        SessionCommand::Save => {
            let name = second_word(setting.alloc, line)?;
            let lines = session.lines.as_slice();
            save(
                setting.alloc,
                setting.plan,
                lines,
                name,
                store,
                text,
                message,
            )
        }
        SessionCommand::Mark => {
            add_mark(second_word(setting.alloc, line)?, text)?;
            Ok(None)
        }
        SessionCommand::Help => {
            add_words(text)?;
            Ok(None)
        }
        SessionCommand::End | SessionCommand::Nothing => Ok(None),
    }
}

fn do_line<C: Exclusion + Knowledge>(
    setting: &SessionSetting<'_, C>,
    line: &Line,
    typed: &[u8],
    session: &mut Session<C>,
    text: &mut String,
) -> Result<Option<InputFault>, AllocError>
where
    C::Msg: Letter,
    requires is { IsSession C.core setting.now.plan.now setting.now.shape.now session.old }
    requires over { IsOrderWithin (length setting.now.plan.now.nodes)
        (length setting.now.plan.now.registers) line.now.order }
    requires empty { string_bytes text.old ≡ [] }
    ensures done { IfOk result (λ fault.
        DoesOr (IsDone C.core (letter_text C.Msg.parts) setting.now.plan.now line.now
        typed.now session.old session.new (string_bytes text.new))
        (CanRefuseLine C.core line.now session.old) fault session.old session.new
        (string_bytes text.new)) }
    ensures is { IfOk result (λ _.
        IsSession C.core setting.now.plan.now setting.now.shape.now session.new) }
{
    let mut printed = PrintedEvents::new(setting.alloc);
    match repeat(setting.plan, line, &mut session.state, &mut printed) {
        Ok(()) => {
            commit(setting, text_of(typed), printed, session, text)?;
            Ok(None)
        }
        Err(failure) => {
            if let LineFailure::Memory = failure {
                return Err(AllocError);
            }
            if printed.is_empty() {
                return Ok(Some(InputFault::Line(failure)));
            }
            run_again(setting, session.lines.as_slice(), &mut session.state)?;
            Ok(Some(InputFault::Line(failure)))
        }
    }
}

/// Adds a line that was done to a session.
fn commit<C: Exclusion>(
    setting: &SessionSetting<'_, C>,
    typed: &str,
    line: PrintedEvents,
    session: &mut Session<C>,
    text: &mut String,
) -> Result<(), AllocError>
    ensures state { session.new.state ≡ session.old.state }
    ensures lines { OnOk result ((last : DoneLine) × (string_bytes last.text ≡ trim typed.now)
        × (last.events ≡ line.events)
        × (session.new.lines ≡ session.old.lines ++ last ∷ [])) }
    ensures undone { OnOk result (session.new.undone ≡ []) }
    ensures printed { OnOk result (string_bytes text.new ≡ string_bytes text.old
        ++ line_text line.events.items (string_bytes line.text)) }
{
    text.push_str(line.line_text())?;
    session.lines.push(DoneLine {
        text: String::from_str(setting.alloc, typed.trim())?,
        events: line.events,
    })?;
    session.undone.clear();
    Ok(())
}

/// Compares the outcome of the last event with the words of a line after its first.
fn expect<C: Exclusion>(
    alloc: Global,
    line: &[u8],
    session: &Session<C>,
) -> Result<Option<InputFault>, AllocError>
    ensures { IfOk result (HasExpected line.now session.now) }
{
    match compare_outcome(alloc, text_of(line), trace_of(&session.state)) {
        Ok(()) => Ok(None),
        Err(failure) => {
            if let LineFailure::Memory = failure {
                return Err(AllocError);
            }
            Ok(Some(InputFault::Line(failure)))
        }
    }
}

/// Returns a line as a text, or `""` if it is not UTF-8.
fn text_of(line: &[u8]) -> &str
    ensures { IsUtf8 line.now → result.now ≡ line.now }
{
    match str::from_utf8(line) {
        Ok(text) => text,
        Err(_) => "",
    }
}

fn add_mark(word: &str, text: &mut String) -> Result<(), AllocError>
    ensures { OnOk result (string_bytes text.new ≡ string_bytes text.old ++ mark_line word.now) }
{
    text.push_str("mark ")?;
    text.push_str(word)?;
    text.push_str("\n")
}

/// Returns the second word of a line, or `""` if it has fewer words or is not UTF-8.
fn second_word(alloc: Global, line: &[u8]) -> Result<&str, AllocError>
    ensures { IfOk result (λ word. IsUtf8 line.now → IsSecondWord line.now word.now) }
{
    second_in(alloc, text_of(line))
}

fn second_in(alloc: Global, text: &str) -> Result<&str, AllocError>
    ensures { IfOk result (λ word. IsSecondWord text.now word.now) }
{
    let words = words_in(alloc, text)?;
    Ok(second_of(words.as_slice()))
}

fn second_of<'a>(words: &[&'a str]) -> &'a str
    ensures { result.now ≡ second_of (texts_of words.now) }
{
    match words.get(1) {
        Some(word) => word,
        None => "",
    }
}
