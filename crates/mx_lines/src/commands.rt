ghost use Rattle.std.specs.Prelude.{◌≡◌};
ghost use Rattle.mx_lines.specs.Commands.{alone, command_of, is_end, own_command, own_word, shown, taken_back};
ghost use Rattle.mx_lines.specs.Names.{texts_of};

use crate::errors::{Expected, LineError, LineFault, OwnWord, refuse};
use crate::line::{Line, ScriptLine, read_line};
use crate::names::KnownNames;
use crate::numbers::number_of;
use mx_stamps::NodeId;

/// What a line of a session asks for.
#[derive(Clone, Copy)]
pub enum SessionCommand {
    /// Does what this script line asks for.
    Does(Line),
    /// Compares the outcome of the last event with the words after the first of this line.
    Expects,
    /// Undoes this many lines, the last ones that were done.
    Undo(u64),
    /// Shows this node, or all nodes.
    Show(Option<NodeId>),
    /// Takes the last undo back.
    Redo,
    /// Shows the events so far, as a file of events.
    Events,
    /// Shows what has happened so far, as a script.
    Script,
    /// Writes that script to the file that the second word of this line names.
    Save,
    /// Shows `mark` and the second word of this line.
    Mark,
    /// Shows which lines a session may have.
    Help,
    End,
    /// The line has no words.
    Nothing,
}

/// Parses the words of a line of a session: a script line, or one that begins with a word of
/// sessions alone.
///
/// # Errors
///
/// Returns the first wrong word, as `read_line` does.
pub fn read_command<N: KnownNames>(names: &N, words: &[&str]) -> Result<SessionCommand, LineError>
    ensures { result ≡ command_of (N.known names.now) (texts_of words.now) }
{
    let Some((first, arguments)) = words.split_first() else {
        return Ok(SessionCommand::Nothing);
    };
    if let Some(word) = own_word(first) {
        return own_command(names, word, arguments);
    }
    match read_line(names, words)? {
        ScriptLine::Does(line) => Ok(SessionCommand::Does(line)),
        ScriptLine::Expects => Ok(SessionCommand::Expects),
        ScriptLine::Nothing => Ok(SessionCommand::Nothing),
    }
}

fn own_word(text: &str) -> Option<OwnWord>
    ensures { result ≡ own_word text.now }
{
    if text == "show" {
        return Some(OwnWord::Show);
    }
    if text == "undo" {
        return Some(OwnWord::Undo);
    }
    if text == "redo" {
        return Some(OwnWord::Redo);
    }
    if text == "events" {
        return Some(OwnWord::Events);
    }
    if text == "script" {
        return Some(OwnWord::Script);
    }
    if text == "save" {
        return Some(OwnWord::Save);
    }
    if text == "mark" {
        return Some(OwnWord::Mark);
    }
    if text == "help" {
        return Some(OwnWord::Help);
    }
    if is_end(text) {
        return Some(OwnWord::End);
    }
    None
}

fn is_end(text: &str) -> bool
    ensures { result ≡ is_end text.now }
{
    text == "end" || text == "quit" || text == "exit"
}

fn own_command<N: KnownNames>(
    names: &N,
    word: OwnWord,
    arguments: &[&str],
) -> Result<SessionCommand, LineError>
    ensures { result ≡ own_command (N.known names.now) word (texts_of arguments.now) }
{
    let Some((argument, more)) = arguments.split_first() else {
        return alone(word);
    };
    match word {
        OwnWord::Show if more.is_empty() => shown(names, argument),
        OwnWord::Undo if more.is_empty() => taken_back(argument),
        OwnWord::Save if more.is_empty() => Ok(SessionCommand::Save),
        OwnWord::Mark if more.is_empty() => Ok(SessionCommand::Mark),
        _ => refuse(LineFault::WordCount, 0, Expected::OwnArguments(word)),
    }
}

fn alone(word: OwnWord) -> Result<SessionCommand, LineError>
    ensures { result ≡ alone word }
{
    match word {
        OwnWord::Show => Ok(SessionCommand::Show(None)),
        OwnWord::Undo => Ok(SessionCommand::Undo(1)),
        OwnWord::Redo => Ok(SessionCommand::Redo),
        OwnWord::Events => Ok(SessionCommand::Events),
        OwnWord::Script => Ok(SessionCommand::Script),
        OwnWord::Save | OwnWord::Mark => {
            refuse(LineFault::WordCount, 0, Expected::OwnArguments(word))
        }
        OwnWord::Help => Ok(SessionCommand::Help),
        OwnWord::End => Ok(SessionCommand::End),
    }
}

fn shown<N: KnownNames>(names: &N, name: &str) -> Result<SessionCommand, LineError>
    ensures { result ≡ shown (N.known names.now) name.now }
{
    match names.node_named(name) {
        Some(node) => Ok(SessionCommand::Show(Some(node))),
        None => refuse(LineFault::NoNode, 1, Expected::Node),
    }
}

fn taken_back(count: &str) -> Result<SessionCommand, LineError>
    ensures { result ≡ taken_back count.now }
{
    match number_of(count) {
        Some(count) => Ok(SessionCommand::Undo(count)),
        None => refuse(LineFault::NotNumber, 1, Expected::Number),
    }
}
