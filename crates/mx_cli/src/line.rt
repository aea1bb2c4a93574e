//! The command line by which `clap` parses words, made from the table of commands.

ghost use Rattle.std.specs.Prelude.{◌≡◌, IfOk};
ghost use Rattle.clap.specs.Words.{App, app_of, new_app};
ghost use Rattle.mx_cli.specs.Table.{app_of_row, mx_app, mx_start, with_commands};
ghost use Rattle.mx_cli.specs.Words.{Finds, IsCommand, IsLine, IsReadable, texts_of};

use crate::arguments::clap_argument;
use crate::help;
use crate::table::{COMMANDS, CommandId, CommandRow, row_of};
use clap::{ArgMatches, Command, Error};
use std::alloc::{AllocError, Global};

fn start_line<'a>(alloc: Global) -> Result<Command<'a>, AllocError>
    ensures { IfOk result (λ line. app_of line ≡ mx_start) }
{
    let begun = Command::new(alloc, "mx")
        .bin_name("mx")?
        .version(help::VERSION)
        .about(help::MX)
        .no_binary_name(true)
        .subcommand_required(true)
        .disable_help_subcommand(true)
        .after_help(help::MX_EXAMPLE);
    Ok(begun)
}

fn command_of_row<'a>(alloc: Global, row: &CommandRow) -> Result<Command<'a>, AllocError>
    ensures { IfOk result (IsCommand (app_of_row row.now)) }
{
    let mut command = listed_row(alloc, row);
    for argument in row.arguments {
        command = command.arg(clap_argument(alloc, argument))?;
    }
    Ok(command)
}

fn listed_row<'a>(alloc: Global, row: &CommandRow) -> Command<'a>
    ensures { IsCommand (new_app row.now.name.now) result }
{
    Command::new(alloc, row.name)
        .about(row.about)
        .after_help(row.example)
}

fn with_commands<'a>(
    alloc: Global,
    line: Command<'a>,
    ids: &[CommandId],
) -> Result<Command<'a>, AllocError>
    ensures { IfOk result (λ made. app_of made
        ≡ with_commands (app_of line.entry) ids.now) }
{
    let mut line = line;
    for id in ids {
        line = line.subcommand(command_of_row(alloc, row_of(*id))?)?;
    }
    Ok(line)
}

/// Returns the command line of `mx`.
pub(crate) fn whole_line<'a>(alloc: Global) -> Result<Command<'a>, AllocError>
    ensures { IfOk result (IsLine mx_app) }
{
    with_commands(alloc, start_line(alloc)?, &COMMANDS)
}

/// Parses words by a command line.
///
/// # Errors
///
/// Returns the error of `clap` for wrong arguments. A request for help is such an error too, with
/// the text to show.
pub(crate) fn matches_of<'a>(
    line: Command<'a>,
    words: &'a [&'a str],
) -> Result<ArgMatches<'a>, Error>
    requires { IsReadable (app_of line) }
    ensures { (app : App) → app_of line.entry ≡ app → Finds app (texts_of words.entry.now) result }
{
    line.try_get_matches_from(words)
}
