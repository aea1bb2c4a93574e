//! `mx`, the program. It passes the arguments, files, streams and threads of the process to `run`.
#![tactic(auto)]

mod hints;
mod patient;
mod watched;

use crate::hints::tell_more;
use crate::patient::Patient;
use crate::watched::Watched;
use mx_dispatch::run;
use mx_io::{Stream, Streams, as_slices, given_words, status_of};
use mx_jobs::Host;
use mx_play::Typed;
use std::alloc::AllocError;
use std::io::{BufWriter, IsTerminal, Write};
use std::process::ExitCode;
use std::rt::{Env, Files};
use std::{env, io};

/// Returns the lines of standard input. Those of a session are typed if they come from a terminal, or
/// through a pipe of `./mx`, which sets `MX_TYPED`.
fn typed_lines<R: Env + Input + AllocGlobal>(rt: &R, words: &[&str]) -> io::Result<Typed<R::Reader>>
where
    R::Reader: IsTerminal,
{
    let reader = rt.reader();
    let is_session = matches!(words.first(), Some(&"play"));
    let are_typed = is_session && (reader.is_terminal() || env::var(rt, "MX_TYPED").is_ok());
    Typed::new(rt.alloc(), reader, are_typed)
}

/// Runs the command line of the process. What helps with its end may follow on standard error.
fn run_words<
    R: Files + Env + Input + AllocGlobal + Host,
    O: Write + Drop,
    E: Write + IsTerminal + Drop,
>(rt: &R, out: O, err: E) -> io::Result<u8>
where
    R::Reader: IsTerminal,
{
    let alloc = rt.alloc();
    let given = given_words(rt)?;
    let words = with_help(as_slices(alloc, given.as_slice())?)?;
    let is_terminal = err.is_terminal();
    let mut out = Stream::new(BufWriter::new(alloc, Patient::new(rt, out))?);
    // Without room, the buffer passes each line on at once.
    let mut err = Stream::new(BufWriter::with_capacity(alloc, 0, Patient::new(rt, err))?);
    let mut source = Watched::new(rt);
    let (mut lines, mut store) = (typed_lines(rt, words.as_slice())?, Streams { rt });
    let status = run(
        rt,
        alloc,
        words.as_slice(),
        &mut source,
        &mut lines,
        &mut store,
        &mut out,
        &mut err,
    );
    tell_more(rt, words.as_slice(), status, &source, is_terminal, &mut err);
    Ok(status)
}

/// Replaces a first argument `help` by a last one `--help`: `help replay` becomes `replay --help`.
fn with_help(mut words: Vec<&str>) -> Result<Vec<&str>, AllocError> {
    if !matches!(words.first(), Some(&"help")) {
        return Ok(words);
    }
    words.remove(0);
    words.push("--help")?;
    Ok(words)
}

fn main(rt: HostRuntime) -> ExitCode {
    let ended = run_words(&rt, rt.stdout(), rt.stderr());
    ExitCode::from(status_of(ended, rt.stderr()))
}
