//! The arguments of the process, and its exit status.

ghost use Rattle.std.specs.Prelude.{◌≡◌, IfOk, IfErr, map, string_bytes};
ghost use Rattle.std.specs.IoError.{error_kind};
ghost use Rattle.mx_io.specs.Given.{status_without_words};

use std::alloc::{AllocError, AllocGlobal, Global};
use std::io::{ErrorKind, Write};
use std::rt::Env;
use std::{env, io};

/// Returns the arguments of the command line, without the program's name.
///
/// # Errors
///
/// Returns an error if memory runs out, or if an argument is not valid UTF-8.
pub fn given_words<R: Env + AllocGlobal>(rt: &R) -> io::Result<Vec<String>> {
    let words = env::args(rt)?.skip(1).collect(rt.alloc())?;
    Ok(words)
}

/// Borrows the arguments as string slices.
///
/// # Errors
///
/// Returns `AllocError` if memory runs out.
pub fn as_slices<'a>(alloc: Global, given: &'a [String]) -> Result<Vec<&'a str>, AllocError>
    ensures { IfOk result (λ words. map (λ word. word.now) words.items ≡ map string_bytes given.now) }
{
    let mut words = Vec::new(alloc);
    for word in given {
        words.push(word.as_str())?;
    }
    Ok(words)
}

/// Returns the exit status of a command: the one that it ended with. If its arguments could not be
/// read, prints the reason to `err`, and returns 5 if memory ran out, and 2 otherwise.
pub fn status_of<E: Write + Drop>(ended: io::Result<u8>, mut err: E) -> u8
    ensures ok { IfOk ended (λ status. result ≡ status) }
    ensures err { IfErr ended (λ e. result ≡ status_without_words (error_kind e)) }
{
    match ended {
        Ok(status) => status,
        Err(e) => {
            let (line, status) = if e.kind() == ErrorKind::OutOfMemory {
                ("mx: out of memory\n", 5)
            } else {
                ("error: the words are not UTF-8\n", 2)
            };
            let _ = err.write_all(line.as_bytes());
            status
        }
    }
}
