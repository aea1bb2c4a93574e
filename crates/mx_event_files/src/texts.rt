//! The text of a script.

ghost use Rattle.std.specs.Prelude.{◌≡◌, IfErr, IfOk};
ghost use Rattle.mx_event_files.specs.ScriptFiles.{IsNotText, IsNotTextLine};
ghost use Rattle.mx_event_files.specs.Scripts.{HasLine};

use mx_cli::{Stop, stop_with};
use mx_lines::LineFault;
use mx_scripts::RefusedLine;
use std::alloc::Global;
use std::str;

/// Returns the bytes of a script as a text.
///
/// # Errors
///
/// Returns the line of the fault if they are not UTF-8: it names the line of the first byte that is
/// wrong.
pub fn text_in(alloc: Global, bytes: &[u8]) -> Result<&str, Stop>
    ensures ok { IfOk result (λ text. text.now ≡ bytes.now) }
    ensures err { IfErr result (HasLine (IsNotText bytes.now)) }
{
    match str::from_utf8(bytes) {
        Ok(text) => Ok(text),
        Err(e) => Err(not_text(alloc, line_at(bytes, e.valid_up_to()))),
    }
}

/// Returns the reason to stop at line `number`, which is not UTF-8.
fn not_text(alloc: Global, number: u64) -> Stop
    ensures { HasLine IsNotTextLine result }
{
    let line = RefusedLine {
        number,
        fault: LineFault::NotText,
        is_unread: true,
        message: String::new(alloc),
    };
    stop_with(alloc, line)
}

/// Returns the number of the line, counted from 1, in which the byte at `place` stands.
fn line_at(bytes: &[u8], place: usize) -> u64 {
    let feeds = bytes.iter().take(place).filter(|b| **b == b'\n').count();
    (feeds as u64).saturating_add(1)
}
