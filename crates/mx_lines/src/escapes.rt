//! Texts that others wrote, shown so that each character is seen.

ghost use Rattle.std.specs.Prelude.{◌≡◌, ◌++◌, OnOk, Some, string_bytes};
ghost use Rattle.mx_lines.specs.Escapes.{is_unseen, shown, shown_char};

use std::alloc::AllocError;
use std::fmt;
use std::fmt::Display;

/// A text that others wrote, as a message shows it. A character that is not seen, or that changes
/// the order of others, is escaped: as `\0`, `\t`, `\n` or `\r`, or by its number, such as `\u{1b}`.
#[derive(Clone, Copy)]
pub struct Escaped<'a>(pub &'a str);

impl Display for Escaped<'_> {
    ghost output = { λ e. Some (shown e.0.now) };

    fn fmt<W: fmt::Write>(&self, f: &mut fmt::Formatter<W>) -> fmt::Result {
        for character in self.0.chars() {
            write!(f, "{}", Shown(character))?;
        }
        Ok(())
    }
}

/// Appends `raw` to a text, as `Escaped` shows it.
///
/// # Errors
///
/// Returns `AllocError` if memory runs out.
pub fn add_escaped_text(raw: &str, text: &mut String) -> Result<(), AllocError>
    ensures { OnOk result (string_bytes text.new ≡ string_bytes text.old ++ shown raw.now) }
{
    write!(text, "{}", Escaped(raw))
}

/// One character of an escaped text.
#[derive(Clone, Copy)]
struct Shown(char);

impl Display for Shown {
    ghost output = { λ s. Some (shown_char s.0) };

    fn fmt<W: fmt::Write>(&self, f: &mut fmt::Formatter<W>) -> fmt::Result {
        match self.0 {
            '\0' => f.write_str("\\0"),
            '\t' => f.write_str("\\t"),
            '\n' => f.write_str("\\n"),
            '\r' => f.write_str("\\r"),
            character if is_unseen(character) => write!(f, "\\u{{{:x}}}", character as u32),
            character => f.write_char(character),
        }
    }
}

/// Returns whether this is a control character, a soft hyphen, a character without width, or one
/// that separates lines or sets the direction of what follows.
fn is_unseen(character: char) -> bool
    ensures { result ≡ is_unseen character }
{
    match character {
        '\u{ad}' | '\u{200b}'..='\u{200f}' | '\u{2028}'..='\u{202e}' => true,
        '\u{2060}'..='\u{2069}' | '\u{feff}' => true,
        _ => character.is_control(),
    }
}
