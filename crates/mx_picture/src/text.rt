//! Texts in an SVG: their escapes, and their widths in Helvetica or Arial.

use std::alloc::{AllocError, Global};

/// The height of texts, in pixels.
const HEIGHT: u64 = 12;

/// Returns a text with each `&`, `<` and `>` escaped for XML.
pub(crate) fn escaped(alloc: Global, raw: &str) -> Result<String, AllocError> {
    let mut text = String::new(alloc);
    add_escaped(raw, &mut text)?;
    Ok(text)
}

pub(crate) fn add_escaped(raw: &str, text: &mut String) -> Result<(), AllocError> {
    if !raw
        .as_bytes()
        .iter()
        .any(|byte| matches!(*byte, b'&' | b'<' | b'>'))
    {
        return text.push_str(raw);
    }
    for character in raw.chars() {
        match character {
            '&' => text.push_str("&amp;")?,
            '<' => text.push_str("&lt;")?,
            '>' => text.push_str("&gt;")?,
            _ => text.push(character)?,
        }
    }
    Ok(())
}

/// Returns the width of a text, in whole pixels, rounded up.
pub(crate) fn width_of(text: &str) -> u64 {
    let mut width: u64 = 0;
    for character in text.chars() {
        width = width.saturating_add(width_of_character(character));
    }
    width.saturating_mul(HEIGHT) / 1000 + 1
}

/// Returns the width of a character, in thousandths of the height of the text.
fn width_of_character(character: char) -> u64 {
    match character {
        'i' | 'j' | 'l' => 222,
        ' ' | '.' | ':' | ',' | 'f' | 't' | 'I' => 278,
        '-' | 'r' => 333,
        'c' | 'k' | 's' | 'v' | 'x' | 'y' | 'z' | 'J' => 500,
        'm' | 'M' | 'W' => 944,
        'w' | 'A'..='F' | 'H' | 'K' | 'N' | 'P' | 'R'..='V' | 'X'..='Z' => 722,
        'G' | 'O' | 'Q' => 778,
        _ => 556,
    }
}
