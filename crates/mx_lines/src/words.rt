ghost use Rattle.std.specs.Prelude.{◌≡◌, IfOk};
ghost use Rattle.mx_lines.specs.Words.{AreWords, before_comment};

use std::alloc::{AllocError, Global};

/// Returns the part of a line before its comment, which begins with `#`.
pub(crate) fn before_comment(line: &str) -> &str
    ensures { result.now ≡ before_comment line.now }
{
    match line.split_once('#') {
        Some((before, _)) => before,
        None => line,
    }
}

/// Returns the words of a line, in order: the parts before its comment that white space separates.
pub fn words_in(alloc: Global, line: &str) -> Result<Vec<&str>, AllocError>
    ensures { IfOk result (λ words. AreWords (before_comment line.now) words.items) }
{
    before_comment(line).split_whitespace().collect(alloc)
}

/// Returns the byte at which word `number` of a line begins, both counted from 0, or `None` if
/// there are fewer words.
pub fn place_of_word(line: &str, number: usize) -> Option<usize> {
    let mut left = number;
    let mut is_inside = false;
    for (place, character) in before_comment(line).char_indices() {
        if character.is_whitespace() {
            is_inside = false;
        } else if !is_inside {
            if left == 0 {
                return Some(place);
            }
            left -= 1;
            is_inside = true;
        }
    }
    None
}
