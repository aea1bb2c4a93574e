//! The known name that is nearest to a wrong one.

ghost use Rattle.std.specs.Prelude.{IfOk, IfSome};
ghost use Rattle.std.specs.List.{Contains};

use std::alloc::{AllocError, Global};
use strsim::osa_distance;

/// A name is near only if at most this many edits lead to it.
const MAX_EDITS: usize = 3;

/// A name of more bytes is near to none.
const MAX_BYTES: usize = 64;

/// Returns the first of the `known` names that the fewest edits of characters make of `name`: at
/// most three, and at most a third of the bytes of the longer of both names.
pub fn nearest<'a>(
    alloc: Global,
    name: &str,
    known: &[&'a str],
) -> Result<Option<&'a str>, AllocError>
    ensures { IfOk result (λ found. IfSome found (Contains known.now)) }
{
    let mut least = MAX_EDITS + 1;
    let mut best = None;
    for other in known {
        let most = name.len().max(other.len()) / 3;
        let count = edits(alloc, name, other, most.min(least))?;
        if count < least && count <= most {
            least = count;
            best = Some(*other);
        }
    }
    Ok(best)
}

/// Returns how many edits lead from a name to another: characters added, removed, changed or
/// swapped. Returns 0 if only ASCII case differs. More than `most` edits may be any greater number.
fn edits(alloc: Global, name: &str, other: &str, most: usize) -> Result<usize, AllocError> {
    if name.len() > MAX_BYTES || other.len() > MAX_BYTES {
        return Ok(MAX_BYTES);
    }
    if name.eq_ignore_ascii_case(other) {
        return Ok(0);
    }
    let lacking = lacks(name, other).max(lacks(other, name));
    if lacking > most {
        return Ok(lacking);
    }
    osa_distance(alloc, name, other)
}

/// Returns how many kinds of characters of a name another lacks. Each of them takes an edit, so this
/// tells names that are far from each other, at less cost than `osa_distance`.
fn lacks(name: &str, other: &str) -> usize {
    (kinds(name) & !kinds(other)).count_ones() as usize
}

/// Returns the characters of a name, as a set of 64 kinds.
fn kinds(name: &str) -> u64 {
    name.chars()
        .fold(0, |set, c| set | 1 << (u32::from(c) % 64))
}
