//! The shifted difference sets of a plane.

ghost use Rattle.std.specs.Prelude.{◌≡◌, ℕ, ◌<◌, ◌≤◌, ◌↔◌, MatchOption, length};
ghost use Rattle.mx_stamps.specs.Lists.{IsIn};
ghost use Rattle.mx_quorums.specs.Rows.{IsMarked, IsMember};
ghost use Rattle.mx_quorums.specs.Shapes.{IsPlaneSize, difference_set, IsShifted};

use crate::check::{Row, Rows};
use mx_stamps::MAX_NODES;

/// Returns numbers whose differences, modulo n, are all the numbers below n. Returns `None` unless
/// n is 7, 13 or 21.
pub fn differences(n: u8) -> Option<&'static [u8]>
    ensures { MatchOption result
        (IsPlaneSize n → ⊥)
        (λ d. IsPlaneSize n × (d.now ≡ difference_set n)) }
{
    match n {
        7 => Some(&[0, 1, 3]),
        13 => Some(&[0, 1, 3, 9]),
        21 => Some(&[0, 1, 4, 14, 16]),
        _ => None,
    }
}

fn shifted(n: u8, differences: &[u8], i: u8) -> Row
    requires some { 0 < n }
    requires few { n ≤ MAX_NODES }
    requires node { i < n }
    requires small { (d : ℕ) → IsIn d differences.now → d < n }
    ensures { (j : ℕ) → IsMarked result j ↔ IsShifted n differences.now i j }
{
    let mut row = [false; MAX_NODES as usize];
    for d in differences {
        row[((i + *d) % n) as usize] = true;
    }
    row
}

/// Returns each node plus each of the differences, modulo n.
pub fn plane_rows(n: u8, differences: &[u8]) -> Rows
    requires some { 0 < n }
    requires few { n ≤ MAX_NODES }
    requires small { (d : ℕ) → IsIn d differences.now → d < n }
    ensures { (i j : ℕ) → IsMember result i j ↔ ((i < n) × IsShifted n differences.now i j) }
{
    let mut rows = [[false; MAX_NODES as usize]; MAX_NODES as usize];
    for i in 0..n {
        rows[i as usize] = shifted(n, differences, i);
    }
    rows
}
