//! The rows and columns of a grid.

ghost use Rattle.std.specs.Prelude.{◌≡◌, ℕ, ◌<◌, ◌≤◌, ◌↔◌, IsTrue};
ghost use Rattle.mx_quorums.specs.Rows.{IsMarked, IsMember};
ghost use Rattle.mx_quorums.specs.Shapes.{ShareLine, IsInLine};

use crate::check::{Row, Rows};
use mx_stamps::MAX_NODES;

fn share_line(cols: u8, i: u8, j: u8) -> bool
    requires { 0 < cols }
    ensures { IsTrue result ↔ ShareLine cols i j }
{
    i / cols == j / cols || i % cols == j % cols
}

fn lines_of(nodes: u8, cols: u8, i: u8) -> Row
    requires few { nodes ≤ MAX_NODES }
    requires some { 0 < cols }
    ensures { (j : ℕ) → IsMarked result j ↔ IsInLine nodes cols i j }
{
    let mut row = [false; MAX_NODES as usize];
    for j in 0..nodes {
        row[j as usize] = share_line(cols, i, j);
    }
    row
}

/// Returns the row and the column of each node.
pub fn grid_rows(nodes: u8, cols: u8) -> Rows
    requires few { nodes ≤ MAX_NODES }
    requires some { 0 < cols }
    ensures { (i j : ℕ) → IsMember result i j ↔ ((i < nodes) × IsInLine nodes cols i j) }
{
    let mut rows = [[false; MAX_NODES as usize]; MAX_NODES as usize];
    for i in 0..nodes {
        rows[i as usize] = lines_of(nodes, cols, i);
    }
    rows
}
