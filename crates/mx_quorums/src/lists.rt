//! Sets given as lists of members.

ghost use Rattle.std.specs.Prelude.{◌≡◌, ℕ, ◌<◌, ◌≤◌, ◌↔◌, MatchResult, find, nat_le, length};
ghost use Rattle.mx_quorums.specs.Lists.{lists_of, list_of, IsListed, NoneEmpty, AllNodes, IsFirstEmpty, IsFirstStranger, IsEmptyFault, IsStrangerFault};
ghost use Rattle.mx_quorums.specs.Rows.{Marks, MarksLists};
ghost use Rattle.mx_stamps.specs.Lists.{IsIn};

use crate::check::{Row, Rows};
use crate::fault::QuorumFault;
use mx_stamps::MAX_NODES;

/// Checks that no set is empty.
///
/// # Errors
///
/// Returns `EmptySet` with the least node whose set is empty.
pub fn check_filled(sets: &[Vec<u8>]) -> Result<(), QuorumFault>
    requires { length sets.now ≤ MAX_NODES }
    ensures { MatchResult result
        (λ _. NoneEmpty (lists_of sets.now))
        (λ fault. IsEmptyFault (lists_of sets.now) fault) }
{
    for (i, set) in sets.iter().enumerate() {
        if set.is_empty() {
            return Err(QuorumFault::EmptySet(i as u8));
        }
    }
    Ok(())
}

fn first_stranger(set: &[u8], nodes: u8) -> Option<u8>
    ensures { result ≡ find (nat_le nodes) set.now }
{
    set.iter().copied().find(|j| nodes <= *j)
}

/// Checks that each member is a node.
///
/// # Errors
///
/// Returns `Stranger` with the least node whose list has a member that is no node, and the first
/// such member.
pub fn check_members(sets: &[Vec<u8>], nodes: u8) -> Result<(), QuorumFault>
    requires count { nodes ≡ length sets.now }
    requires few { length sets.now ≤ MAX_NODES }
    ensures { MatchResult result
        (λ _. AllNodes (lists_of sets.now))
        (λ fault. IsStrangerFault (lists_of sets.now) fault) }
{
    for (i, set) in sets.iter().enumerate() {
        if let Some(j) = first_stranger(set, nodes) {
            return Err(QuorumFault::Stranger(i as u8, j));
        }
    }
    Ok(())
}

fn row_of(set: &[u8]) -> Row
    requires { (j : ℕ) → IsIn j set.now → j < MAX_NODES }
    ensures { Marks result set.now }
{
    let mut row = [false; MAX_NODES as usize];
    for j in set {
        row[*j as usize] = true;
    }
    row
}

/// Returns the rows that mark the nodes of each list.
pub fn rows_of(sets: &[Vec<u8>]) -> Rows
    requires few { length sets.now ≤ MAX_NODES }
    requires nodes { AllNodes (lists_of sets.now) }
    ensures { MarksLists result (lists_of sets.now) }
{
    let mut rows = [[false; MAX_NODES as usize]; MAX_NODES as usize];
    for (i, set) in sets.iter().enumerate() {
        rows[i] = row_of(set);
    }
    rows
}
