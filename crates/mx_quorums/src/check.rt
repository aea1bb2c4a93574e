//! The check that any two sets meet. It is the same for lists, grids and planes.

ghost use Rattle.std.specs.Prelude.{◌≡◌, ℕ, ◌<◌, ◌≤◌, ◌↔◌, MatchOption, MatchResult};
ghost use Rattle.mx_quorums.specs.Rules.{IsLeast, AllOwn, AllMeet, MeetsAll, IsFirstNotOwn, IsFirstApart, IsFirstApartOf};
ghost use Rattle.mx_quorums.specs.Rows.{IsMember, BothMark, IsFirstRowFault};
ghost use Rattle.mx_quorums.specs.Lists.{IsCountFault};

use crate::fault::QuorumFault;
use mx_stamps::{MAX_NODES, NodeId};

/// The members of a set: for each node, whether it is in the set.
pub type Row = [bool; MAX_NODES as usize];

/// The set of each node. The rows after the last node are empty.
pub type Rows = [Row; MAX_NODES as usize];

/// Checks that the number of nodes is from 1 to 21, and returns it.
///
/// # Errors
///
/// Returns `NoNodes` if it is 0, and `TooMany` if it is above 21.
pub fn node_count(count: usize) -> Result<u8, QuorumFault>
    ensures { MatchResult result
        (λ n. (n ≡ count) × (0 < n) × (n ≤ MAX_NODES))
        (λ fault. IsCountFault count fault) }
{
    match count {
        0 => Err(QuorumFault::NoNodes),
        _ if count > MAX_NODES as usize => Err(QuorumFault::TooMany),
        _ => Ok(count as u8),
    }
}

/// Returns the least node that is in both sets.
pub fn first_common(a: &Row, b: &Row) -> Option<NodeId>
    ensures { MatchOption result
        ((k : ℕ) → BothMark a.now b.now k → ⊥)
        (λ k. IsLeast (BothMark a.now b.now) MAX_NODES k) }
{
    for k in 0..MAX_NODES {
        if a[k as usize] && b[k as usize] {
            return NodeId::of(k);
        }
    }
    None
}

fn first_apart(nodes: u8, rows: &Rows, i: u8) -> Option<u8>
    requires few { nodes ≤ MAX_NODES }
    requires node { i < nodes }
    ensures { MatchOption result
        (MeetsAll (IsMember rows.now) nodes i)
        (λ j. IsFirstApartOf (IsMember rows.now) nodes i j) }
{
    for j in 0..nodes {
        let Some(_) = first_common(&rows[i as usize], &rows[j as usize]) else {
            return Some(j);
        };
    }
    None
}

fn check_own(nodes: u8, rows: &Rows) -> Result<(), QuorumFault>
    requires { nodes ≤ MAX_NODES }
    ensures { MatchResult result
        (λ _. AllOwn (IsMember rows.now) nodes)
        (λ fault. IsFirstRowFault nodes rows.now fault) }
{
    for i in 0..nodes {
        if !rows[i as usize][i as usize] {
            return Err(QuorumFault::NotOwnMember(i));
        }
    }
    Ok(())
}

fn check_pairs(nodes: u8, rows: &Rows) -> Result<(), QuorumFault>
    requires few { nodes ≤ MAX_NODES }
    requires own { AllOwn (IsMember rows.now) nodes }
    ensures { MatchResult result
        (λ _. AllMeet (IsMember rows.now) nodes)
        (λ fault. IsFirstRowFault nodes rows.now fault) }
{
    for i in 0..nodes {
        if let Some(j) = first_apart(nodes, rows, i) {
            return Err(QuorumFault::Apart(i, j));
        }
    }
    Ok(())
}

/// Checks that each node is in its own set, and that any two sets meet.
///
/// # Errors
///
/// Returns `NotOwnMember` with the least node that is not in its own set. Otherwise returns `Apart`
/// with the least pair of nodes whose sets do not meet.
pub fn check(nodes: u8, rows: &Rows) -> Result<(), QuorumFault>
    requires { nodes ≤ MAX_NODES }
    ensures { MatchResult result
        (λ _. AllOwn (IsMember rows.now) nodes × AllMeet (IsMember rows.now) nodes)
        (λ fault. IsFirstRowFault nodes rows.now fault) }
{
    check_own(nodes, rows)?;
    check_pairs(nodes, rows)
}
