//! Arbiter sets of Maekawa's algorithm.

use mx_quorums::Quorums;
use std::alloc::{AllocError, Global};
use std::test::Fail;

fn lists_of(alloc: Global, sets: &[&[u8]]) -> Result<Vec<Vec<u8>>, AllocError> {
    let mut lists = Vec::new(alloc);
    for set in sets {
        lists.push(set.to_vec(alloc)?)?;
    }
    Ok(lists)
}

/// Creates the family of these sets, one for each node, in order.
pub(crate) fn quorums_of(alloc: Global, sets: &[&[u8]]) -> Result<Quorums, Fail> {
    let lists = lists_of(alloc, sets)?;
    Ok(Quorums::listed(&lists)?)
}
