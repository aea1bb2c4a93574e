//! The clusters that are measured. Arbiters are all nodes, or those of a plane if there is one; the
//! tree is binary.

use anyhow::{Result, bail};
use mx_quorums::Quorums;
use mx_ricart::Count;
use mx_trees::Tree;
use std::alloc::{AllocError, Global};

pub(crate) const LIMIT: u64 = 1_000_000;

pub(crate) fn count_of(nodes: u8) -> Result<Count> {
    match Count::of(nodes) {
        Some(count) => Ok(count),
        None => bail!("1 to 21 nodes"),
    }
}

pub(crate) fn quorums_of(nodes: u8) -> Result<Quorums> {
    match Quorums::plane(nodes) {
        Ok(quorums) => Ok(quorums),
        Err(_) => Ok(Quorums::grid(1, nodes)?),
    }
}

/// Returns the edges of a binary tree: the parent of node i is node (i - 1) / 2.
fn binary_edges(alloc: Global, nodes: u8) -> Result<Vec<(u8, u8)>, AllocError> {
    let mut edges = Vec::new(alloc);
    for node in 1..nodes {
        edges.push(((node - 1) / 2, node))?;
    }
    Ok(edges)
}

pub(crate) fn binary_tree(alloc: Global, nodes: u8) -> Result<Tree> {
    let edges = binary_edges(alloc, nodes)?;
    Ok(Tree::of(nodes, edges.as_slice(), 0)?)
}
