//! Lists of the values in a table that has an entry for each node.

ghost use Rattle.std.specs.Prelude.{◌≡◌, ◌≤◌, IfOk, length};
ghost use Rattle.mx_stamps.specs.declared.limits.TheConstants.{MAX_NODES};
ghost use Rattle.mx_knowledge.specs.Tables.{below, node_at, number_at, stamp_at};

use crate::fact::Item;
use mx_stamps::{MAX_NODES, NodeId, Stamp};
use std::alloc::{AllocError, Global};

/// Returns those of the first `count` nodes that a table marks.
///
/// # Errors
///
/// Returns `AllocError` if memory runs out.
pub fn nodes_in(
    alloc: Global,
    marks: &[bool; MAX_NODES as usize],
    count: u8,
) -> Result<Vec<Item>, AllocError>
    requires { count ≤ MAX_NODES }
    ensures { IfOk result (λ items. items.items ≡ below (node_at marks.now) count) }
{
    let mut items = Vec::new(alloc);
    for i in 0..count {
        if let Some(node) = NodeId::of(i) {
            if marks[i as usize] {
                items.push(Item::Node(node))?;
            }
        }
    }
    Ok(items)
}

/// Returns the stamps that a table has for the first `count` nodes.
///
/// # Errors
///
/// Returns `AllocError` if memory runs out.
pub fn stamps_in(
    alloc: Global,
    stamps: &[Option<Stamp>; MAX_NODES as usize],
    count: u8,
) -> Result<Vec<Item>, AllocError>
    requires { count ≤ MAX_NODES }
    ensures { IfOk result (λ items. items.items ≡ below (stamp_at stamps.now) count) }
{
    let mut items = Vec::new(alloc);
    for i in 0..count {
        if let Some(stamp) = stamps[i as usize] {
            items.push(Item::Stamp(stamp))?;
        }
    }
    Ok(items)
}

/// Returns the numbers that a table has for the first `count` nodes, each with its node.
///
/// # Errors
///
/// Returns `AllocError` if memory runs out.
pub fn numbers_in(
    alloc: Global,
    numbers: &[Option<u64>; MAX_NODES as usize],
    count: u8,
) -> Result<Vec<Item>, AllocError>
    requires { count ≤ MAX_NODES }
    ensures { IfOk result (λ items. items.items ≡ below (number_at numbers.now) count) }
{
    let mut items = Vec::new(alloc);
    for i in 0..count {
        if let Some(node) = NodeId::of(i) {
            if let Some(number) = numbers[i as usize] {
                items.push(Item::Numbered(node, number))?;
            }
        }
    }
    Ok(items)
}
