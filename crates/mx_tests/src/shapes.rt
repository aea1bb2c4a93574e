//! Arbiter sets and trees: worked examples.

ghost use Rattle.std.specs.Prelude.{◌<◌};

use crate::given::{lists, node};
use mx_quorums::{QuorumFault, Quorums};
use mx_trees::{Tree, TreeFault};
use std::test::Fail;

#[test]
fn shapes_checked(rt: HostRuntime) -> Result<(), Fail> {
    let apart = Quorums::listed(&lists(rt.alloc(), &[&[0, 1], &[1], &[2]])?);
    assert!(rt; apart.err() == Some(QuorumFault::Apart(0, 2)));
    assert!(rt; Quorums::plane(8).err() == Some(QuorumFault::NoPlane(8)));
    assert!(rt; Quorums::grid(5, 5).err() == Some(QuorumFault::TooMany));
    assert!(rt; Tree::of(3, &[(0, 1), (0, 1)], 0).err() == Some(TreeFault::NotJoined(2)));
    assert!(rt; Tree::of(3, &[(0, 1), (1, 2)], 3).err() == Some(TreeFault::BadHolder));
    Ok(())
}

fn has_set(quorums: &Quorums, i: u8, members: &[u8]) -> bool
    requires { i < 21 }
{
    for j in 0..21 {
        if quorums.has(node(i), node(j)) != members.contains(&j) {
            return false;
        }
    }
    true
}

fn meets_in(quorums: &Quorums, other: u8, least: u8) -> bool {
    other < quorums.nodes() && quorums.meeting(node(0), node(other)) == node(least % 21)
}

#[test]
fn planes_and_grids_have_their_sets(rt: HostRuntime) -> Result<(), Fail> {
    let plane = Quorums::plane(13)?;
    assert!(rt; has_set(&plane, 0, &[0, 1, 3, 9]));
    assert!(rt; has_set(&plane, 1, &[1, 2, 4, 10]));
    assert!(rt; meets_in(&plane, 1, 1) && meets_in(&plane, 2, 3) && meets_in(&plane, 4, 0));
    assert!(rt; has_set(&Quorums::grid(2, 2)?, 0, &[0, 1, 2]));
    Ok(())
}

#[test]
fn trees_lead_to_their_holder(rt: HostRuntime) -> Result<(), Fail> {
    let tree = Tree::of(4, &[(2, 3), (1, 0), (2, 1)], 3)?;
    for (i, to) in [(0, 1), (1, 2), (2, 3), (3, 3)] {
        assert!(rt; i < tree.nodes() && tree.toward(node(i)).get() == to);
    }
    Ok(())
}
