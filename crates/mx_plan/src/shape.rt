ghost use Rattle.std.specs.Prelude.{◌≡◌, ◌*◌, ◌<◌, ◌≤◌, length};
ghost use Rattle.mx_quorums.specs.Lists.{lists_of};
ghost use Rattle.mx_plan.specs.Shapes.{IsShaped};
ghost use Rattle.mx_plan.specs.Shapes as shape_planned;

use crate::faults::ShapeFault;
use mx_quorums::Quorums;
use mx_ricart::Count;
use mx_stamps::MAX_NODES;
use mx_trees::Tree;

/// The shape of a cluster, by the algorithm that its nodes run.
#[derive(Clone, Copy, Debug, PartialEq, Eq)]
pub enum Shape {
    /// Each node asks all others. The count is the number of nodes.
    Ricart(Count),
    /// Each node asks its arbiters. The quorums are the sets of arbiters, any two of which have a
    /// node in common.
    Maekawa(Quorums),
    /// The privilege (token) moves along the edges of a tree. The root is its first holder.
    Raymond(Tree),
}

impl Shape {
    pub(crate) fn all_others(n: u8) -> Shape
        requires some { 0 < n }
        requires few { n ≤ MAX_NODES }
        ensures { result ≡ Shape.Ricart n }
    {
        Shape::Ricart(Count::of(n).unwrap())
    }

    pub(crate) fn plane(n: u8) -> Result<Shape, ShapeFault>
        ensures { IsShaped n shape_planned.plane result }
    {
        Ok(Shape::Maekawa(Quorums::plane(n)?))
    }

    pub(crate) fn grid(n: u8, rows: u8, cols: u8) -> Result<Shape, ShapeFault>
        requires some { 0 < n }
        requires few { n ≤ MAX_NODES }
        requires size { rows * cols ≡ n }
        ensures { IsShaped n (shape_planned.grid rows cols) result }
    {
        Ok(Shape::Maekawa(Quorums::grid(rows, cols)?))
    }

    pub(crate) fn listed(n: u8, sets: &[Vec<u8>]) -> Result<Shape, ShapeFault>
        requires { length sets.now ≡ n }
        ensures { IsShaped n (shape_planned.listed (lists_of sets.now)) result }
    {
        Ok(Shape::Maekawa(Quorums::listed(sets)?))
    }

    pub(crate) fn tree(n: u8, edges: &[(u8, u8)], holder: u8) -> Result<Shape, ShapeFault>
        ensures { IsShaped n (shape_planned.tree edges.now holder) result }
    {
        Ok(Shape::Raymond(Tree::of(n, edges, holder)?))
    }
}
