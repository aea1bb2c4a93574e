ghost use Rattle.std.specs.Prelude.{◌≡◌, ℕ, ◌*◌, ◌<◌, ◌≤◌, ◌↔◌, IsTrue, IsOk, IfOk, IfErr, IsErrOf};
ghost use Rattle.mx_quorums.specs.Family.{Family, row_of, has_of, IsMeeting, IsWithin, IsCommon};
ghost use Rattle.mx_quorums.specs.Rules.{IsLeast};
ghost use Rattle.mx_quorums.specs.Lists.{lists_of, AreMeeting, IsFamilyOf, IsFirstFault};
ghost use Rattle.mx_quorums.specs.Shapes.{IsGrid, IsPlaneSize, IsPlane};
ghost use Rattle.mx_quorums.specs.Rows.{MarksNodes, IsChecked};

use crate::check::{Rows, check, first_common, node_count};
use crate::fault::QuorumFault;
use crate::lines::grid_rows;
use crate::lists::{check_filled, check_members, rows_of};
use crate::shifts::{differences, plane_rows};
use mx_stamps::{MAX_NODES, NodeId};
use std::marker::Model;

/// A family of arbiter sets, one for each of 1 to 21 nodes. Each node is in its own set, and any
/// two sets meet (Maekawa 1985).
#[derive(Clone, Copy, Debug, PartialEq, Eq)]
pub struct Quorums {
    nodes: u8,
    rows: Rows,
}

impl Model for Quorums {
    ghost use Rattle.mx_quorums.specs.Family.{Family, IsMeeting, IsWithin};

    ghost Value = { Family };

    ghost view = { λ q. record { count = q.nodes; rows = q.rows } };

    ghost invariant = { λ q. IsMeeting (record { count = q.nodes; rows = q.rows })
        × IsWithin (record { count = q.nodes; rows = q.rows }) };

    ghost inverse = { λ f. record { nodes = f.count; rows = f.rows } };
}

impl Quorums {
    /// Creates a family from lists of nodes, one for each node, in order. A member that is listed
    /// twice counts once.
    ///
    /// # Errors
    ///
    /// Returns the first rule that the lists break, in the order of `QuorumFault`, with the first
    /// numbers that break it.
    pub fn listed(sets: &[Vec<u8>]) -> Result<Quorums, QuorumFault>
        ensures ok { IsOk result ↔ AreMeeting (lists_of sets.now) }
        ensures sets { IfOk result (λ family. IsFamilyOf (lists_of sets.now) family) }
        // the first fault in their order, with its least witness; there is at most one
        ensures fault { (fault : QuorumFault) →
            IsErrOf result fault ↔ IsFirstFault (lists_of sets.now) fault }
    {
        let nodes = node_count(sets.len())?;
        check_filled(sets)?;
        check_members(sets, nodes)?;
        Quorums::checked(nodes, rows_of(sets))
    }

    /// Creates a grid of nodes, row by row. Node `r * cols + c` is in row r and column c, and its
    /// set is its row and its column.
    ///
    /// # Errors
    ///
    /// Returns `NoNodes` if the grid has no node, and `TooMany` if it has more than 21.
    pub fn grid(rows: u8, cols: u8) -> Result<Quorums, QuorumFault>
        ensures ok { IsOk result ↔ ((0 < rows * cols) × (rows * cols ≤ MAX_NODES)) }
        ensures sets { IfOk result (λ family. IsGrid rows cols family) }
        ensures no_nodes { IsErrOf result QuorumFault.NoNodes ↔ (rows * cols ≡ 0) }
        ensures too_many { IsErrOf result QuorumFault.TooMany ↔ (MAX_NODES < rows * cols) }
    {
        let nodes = node_count(rows as usize * cols as usize)?;
        Quorums::checked(nodes, grid_rows(nodes, cols))
    }

    /// Creates the projective plane of 7, 13 or 21 nodes. The set of node i is i plus each number
    /// of a difference set, modulo n (Singer 1938), so that any two sets meet.
    ///
    /// # Errors
    ///
    /// Returns `NoPlane` for any other number of nodes.
    pub fn plane(n: u8) -> Result<Quorums, QuorumFault>
        ensures ok { IsOk result ↔ IsPlaneSize n }
        ensures sets { IfOk result (λ family. IsPlane n family) }
        ensures no_plane { IfErr result (λ fault. fault ≡ QuorumFault.NoPlane n) }
    {
        let Some(differences) = differences(n) else {
            return Err(QuorumFault::NoPlane(n));
        };
        Quorums::checked(n, plane_rows(n, differences))
    }

    fn checked(nodes: u8, rows: Rows) -> Result<Quorums, QuorumFault>
        requires some { 0 < nodes }
        requires few { nodes ≤ MAX_NODES }
        requires marks { MarksNodes nodes rows }
        ensures { IsChecked nodes rows result }
    {
        check(nodes, &rows)?;
        Ok(Quorums { nodes, rows })
    }

    /// Returns the number of nodes.
    pub fn nodes(&self) -> u8
        ensures value { result ≡ self.now.count }
        ensures low { 0 < result }
        ensures high { result ≤ MAX_NODES }
        ensures valid { IsMeeting self.now }
        ensures within { IsWithin self.now }
    {
        self.nodes
    }

    /// Returns whether node j is in the set of node i. Returns `false` if either is no node of the
    /// family.
    pub fn has(&self, i: NodeId, j: NodeId) -> bool
        ensures value { result ≡ has_of self.now i j }
        ensures nodes { IsTrue result → (i < self.now.count) × (j < self.now.count) }
    {
        self.rows[i.get() as usize][j.get() as usize]
    }

    /// Returns the set of node i.
    pub fn set(&self, i: NodeId) -> [bool; MAX_NODES as usize]
        ensures { result ≡ row_of self.now i }
    {
        self.rows[i.get() as usize]
    }

    /// Returns the least node that is in the sets of both nodes.
    pub fn meeting(&self, i: NodeId, j: NodeId) -> NodeId
        requires first { i < self.now.count }
        requires second { j < self.now.count }
        ensures { IsLeast (IsCommon self.now i j) self.now.count result }
    {
        first_common(&self.rows[i.get() as usize], &self.rows[j.get() as usize]).unwrap()
    }
}
