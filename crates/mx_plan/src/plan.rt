ghost use Rattle.std.specs.Prelude.{◌≡◌, ◌<◌, ◌≤◌, IfSome, length, option_map, slice_get};
ghost use Rattle.std.specs.List.{range_with_len};
ghost use Rattle.mx_plan.specs.Text.{AreNames};
ghost use Rattle.mx_plan.specs.Fields.{node_of, register_of, IsShape};
ghost use Rattle.mx_plan.specs.PlanParts.{plan_of};

use crate::names::Names;
use crate::shape::Shape;
use mx_stamps::{MAX_NODES, MAX_REGISTERS, MAX_SECTIONS, NodeId, NodeIds};
use std::marker::Model;

/// A plan of a cluster. It has the names of the nodes, 1 to 21, and of the registers that they
/// guard, 1 to 32. It also has the greatest section number, the origin from which stamps, grants
/// and hops count on, and the shape. The arbiter sets or the tree of the shape are over exactly
/// these nodes.
#[derive(Drop)]
pub struct Plan {
    pub(crate) nodes: Names,
    pub(crate) registers: Names,
    pub(crate) sections: u64,
    pub(crate) origin: u64,
    pub(crate) shape: Shape,
}

impl Model for Plan {
    ghost use Rattle.mx_plan.specs.Fields.{Fields, IsPlan};

    ghost Value = { Fields };

    ghost view = { λ p. record {
      nodes = p.nodes;
      registers = p.registers;
      sections = p.sections;
      origin = p.origin;
      shape = p.shape;
    } };

    ghost invariant = { λ p. IsPlan (record {
      nodes = p.nodes;
      registers = p.registers;
      sections = p.sections;
      origin = p.origin;
      shape = p.shape;
    }) };
}

impl Plan {
    pub(crate) fn of(
        nodes: Names,
        registers: Names,
        sections: u64,
        origin: u64,
        shape: Shape,
    ) -> Plan
        requires nodes { AreNames MAX_NODES nodes }
        requires registers { AreNames MAX_REGISTERS registers }
        requires some_sections { 1 ≤ sections }
        requires few_sections { sections ≤ MAX_SECTIONS }
        requires shape { IsShape (length nodes) shape }
        ensures { result ≡ plan_of nodes registers sections origin shape }
    {
        Plan {
            nodes,
            registers,
            sections,
            origin,
            shape,
        }
    }

    /// Returns the shape of the cluster, over exactly its nodes.
    pub fn shape(&self) -> &Shape
        ensures value { result.now ≡ self.now.shape }
        ensures valid { IsShape (length self.now.nodes) result.now }
    {
        &self.shape
    }

    /// Returns the number of nodes.
    pub fn nodes(&self) -> u8
        ensures value { result ≡ length self.now.nodes }
        ensures low { 0 < result }
        ensures high { result ≤ MAX_NODES }
    {
        self.nodes.len() as u8
    }

    /// Returns the nodes, in order.
    pub fn node_ids(&self) -> NodeIds
        ensures { result ≡ range_with_len 0 (length self.now.nodes) }
    {
        NodeIds::below(self.nodes())
    }

    /// Returns the number of registers.
    pub fn registers(&self) -> u8
        ensures value { result ≡ length self.now.registers }
        ensures low { 0 < result }
        ensures high { result ≤ MAX_REGISTERS }
    {
        self.registers.len() as u8
    }

    /// Returns the greatest section number.
    pub fn sections(&self) -> u64
        ensures value { result ≡ self.now.sections }
        ensures low { 1 ≤ result }
        ensures high { result ≤ MAX_SECTIONS }
    {
        self.sections
    }

    /// Returns the number from which stamps, grants and hops count.
    pub fn origin(&self) -> u64
        ensures value { result ≡ self.now.origin }
    {
        self.origin
    }

    /// Returns the name of the node with this number.
    pub fn node_name(&self, index: u8) -> Option<&str>
        ensures value { option_map (λ s. s.now) result ≡ slice_get self.now.nodes index }
    {
        self.nodes.get(usize::from(index))
    }

    /// Returns the name of the register with this number.
    pub fn register_name(&self, index: u8) -> Option<&str>
        ensures value { option_map (λ s. s.now) result ≡ slice_get self.now.registers index }
    {
        self.registers.get(usize::from(index))
    }

    /// Returns the node with this name.
    pub fn node(&self, name: &str) -> Option<NodeId>
        ensures value { result ≡ node_of self.now name.now }
        ensures within { IfSome result (λ n. n < length self.now.nodes) }
    {
        let index = self.nodes.index_of(name)?;
        NodeId::of(index as u8)
    }

    /// Returns the number of the register with this name.
    pub fn register(&self, name: &str) -> Option<u8>
        ensures value { result ≡ register_of self.now name.now }
        ensures within { IfSome result (λ r. r < length self.now.registers) }
    {
        let index = self.registers.index_of(name)?;
        Some(index as u8)
    }
}
