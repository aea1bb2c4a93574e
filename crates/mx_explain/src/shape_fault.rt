//! What is wrong in the arbiter sets or the tree of a plan as a whole.

use crate::json_report::JsonReport;
use crate::report::ReportResult;
use crate::spot::{Spot, index_in};
use mx_lines::Quoted;
use mx_plan::ShapeFault;
use mx_quorums::QuorumFault;
use mx_trees::TreeFault;
use std::alloc::AllocError;
use std::fmt;
use std::fmt::Display;

/// Adds the rule that the arbiter sets or the tree of a plan break; of a tree with a cycle, the
/// cycle.
pub(crate) fn add_shape(
    report: &mut JsonReport<'_>,
    plan: Spot<'_, '_>,
    fault: ShapeFault,
    nodes: &[&str],
) -> ReportResult {
    let (quorums, edges) = (plan.key("quorums"), plan.key("edges"));
    let spot = match fault {
        ShapeFault::Quorum(QuorumFault::EmptySet(i) | QuorumFault::NotOwnMember(i)) => {
            quorums.key("sets").item(usize::from(i))
        }
        ShapeFault::Quorum(QuorumFault::Apart(_, i)) => quorums.key("sets").item(usize::from(i)),
        ShapeFault::Quorum(QuorumFault::NoPlane(_)) => quorums.key("kind"),
        ShapeFault::Quorum(_) => quorums,
        ShapeFault::Tree(TreeFault::BadEdge(k)) => edges.item(k as usize),
        ShapeFault::Tree(_) if add_cycle(report, plan, nodes)? => return Ok(()),
        ShapeFault::Tree(_) => edges,
    };
    let count = edges.len();
    let mut text = String::new(report.alloc());
    text.write(ShapeText {
        fault,
        nodes,
        count,
    })?;
    report.add(spot, text.as_str())
}

#[derive(Clone, Copy)]
struct ShapeText<'a> {
    fault: ShapeFault,
    nodes: &'a [&'a str],
    count: usize,
}

impl Display for ShapeText<'_> {
    fn fmt<W: fmt::Write>(&self, f: &mut fmt::Formatter<W>) -> fmt::Result {
        let nodes = self.nodes;
        let node = |i: u8| NamedNode { nodes, i };
        match self.fault {
            ShapeFault::Quorum(QuorumFault::EmptySet(i)) => {
                write!(f, "the set of {} is empty", node(i))?;
                f.write_str(", expected that it has the node itself")
            }
            ShapeFault::Quorum(QuorumFault::NotOwnMember(i)) => {
                write!(f, "the set of {} lacks the node itself", node(i))
            }
            ShapeFault::Quorum(QuorumFault::Apart(i, j)) => {
                write!(f, "the sets of {} and of {}", node(i), node(j))?;
                f.write_str(" have no node in common, expected that any two do")
            }
            ShapeFault::Quorum(QuorumFault::NoPlane(n)) => {
                write!(f, "there is no plane of {n} nodes, expected 7, 13 or 21")?;
                f.write_str("; a grid has rows times cols")
            }
            ShapeFault::Tree(TreeFault::BadEdge(_)) => {
                f.write_str("this edge joins a node with itself")
            }
            ShapeFault::Tree(TreeFault::WrongCount) => {
                let wanted = nodes.len().saturating_sub(1);
                write!(f, "found {} edges, expected {wanted}", self.count)?;
                f.write_str(", one fewer than nodes")
            }
            ShapeFault::Tree(TreeFault::NotJoined(i)) => {
                write!(f, "no way leads from {} to {}", node(i), node(0))
            }
            _ => f.write_str("this is no shape of the nodes"),
        }
    }
}

#[derive(Clone, Copy)]
struct NamedNode<'a> {
    nodes: &'a [&'a str],
    i: u8,
}

impl Display for NamedNode<'_> {
    fn fmt<W: fmt::Write>(&self, f: &mut fmt::Formatter<W>) -> fmt::Result {
        let name = self.nodes.get(usize::from(self.i)).copied().unwrap_or("");
        write!(f, "{name} (node {})", self.i)
    }
}

/// Adds the first edge between two nodes that earlier edges connect. Returns whether there is one.
pub(crate) fn add_cycle(
    report: &mut JsonReport<'_>,
    plan: Spot<'_, '_>,
    nodes: &[&str],
) -> Result<bool, AllocError> {
    let alloc = report.alloc();
    // of each node, the number of its part: nodes that earlier edges connect are in one
    let mut parts: Vec<usize> = (0..nodes.len()).collect(alloc)?;
    let edges = plan.key("edges");
    for k in 0..edges.len() {
        let edge = edges.item(k);
        let (first, second) = (edge.item(0).text(), edge.item(1).text());
        if first != second && join(parts.as_mut_slice(), nodes, first, second) == Some(false) {
            let (first, second) = (Quoted(first), Quoted(second));
            let text = format!(in alloc;
                "this edge makes a cycle, since earlier edges connect {first} and {second}"
            )?;
            report.add(edge, text.as_str())?;
            return Ok(true);
        }
    }
    Ok(false)
}

/// Joins the parts of two nodes, and returns whether they were apart before.
fn join(parts: &mut [usize], nodes: &[&str], first: &str, second: &str) -> Option<bool> {
    let kept = parts.get(index_in(first, nodes)?).copied()?;
    let gone = parts.get(index_in(second, nodes)?).copied()?;
    for part in parts {
        if *part == gone {
            *part = kept;
        }
    }
    Some(kept != gone)
}
