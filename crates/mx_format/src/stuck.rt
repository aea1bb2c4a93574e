//! The line of a run that stands still: which nodes wait, and for whom.

ghost use Rattle.std.specs.Prelude.{◌≡◌, ◌++◌, IfOk, OnOk, find, option_map, string_bytes};
ghost use Rattle.mx_format.specs.StuckTexts.{names_others, nodes_in, others_in, relation_of, stuck_line, stuck_text, waiter, waiter_json, waiter_text};
ghost use Rattle.mx_format.specs.EventArrays.{quoted};
ghost use Rattle.mx_format.specs.EventTexts.{name_of};

use crate::events::name_of;
use crate::json::{add_array, start_node};
use crate::lists::{Json, Line, Listed, add_each, add_joined};
use mx_knowledge::{Fact, Facts, Item};
use mx_plan::Plan;
use mx_stamps::NodeId;
use std::alloc::{AllocError, Global};
use std::marker::Model;

/// A node that waits, and the nodes for which it waits.
#[derive(Drop)]
pub struct Waiter {
    node: NodeId,
    others: Vec<NodeId>,
}

impl Model for Waiter {
    ghost use Rattle.mx_format.specs.StuckTexts.{WaiterState};

    ghost Value = { WaiterState };

    ghost view = { λ w. record { node = w.node; others = w.others.items } };
}

impl Waiter {
    /// Creates a waiter of a node that waits, and the facts that it knows.
    ///
    /// # Errors
    ///
    /// Returns `AllocError` if memory runs out.
    pub fn new(alloc: Global, node: NodeId, facts: &Facts) -> Result<Waiter, AllocError>
        ensures { IfOk result (λ w. w ≡ waiter node facts.now) }
    {
        let others = others_in(alloc, facts)?;
        Ok(Waiter { node, others })
    }
}

impl Listed<Line> for Waiter {
    ghost written = { waiter_text };

    fn add(&self, plan: &Plan, text: &mut String) -> Result<(), AllocError> {
        text.push_str(name_of(plan, self.node))?;
        text.push_str(" waits")?;
        if self.others.is_empty() {
            return Ok(());
        }
        text.push_str(" for")?;
        add_each::<Line, NodeId>(plan, " ", self.others.as_slice(), text)
    }
}

impl Listed<Json> for Waiter {
    ghost written = { waiter_json };

    fn add(&self, plan: &Plan, text: &mut String) -> Result<(), AllocError> {
        start_node(plan, self.node, text)?;
        add_array(plan, "for", self.others.as_slice(), text)?;
        text.push_str("}")
    }
}

impl Listed<Line> for NodeId {
    ghost written = { name_of };

    fn add(&self, plan: &Plan, text: &mut String) -> Result<(), AllocError> {
        text.push_str(name_of(plan, *self))
    }
}

impl Listed<Json> for NodeId {
    ghost written = { λ p node. quoted (name_of p node) };

    fn add(&self, plan: &Plan, text: &mut String) -> Result<(), AllocError> {
        write!(text, "\"{}\"", name_of(plan, *self))
    }
}

/// What the nodes in a fact are to the node that knows it.
#[derive(Clone, Copy)]
pub enum Relation {
    /// Those for which it waits.
    Awaited,
    /// Any others.
    Other,
}

/// Returns the nodes for which a node waits that knows these facts.
fn others_in(alloc: Global, facts: &Facts) -> Result<Vec<NodeId>, AllocError>
    ensures { IfOk result (λ others. others.items ≡ others_in facts.now) }
{
    match others_fact(facts.as_slice()) {
        Some(fact) => nodes_in(alloc, fact.items.as_slice()),
        None => Ok(Vec::new(alloc)),
    }
}

fn others_fact(facts: &[Fact]) -> Option<&Fact>
    ensures { option_map (λ fact. fact.now) result
        ≡ find (λ fact. names_others fact.name.now) facts.now }
{
    facts
        .iter()
        .find(|fact| matches!(relation_of(fact.name), Relation::Awaited))
}

fn relation_of(name: &str) -> Relation
    ensures { result ≡ relation_of name.now }
{
    match name {
        "missing" | "privilege towards" => Relation::Awaited,
        _ => Relation::Other,
    }
}

fn nodes_in(alloc: Global, items: &[Item]) -> Result<Vec<NodeId>, AllocError>
    ensures { IfOk result (λ nodes. nodes.items ≡ nodes_in items.now) }
{
    let mut nodes = Vec::new(alloc);
    for item in items {
        if let Item::Node(node) = item {
            nodes.push(*node)?;
        }
    }
    Ok(nodes)
}

/// Appends the line of a run in which nothing is under way, and these nodes wait; as an object of
/// JSON if `is_json`. Appends nothing if none waits.
pub fn add_stuck(
    plan: &Plan,
    is_json: bool,
    waiters: &[Waiter],
    text: &mut String,
) -> Result<(), AllocError>
    ensures { OnOk result (string_bytes text.new
        ≡ string_bytes text.old ++ stuck_text is_json plan.now waiters.now) }
{
    if waiters.is_empty() {
        return Ok(());
    }
    if is_json {
        text.push_str("{\"stuck\":[")?;
        add_joined::<Json, Waiter>(plan, ",", waiters, text)?;
        return text.push_str("]}\n");
    }
    add_line(plan, waiters, text)
}

fn add_line(plan: &Plan, waiters: &[Waiter], text: &mut String) -> Result<(), AllocError>
    ensures { OnOk result (string_bytes text.new
        ≡ string_bytes text.old ++ stuck_line plan.now waiters.now) }
{
    text.push_str("stuck: nothing under way")?;
    add_each::<Line, Waiter>(plan, "; ", waiters, text)?;
    text.push_str("\n")
}
