//! Whom each node of a plan asks for a section.

ghost use Rattle.std.specs.Prelude.{◌≡◌, ◌<◌, ◌++◌, length, string_bytes, OnOk};
ghost use Rattle.mx_format.specs.AskTexts.{asked_names, asks_line, asks_lines, asks_of};

use crate::events::name_of;
use crate::plan_facts::{FactPrinter, PlanFact};
use mx_plan::{Plan, Shape};
use mx_stamps::NodeId;
use std::alloc::AllocError;

/// Appends a line for each node, in the order of the plan, with the names of those that it asks. If
/// `is_json`, appends a JSON object for each pair of a node and a node that it asks, one on a line.
#[tactic(auto, using(crate::proofs::NodeLemmas::node_below))]
pub fn add_asks(plan: &Plan, is_json: bool, text: &mut String) -> Result<(), AllocError>
    ensures { OnOk result (string_bytes text.new
        ≡ string_bytes text.old ++ asks_lines is_json plan.now) }
{
    let printer = FactPrinter { plan, is_json };
    for node in plan.node_ids() {
        printer.add_asks_of(node, text)?;
    }
    Ok(())
}

impl FactPrinter<'_> {
    fn add_asks_of(&self, node: NodeId, text: &mut String) -> Result<(), AllocError>
        requires { node < length self.now.plan.now.nodes }
        ensures { OnOk result (string_bytes text.new ≡ string_bytes text.old
            ++ asks_line self.now.is_json self.now.plan.now node) }
    {
        if self.is_json {
            return self.add_asked(node, text);
        }
        write!(text, "asks {}:", name_of(self.plan, node))?;
        self.add_asked(node, text)?;
        text.push_str("\n")
    }

    fn add_asked(&self, node: NodeId, text: &mut String) -> Result<(), AllocError>
        requires { node < length self.now.plan.now.nodes }
        ensures { OnOk result (string_bytes text.new ≡ string_bytes text.old
            ++ asked_names self.now.is_json self.now.plan.now node) }
    {
        for other in self.plan.node_ids() {
            if asks(self.plan, node, other) {
                self.add(&PlanFact::Asks(node, other), text)?;
            }
        }
        Ok(())
    }
}

fn asks(plan: &Plan, node: NodeId, other: NodeId) -> bool
    requires { node < length plan.now.nodes }
    ensures { result ≡ asks_of plan.now.shape node other }
{
    match plan.shape() {
        Shape::Ricart(_) => node.get() != other.get(),
        Shape::Maekawa(sets) => sets.has(node, other),
        Shape::Raymond(tree) if node.get() == tree.holder().get() => false,
        Shape::Raymond(tree) => tree.toward(node).get() == other.get(),
    }
}
