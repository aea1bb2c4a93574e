//! What a plan says of its cluster.

ghost use Rattle.std.specs.Prelude.{◌≡◌, ◌<◌, ◌++◌, length, string_bytes, OnOk};
ghost use Rattle.mx_plan.specs.Fields.{IsShape};
ghost use Rattle.mx_format.specs.PlanTexts.{meetings_text, plan_text_by, shape_text, toward_text};

use crate::plan_facts::{FactPrinter, PlanFact};
use mx_plan::{Plan, Shape};
use mx_quorums::Quorums;
use mx_stamps::NodeId;
use mx_trees::Tree;
use std::alloc::AllocError;

/// Appends the line of a plan. For Maekawa's algorithm, a line for each pair of nodes follows, with
/// the first arbiter that both have; for Raymond's, a line for each node but the holder, with its
/// neighbour on the way to the holder. If `is_json`, appends JSON objects, one on a line.
#[tactic(auto, using(crate::proofs::NodeLemmas::node_below))]
pub fn add_plan(plan: &Plan, is_json: bool, text: &mut String) -> Result<(), AllocError>
    ensures { OnOk result (string_bytes text.new
        ≡ string_bytes text.old ++ plan_text_by is_json plan.now) }
{
    let printer = FactPrinter { plan, is_json };
    printer.add(&PlanFact::Sizes, text)?;
    for node in plan.node_ids() {
        printer.add_shape(node, text)?;
    }
    Ok(())
}

impl FactPrinter<'_> {
    fn add_shape(&self, node: NodeId, text: &mut String) -> Result<(), AllocError>
        requires { node < length self.now.plan.now.nodes }
        ensures { OnOk result (string_bytes text.new ≡ string_bytes text.old ++ shape_text
            self.now.is_json self.now.plan.now self.now.plan.now.shape node) }
    {
        match self.plan.shape() {
            Shape::Ricart(_) => Ok(()),
            Shape::Maekawa(sets) => self.add_meetings(sets, node, text),
            Shape::Raymond(tree) => self.add_direction(tree, node, text),
        }
    }

    #[tactic(auto, using(crate::proofs::NodeLemmas::node_below))]
    fn add_meetings(
        &self,
        sets: &Quorums,
        first: NodeId,
        text: &mut String,
    ) -> Result<(), AllocError>
        requires count { sets.now.count ≡ length self.now.plan.now.nodes }
        requires there { first < sets.now.count }
        ensures { OnOk result (string_bytes text.new ≡ string_bytes text.old
            ++ meetings_text self.now.is_json self.now.plan.now sets.now first) }
    {
        for second in self.plan.node_ids() {
            if second.get() <= first.get() {
                continue;
            }
            let node = sets.meeting(first, second);
            self.add(&PlanFact::Meeting(first, second, node), text)?;
        }
        Ok(())
    }

    fn add_direction(&self, tree: &Tree, node: NodeId, text: &mut String) -> Result<(), AllocError>
        requires { node < tree.now.count }
        ensures { OnOk result (string_bytes text.new ≡ string_bytes text.old
            ++ toward_text self.now.is_json self.now.plan.now tree.now node) }
    {
        if node.get() == tree.holder().get() {
            return Ok(());
        }
        self.add(&PlanFact::Toward(node, tree.toward(node)), text)
    }
}
