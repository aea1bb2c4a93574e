//! Facts about a plan, as lines and as objects of JSON.

ghost use Rattle.std.specs.Prelude.{◌≡◌, ◌++◌, OnOk, Some, string_bytes};
ghost use Rattle.mx_format.specs.PlanTexts.{algorithm_text, bounds_text, plan_fact_json, plan_fact_line, plan_fact_text};

use crate::events::name_of;
use crate::lists::{Json, Line, Listed};
use mx_plan::{Plan, Shape};
use mx_stamps::NodeId;
use std::alloc::AllocError;
use std::fmt;

/// A fact about a plan.
#[derive(Clone, Copy)]
pub enum PlanFact {
    /// Its algorithm, how many nodes it has, and its bounds.
    Sizes,
    /// Two nodes, and the first arbiter that both have.
    Meeting(NodeId, NodeId, NodeId),
    /// A node, and its neighbour on the way to the holder.
    Toward(NodeId, NodeId),
    /// A node, and one that it asks; in lines, only the name of the latter.
    Asks(NodeId, NodeId),
}

/// What prints facts about a plan: as lines, or as objects of JSON, one on a line.
#[derive(Clone, Copy)]
pub(crate) struct FactPrinter<'a> {
    pub(crate) plan: &'a Plan,
    pub(crate) is_json: bool,
}

impl FactPrinter<'_> {
    /// Appends a fact.
    pub(crate) fn add(&self, fact: &PlanFact, text: &mut String) -> Result<(), AllocError>
        ensures { OnOk result (string_bytes text.new ≡ string_bytes text.old
            ++ plan_fact_text self.now.is_json self.now.plan.now fact.now) }
    {
        if self.is_json {
            return Listed::<Json>::add(fact, self.plan, text);
        }
        Listed::<Line>::add(fact, self.plan, text)
    }
}

impl Listed<Line> for PlanFact {
    ghost written = { plan_fact_line };

    fn add(&self, plan: &Plan, text: &mut String) -> Result<(), AllocError> {
        match self {
            PlanFact::Sizes => {
                let algorithm = algorithm_of(plan.shape());
                let nodes = plan.nodes();
                let bounds = BoundsText(plan, false);
                writeln!(text, "plan {algorithm}, nodes {nodes}{bounds}")
            }
            PlanFact::Meeting(first, second, node) => {
                let (first, second) = (name_of(plan, *first), name_of(plan, *second));
                writeln!(text, "meet {first} {second}: {}", name_of(plan, *node))
            }
            PlanFact::Toward(node, next) => {
                let (node, next) = (name_of(plan, *node), name_of(plan, *next));
                writeln!(text, "toward {node}: {next}")
            }
            PlanFact::Asks(_, other) => write!(text, " {}", name_of(plan, *other)),
        }
    }
}

impl Listed<Json> for PlanFact {
    ghost written = { plan_fact_json };

    fn add(&self, plan: &Plan, text: &mut String) -> Result<(), AllocError> {
        match self {
            PlanFact::Sizes => {
                let algorithm = algorithm_of(plan.shape());
                let nodes = plan.nodes();
                let bounds = BoundsText(plan, true);
                writeln!(
                    text,
                    "{{\"plan\":\"{algorithm}\",\"nodes\":{nodes}{bounds}}}"
                )
            }
            PlanFact::Meeting(first, second, node) => {
                let (first, second) = (name_of(plan, *first), name_of(plan, *second));
                let node = name_of(plan, *node);
                writeln!(
                    text,
                    "{{\"meet\":[\"{first}\",\"{second}\"],\"arbiter\":\"{node}\"}}"
                )
            }
            PlanFact::Toward(node, next) => {
                let (node, next) = (name_of(plan, *node), name_of(plan, *next));
                writeln!(text, "{{\"node\":\"{node}\",\"toward\":\"{next}\"}}")
            }
            PlanFact::Asks(node, other) => {
                let (node, other) = (name_of(plan, *node), name_of(plan, *other));
                writeln!(text, "{{\"node\":\"{node}\",\"asks\":\"{other}\"}}")
            }
        }
    }
}

/// Returns the word of an algorithm.
fn algorithm_of(shape: &Shape) -> &'static str
    ensures { result.now ≡ algorithm_text shape.now }
{
    match shape {
        Shape::Ricart(_) => "ricart",
        Shape::Maekawa(_) => "maekawa",
        Shape::Raymond(_) => "raymond",
    }
}

/// How many registers a plan has, its greatest section number, and its origin, from which stamps,
/// grants and hops count; as members of JSON, or in a line.
#[derive(Clone, Copy)]
struct BoundsText<'a>(&'a Plan, bool);

impl fmt::Display for BoundsText<'_> {
    ghost output = { λ b. Some (bounds_text b.1 b.0.now) };

    #[tactic(auto, unfolding(crate::specs::PlanTexts::bounds_text))]
    fn fmt<W: fmt::Write>(&self, f: &mut fmt::Formatter<W>) -> fmt::Result {
        let registers = self.0.registers();
        let sections = self.0.sections();
        let origin = self.0.origin();
        if self.1 {
            return write!(
                f,
                ",\"registers\":{registers},\"sections\":{sections},\"origin\":{origin}"
            );
        }
        write!(
            f,
            ", registers {registers}, sections {sections}, origin {origin}"
        )
    }
}
