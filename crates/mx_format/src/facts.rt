//! What a node knows, in a line and as JSON.

ghost use Rattle.std.specs.Prelude.{◌≡◌, ◌++◌, OnOk, string_bytes};
ghost use Rattle.mx_knowledge.specs.Facts.{fact_of};
ghost use Rattle.mx_format.specs.FactTexts.{fact_json, fact_text, facts_line, item_json, item_text};

use crate::events::name_of;
use crate::json::{add_array, add_node_name, add_number, start_node, start_number, start_word};
use crate::lists::{Json, Line, Listed, add_each, add_joined};
use mx_knowledge::{Fact, Facts, Item};
use mx_plan::Plan;
use std::alloc::AllocError;

impl Listed<Line> for Item {
    ghost written = { item_text };

    fn add(&self, plan: &Plan, text: &mut String) -> Result<(), AllocError> {
        match self {
            Item::Number(number) => write!(text, "{number}"),
            Item::Node(node) => text.push_str(name_of(plan, *node)),
            Item::Stamp(stamp) => write!(text, "{}.{}", stamp.number, name_of(plan, stamp.node)),
            Item::Numbered(node, number) => write!(text, "{}/{number}", name_of(plan, *node)),
        }
    }
}

impl Listed<Json> for Item {
    ghost written = { item_json };

    fn add(&self, plan: &Plan, text: &mut String) -> Result<(), AllocError> {
        match self {
            Item::Number(number) => start_number("number", *number, text)?,
            Item::Node(node) => start_node(plan, *node, text)?,
            Item::Stamp(stamp) => {
                start_number("stamp", stamp.number, text)?;
                add_node_name(plan, "of", stamp.node, text)?;
            }
            Item::Numbered(node, number) => {
                start_node(plan, *node, text)?;
                add_number("number", *number, text)?;
            }
        }
        text.push_str("}")
    }
}

impl Listed<Line> for Fact {
    ghost written = { λ p fact. fact_text p (fact_of fact) };

    fn add(&self, plan: &Plan, text: &mut String) -> Result<(), AllocError> {
        text.push_str(self.name)?;
        add_each::<Line, Item>(plan, " ", self.items.as_slice(), text)
    }
}

impl Listed<Json> for Fact {
    ghost written = { λ p fact. fact_json p (fact_of fact) };

    fn add(&self, plan: &Plan, text: &mut String) -> Result<(), AllocError> {
        start_word("fact", self.name, text)?;
        add_array(plan, "values", self.items.as_slice(), text)?;
        text.push_str("}")
    }
}

/// Appends the line of the facts that a node knows, indented by two spaces.
pub fn add_facts_line(plan: &Plan, facts: &Facts, text: &mut String) -> Result<(), AllocError>
    ensures { OnOk result (string_bytes text.new
        ≡ string_bytes text.old ++ facts_line plan.now facts.now) }
{
    text.push_str("  ")?;
    add_joined::<Line, Fact>(plan, ", ", facts.as_slice(), text)?;
    text.push_str("\n")
}
