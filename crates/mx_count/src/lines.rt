//! Rows as lines.

ghost use Rattle.std.specs.Prelude.{◌≡◌, ◌++◌, OnOk, string_bytes};
ghost use Rattle.mx_count.specs.Lines.{level_line, row_line, rows_lines, value_line};
ghost use Rattle.mx_count.specs.Rows.{row_of, rows_of};

use crate::rows::{Level, Row, Value};
use mx_format::name_of;
use mx_plan::Plan;
use std::alloc::AllocError;

/// Appends the lines of rows.
pub(crate) fn add_lines(plan: &Plan, rows: &[Row<'_>], text: &mut String) -> Result<(), AllocError>
    ensures { OnOk result (string_bytes text.new
        ≡ string_bytes text.old ++ rows_lines plan.now (rows_of rows.now)) }
{
    for row in rows {
        add_row(plan, row, text)?;
    }
    text.push_str("\n")
}

fn add_row(plan: &Plan, row: &Row<'_>, text: &mut String) -> Result<(), AllocError>
    ensures { OnOk result (string_bytes text.new
        ≡ string_bytes text.old ++ row_line plan.now (row_of row.now)) }
{
    add_level(plan, &row.level, text)?;
    text.push_str(row.name)?;
    text.push_str(" ")?;
    add_value(&row.value, text)
}

fn add_level(plan: &Plan, level: &Level, text: &mut String) -> Result<(), AllocError>
    ensures { OnOk result (string_bytes text.new
        ≡ string_bytes text.old ++ level_line plan.now level.now) }
{
    match level {
        Level::First => Ok(()),
        Level::Total => text.push_str("\n"),
        Level::Part => text.push_str("\n  "),
        Level::Kind => text.push_str("\n    "),
        Level::Node(node) => write!(text, "\n{}: ", name_of(plan, *node)),
        Level::Next => text.push_str(", "),
    }
}

fn add_value(value: &Value, text: &mut String) -> Result<(), AllocError>
    ensures { OnOk result (string_bytes text.new ≡ string_bytes text.old ++ value_line value.now) }
{
    match value {
        Value::Number(number) => write!(text, "{number}"),
        Value::Mean(mean) => write!(text, "{mean}"),
        Value::Spread(least, mean, greatest) => {
            write!(text, "least {least}, mean {mean}, greatest {greatest}")
        }
        Value::Absent => text.push_str("none"),
    }
}
