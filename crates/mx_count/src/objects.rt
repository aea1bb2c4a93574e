//! Rows as objects of JSON, each on a line.

ghost use Rattle.std.specs.Prelude.{◌≡◌, ◌++◌, OnOk, string_bytes};
ghost use Rattle.mx_count.specs.Objects.{level_json, row_json, rows_objects, spread_json, value_json};
ghost use Rattle.mx_count.specs.Rows.{row_of, rows_of};

use crate::rows::{Level, Mean, Row, Value};
use mx_format::json::{add_number, start_number};
use mx_format::name_of;
use mx_plan::Plan;
use std::alloc::AllocError;

/// Appends the objects of rows.
pub(crate) fn add_objects(
    plan: &Plan,
    rows: &[Row<'_>],
    text: &mut String,
) -> Result<(), AllocError>
    ensures { OnOk result (string_bytes text.new
        ≡ string_bytes text.old ++ rows_objects plan.now (rows_of rows.now)) }
{
    for row in rows {
        add_row(plan, row, text)?;
    }
    text.push_str("}\n")
}

fn add_row(plan: &Plan, row: &Row<'_>, text: &mut String) -> Result<(), AllocError>
    ensures { OnOk result (string_bytes text.new
        ≡ string_bytes text.old ++ row_json plan.now (row_of row.now)) }
{
    add_level(plan, &row.level, text)?;
    write!(text, "\"{}\":", row.name)?;
    add_value(&row.value, text)
}

fn add_level(plan: &Plan, level: &Level, text: &mut String) -> Result<(), AllocError>
    ensures { OnOk result (string_bytes text.new
        ≡ string_bytes text.old ++ level_json plan.now level.now) }
{
    match level {
        Level::First => text.push_str("{"),
        Level::Node(node) => write!(text, "}}\n{{\"node\":\"{}\",", name_of(plan, *node)),
        _ => text.push_str(","),
    }
}

fn add_value(value: &Value, text: &mut String) -> Result<(), AllocError>
    ensures { OnOk result (string_bytes text.new ≡ string_bytes text.old ++ value_json value.now) }
{
    match value {
        Value::Number(number) => write!(text, "{number}"),
        Value::Mean(mean) => write!(text, "{mean}"),
        Value::Spread(least, mean, greatest) => add_spread(*least, mean, *greatest, text),
        Value::Absent => text.push_str("null"),
    }
}

fn add_spread(least: u64, mean: &Mean, greatest: u64, text: &mut String) -> Result<(), AllocError>
    ensures { OnOk result (string_bytes text.new
        ≡ string_bytes text.old ++ spread_json least mean.now greatest) }
{
    start_number("least", least, text)?;
    write!(text, ",\"mean\":{mean}")?;
    add_number("greatest", greatest, text)?;
    text.push_str("}")
}
