//! Values in a list, with a text before each or between them.

ghost use Rattle.std.specs.Prelude.{◌≡◌, ◌++◌, OnOk, string_bytes};
ghost use Rattle.mx_plan.specs.Fields.{Fields};
ghost use Rattle.mx_plan.specs.Text.{Text};
ghost use Rattle.mx_format.specs.Lines.{each_text, joined};

use mx_plan::Plan;
use std::alloc::AllocError;

/// The form of a value in a line.
pub(crate) struct Line;

/// The form of a value of JSON.
pub(crate) struct Json;

/// A value that can stand in a list, in this form.
pub(crate) trait Listed<Form> {
    // the text that `add` appends
    ghost written: { Fields → Self → Text };

    fn add(&self, plan: &Plan, text: &mut String) -> Result<(), AllocError>
        ensures { OnOk result (string_bytes text.new
            ≡ string_bytes text.old ++ written plan.now self.now) };
}

/// Appends values, with the text `between` between them.
pub(crate) fn add_joined<Form, V: Listed<Form>>(
    plan: &Plan,
    between: &str,
    values: &[V],
    text: &mut String,
) -> Result<(), AllocError>
    ensures { OnOk result (string_bytes text.new ≡ string_bytes text.old
        ++ joined between.now (V.written plan.now) values.now) }
{
    let Some((first, rest)) = values.split_first() else {
        return Ok(());
    };
    first.add(plan, text)?;
    add_each(plan, between, rest, text)
}

/// Appends values, with the text `before` before each.
pub(crate) fn add_each<Form, V: Listed<Form>>(
    plan: &Plan,
    before: &str,
    values: &[V],
    text: &mut String,
) -> Result<(), AllocError>
    ensures { OnOk result (string_bytes text.new ≡ string_bytes text.old
        ++ each_text (λ value. before.now ++ V.written plan.now value) values.now) }
{
    for value in values {
        text.push_str(before)?;
        value.add(plan, text)?;
    }
    Ok(())
}
