//! What a live run prints.

ghost use Rattle.std.specs.Prelude.{◌≡◌, ◌++◌, Some, string_bytes, OnOk};
ghost use Rattle.mx_live.specs.Shown.{live_text, number_line, value_lines};

use mx_format::register_name_of;
use mx_journal::Journal;
use mx_plan::Plan;
use mx_registers::view;
use std::alloc::AllocError;
use std::fmt;

#[derive(Clone, Copy)]
struct NumberLine<'a> {
    name: &'a str,
    sign: &'a str,
    number: u64,
}

impl fmt::Display for NumberLine<'_> {
    ghost output = { λ l. Some (number_line l.name.now l.sign.now l.number) };

    fn fmt<W: fmt::Write>(&self, f: &mut fmt::Formatter<W>) -> fmt::Result {
        writeln!(f, "{}{}{}", self.name, self.sign, self.number)
    }
}

/// Appends a line with the number of receipts, a line with the number of the section up to which
/// the journal has no gap, and a line for each register.
pub fn add_journal(
    plan: &Plan,
    receipts: u64,
    journal: &Journal,
    text: &mut String,
) -> Result<(), AllocError>
    ensures { OnOk result (string_bytes text.new
        ≡ string_bytes text.old ++ live_text plan.now receipts journal.now) }
{
    text.write(NumberLine {
        name: "receipts",
        sign: " ",
        number: receipts,
    })?;
    text.write(NumberLine {
        name: "gapless",
        sign: " ",
        number: journal.gapless_to(),
    })?;
    add_values(plan, journal, text)
}

fn add_values(plan: &Plan, journal: &Journal, text: &mut String) -> Result<(), AllocError>
    ensures { OnOk result (string_bytes text.new
        ≡ string_bytes text.old ++ value_lines plan.now journal.now) }
{
    let shown = view(journal, plan.registers());
    for register in 0..plan.registers() {
        text.write(NumberLine {
            name: register_name_of(plan, register),
            sign: "=",
            number: shown.value(register).unwrap_or(0),
        })?;
    }
    Ok(())
}
