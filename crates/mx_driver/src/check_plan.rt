//! `check`: what a plan says of its cluster.

ghost use Rattle.std.specs.Prelude.{◌≡◌, ◌++◌, OnOk, string_bytes};
ghost use Rattle.mx_driver.specs.Commands.{IsCheck, check_text};

use mx_cli::{Command, Stop, print};
use mx_format::{add_asks, add_plan};
use mx_io::Output;
use mx_plan::Plan;
use std::alloc::{AllocError, Global};

/// `check`.
#[derive(Clone, Copy)]
pub struct Check {
    /// Whether it is printed whom each node asks.
    pub has_asks: bool,
    /// Whether JSON is printed, in place of lines.
    pub is_json: bool,
}

impl Command for Check {
    ghost reports = { λ c p text. IsCheck c.has_asks c.is_json p text };

    fn run<O: Output>(
        &self,
        alloc: Global,
        plan: &Plan,
        _text: &[u8],
        out: &mut O,
    ) -> Result<u8, Stop> {
        let mut text = String::new(alloc);
        match add_check(plan, self, &mut text) {
            Ok(()) => print(text.as_bytes(), 0, out),
            Err(_) => Err(Stop::Memory),
        }
    }
}

fn add_check(plan: &Plan, check: &Check, text: &mut String) -> Result<(), AllocError>
    ensures { OnOk result (string_bytes text.new
        ≡ string_bytes text.old ++ check_text check.now.has_asks check.now.is_json plan.now) }
{
    add_plan(plan, check.is_json, text)?;
    if check.has_asks {
        return add_asks(plan, check.is_json, text);
    }
    Ok(())
}
