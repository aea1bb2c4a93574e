//! A command that gets a script in place of events.

ghost use Rattle.mx_event_files.specs.Printed.{IsOnScript};

use crate::script_command::{NoRecorder, file_of_bytes};
use mx_cli::{Command, Stop};
use mx_io::Output;
use mx_plan::Plan;
use std::alloc::Global;

/// A command that gets the file of a script's events in place of the script. A script that is
/// refused ends as with `Script`, and then the command prints nothing.
#[derive(Drop)]
pub struct OnScript<'a, C>(pub &'a C);

impl<C: Command> Command for OnScript<'_, C> {
    ghost reports = { λ c p text. IsOnScript (C.reports c.0.now) p text };

    fn run<O: Output>(
        &self,
        alloc: Global,
        plan: &Plan,
        text: &[u8],
        out: &mut O,
    ) -> Result<u8, Stop> {
        match file_of_bytes(alloc, plan, text, &mut NoRecorder) {
            Ok(file) => self.0.run(alloc, plan, file.as_bytes(), out),
            Err(stop) => Err(stop),
        }
    }
}
