//! `replay`: the events of a text happen one after another.

ghost use Rattle.std.specs.Prelude.{IfOk, length, option_map, string_bytes};
ghost use Rattle.mx_cli.specs.Printing.{Prints, sight};
ghost use Rattle.mx_cli.specs.Requests.{view_of};
ghost use Rattle.mx_events.specs.Arguments.{AreEventsWithin};
ghost use Rattle.mx_driver.specs.Viewed.{IsFound, IsReplayed, IsShown, IsUnknownLine};

use crate::driver::drive;
use crate::view::View;
use mx_cli::{Command, Stop, ViewOptions};
use mx_io::Output;
use mx_lines::message_of_unknown_node;
use mx_network::Event;
use mx_plan::{Plan, read_events};
use mx_stamps::NodeId;
use std::alloc::{AllocError, Global};

/// `replay`.
#[derive(Clone, Copy)]
pub struct Replay<'a>(pub ViewOptions<'a>);

impl Command for Replay<'_> {
    ghost reports = { λ c p text. IsReplayed (view_of c.0) p text };

    fn run<O: Output>(
        &self,
        alloc: Global,
        plan: &Plan,
        text: &[u8],
        out: &mut O,
    ) -> Result<u8, Stop> {
        match read_events(alloc, text, plan) {
            Ok(events) => show(alloc, plan, &self.0, events.as_slice(), out),
            Err(fault) => Err(Stop::from(fault)),
        }
    }
}

/// Prints what the options show of a run of these events. Returns the status.
fn show<O: Output>(
    alloc: Global,
    plan: &Plan,
    options: &ViewOptions<'_>,
    events: &[Event],
    out: &mut O,
) -> Result<u8, Stop>
    requires { AreEventsWithin (length plan.now.nodes) (length plan.now.registers) events.now }
    ensures prints { Prints (IsShown (view_of options.now) plan.now events.now)
        (sight O.Output out.old) (sight O.Output out.new) result }
{
    match node_in(alloc, plan, options.node) {
        Ok(node) => {
            let mut view = View {
                node,
                is_quiet: options.is_quiet,
                is_json: options.is_json,
                has_state: options.has_state,
            };
            drive(alloc, plan, events, &mut view, out)
        }
        Err(stop) => Err(stop),
    }
}

/// Returns the node of this name, or `None` if no name is given. Stops with a line if the plan has
/// no such node.
pub fn node_in(alloc: Global, plan: &Plan, name: Option<&str>) -> Result<Option<NodeId>, Stop>
    ensures { IsFound plan.now (option_map (λ text. text.now) name.entry) result }
{
    let Some(name) = name else {
        return Ok(None);
    };
    match plan.node(name) {
        Some(node) => Ok(Some(node)),
        None => Err(Stop::Line(unknown_line(alloc, plan, name)?)),
    }
}

/// Returns the line about a name that no node of the plan has.
fn unknown_line(alloc: Global, plan: &Plan, name: &str) -> Result<String, AllocError>
    ensures { IfOk result (λ line. IsUnknownLine (string_bytes line)) }
{
    let message = message_of_unknown_node(alloc, plan, name)?;
    let line = format!(in alloc; "mx: unknown name:{message}\n")?;
    Ok(line)
}
