//! `picture`: the events of a text, or of a script, happen as in a replay, and are drawn.

ghost use Rattle.std.specs.Prelude.{length};
ghost use Rattle.mx_cli.specs.Printing.{Prints, sight};
ghost use Rattle.mx_cli.specs.Requests.{part_of};
ghost use Rattle.mx_driver.specs.Jobs.{run_by};
ghost use Rattle.mx_events.specs.Arguments.{AreEventsWithin};
ghost use Rattle.mx_picture.specs.Pictures.{DrawsEvents, IsPartOf, IsPictured, IsRunDrawn};
ghost use Rattle.mx_event_files.specs.Printed.{IsOnScript};

use crate::drawing::Drawing;
use crate::losses::Losses;
use crate::opening::Title;
use crate::page::page_of;
use crate::part::ShownPart;
use mx_cli::{Command, PicturePart, Stop, print};
use mx_driver::{node_in, observe};
use mx_event_files::file_of_bytes;
use mx_io::Output;
use mx_network::Event;
use mx_plan::{Plan, read_events};
use std::alloc::Global;

/// `picture`: a picture of the outcomes of the events that the text lists.
#[derive(Clone, Copy)]
pub struct Picture<'a> {
    pub part: PicturePart<'a>,
    /// Whether only letters are shown.
    pub only_letters: bool,
}

impl Command for Picture<'_> {
    ghost reports = { λ c p text. IsPictured (part_of c.part) p text };

    fn run<O: Output>(
        &self,
        alloc: Global,
        plan: &Plan,
        text: &[u8],
        out: &mut O,
    ) -> Result<u8, Stop> {
        draw_text(alloc, plan, self, text, Losses::new(alloc), out)
    }
}

/// `picture` of a script: a picture of its events, and of the parcels that it loses.
#[derive(Clone, Copy)]
pub struct PictureScript<'a>(pub Picture<'a>);

impl Command for PictureScript<'_> {
    ghost reports = { λ c p text. IsOnScript (IsPictured (part_of c.0.part)) p text };

    fn run<O: Output>(
        &self,
        alloc: Global,
        plan: &Plan,
        text: &[u8],
        out: &mut O,
    ) -> Result<u8, Stop> {
        let mut losses = Losses::new(alloc);
        match file_of_bytes(alloc, plan, text, &mut losses) {
            Ok(file) => draw_text(alloc, plan, &self.0, file.as_bytes(), losses, out),
            Err(stop) => Err(stop),
        }
    }
}

/// Prints the picture of the events that a text lists, and of these losses. Returns the status.
pub(crate) fn draw_text<O: Output>(
    alloc: Global,
    plan: &Plan,
    picture: &Picture<'_>,
    text: &[u8],
    losses: Losses,
    out: &mut O,
) -> Result<u8, Stop>
    ensures prints { Prints (IsPictured (part_of picture.now.part) plan.now text.now)
        (sight O.Output out.old) (sight O.Output out.new) result }
{
    match read_events(alloc, text, plan) {
        Ok(events) => draw(alloc, plan, picture, events.as_slice(), losses, out),
        Err(fault) => Err(Stop::from(fault)),
    }
}

/// Prints the picture of these events and losses. Returns the status.
fn draw<O: Output>(
    alloc: Global,
    plan: &Plan,
    picture: &Picture<'_>,
    events: &[Event],
    losses: Losses,
    out: &mut O,
) -> Result<u8, Stop>
    requires { AreEventsWithin (length plan.now.nodes) (length plan.now.registers) events.now }
    ensures prints { Prints (IsRunDrawn (part_of picture.now.part) plan.now events.now)
        (sight O.Output out.old) (sight O.Output out.new) result }
{
    match part_of(alloc, plan, &picture.part, picture.only_letters) {
        Ok(part) => print_picture(alloc, plan, &part, events, losses, out),
        Err(unknown) => Err(unknown),
    }
}

/// Returns the part that is named. Stops with a line if the plan does not have its node.
pub(crate) fn part_of(
    alloc: Global,
    plan: &Plan,
    named: &PicturePart<'_>,
    only_letters: bool,
) -> Result<ShownPart, Stop>
    ensures { IsPartOf plan.now (part_of named.now) only_letters result }
{
    match node_in(alloc, plan, named.node) {
        Ok(node) => Ok(ShownPart {
            from: named.from,
            to: named.to,
            node,
            only_letters,
        }),
        Err(stop) => Err(stop),
    }
}

fn print_picture<O: Output>(
    alloc: Global,
    plan: &Plan,
    part: &ShownPart,
    events: &[Event],
    losses: Losses,
    out: &mut O,
) -> Result<u8, Stop>
    requires { AreEventsWithin (length plan.now.nodes) (length plan.now.registers) events.now }
    ensures prints { Prints (DrawsEvents plan.now events.now
        (run_by plan.now plan.now.shape events.now).end)
        (sight O.Output out.old) (sight O.Output out.new) result }
{
    let mut drawing = Drawing::new(alloc, plan, events, losses, part)?;
    observe(alloc, plan, events, &mut drawing)?;
    let title = Title::Run(events.len() as u64);
    let page = page_of(plan, &title, &drawing.rows)?;
    print(page.as_bytes(), 0, out)
}
