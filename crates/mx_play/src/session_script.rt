//! What has happened in a session, as a script.

ghost use Rattle.std.specs.Prelude.{◌≡◌, ◌++◌, string_bytes, OnOk};
ghost use Rattle.mx_format.specs.EventTexts.{event_text};
ghost use Rattle.mx_plan.specs.Text.{line_feed};
ghost use Rattle.mx_format.specs.Lines.{each_text};
ghost use Rattle.mx_play.specs.SessionScripts.{asking_line, session_script};

use crate::cuts::add_change;
use crate::session::DoneLine;
use mx_format::EventText;
use mx_network::Event;
use mx_plan::Plan;
use mx_scripts::SessionEvent;
use std::alloc::AllocError;

/// Appends a line for each event of these lines, which asks for that event.
pub(crate) fn add_script(
    plan: &Plan,
    lines: &[DoneLine],
    text: &mut String,
) -> Result<(), AllocError>
    ensures { OnOk result (string_bytes text.new ≡ string_bytes text.old
        ++ session_script plan.now lines.now) }
{
    for line in lines {
        add_lines(plan, line.events.as_slice(), text)?;
    }
    Ok(())
}

fn add_lines(plan: &Plan, events: &[SessionEvent], text: &mut String) -> Result<(), AllocError>
    ensures { OnOk result (string_bytes text.new ≡ string_bytes text.old
        ++ each_text (asking_line plan.now) events.now) }
{
    for event in events {
        add_line(plan, event, text)?;
    }
    Ok(())
}

fn add_line(plan: &Plan, event: &SessionEvent, text: &mut String) -> Result<(), AllocError>
    ensures { OnOk result (string_bytes text.new ≡ string_bytes text.old
        ++ asking_line plan.now event.now) }
{
    match event {
        SessionEvent::Happens(event) => add_event(plan, event, text),
        SessionEvent::IsLost(number) => writeln!(text, "lose {number}"),
        SessionEvent::LinksChange(change) => add_change(plan, change, text),
    }
}

fn add_event(plan: &Plan, event: &Event, text: &mut String) -> Result<(), AllocError>
    ensures { OnOk result (string_bytes text.new ≡ string_bytes text.old
        ++ (event_text plan.now event.now ++ line_feed)) }
{
    text.write(EventText { plan, event })?;
    text.push_str("\n")
}
