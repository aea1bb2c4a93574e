//! The events of a line, and what is printed of them.

ghost use Rattle.std.specs.Prelude.{◌≡◌, [], true, string_bytes};
ghost use Rattle.mx_format.specs.LetterTexts.{letter_text};
ghost use Rattle.mx_play.specs.Executions.{line_text};
ghost use Rattle.mx_play.specs.Sessions.{AddsOne};

use crate::event_texts::add_made;
use mx_format::Letter;
use mx_knowledge::Knowledge;
use mx_nodelaws::Exclusion;
use mx_plan::Plan;
use mx_scripts::{Recorder, SessionEvent, State};
use std::alloc::{AllocError, Global};

/// A recorder that lists the events of a line, and appends what is printed of each.
#[derive(Drop)]
pub(crate) struct PrintedEvents {
    alloc: Global,
    pub(crate) events: Vec<SessionEvent>,
    pub(crate) text: String,
}

impl PrintedEvents {
    pub(crate) fn new(alloc: Global) -> Self
        ensures events { result.events.items ≡ [] }
        ensures text { string_bytes result.text ≡ [] }
    {
        PrintedEvents {
            alloc,
            events: Vec::new(alloc),
            text: String::new(alloc),
        }
    }

    /// Whether the line did nothing.
    pub(crate) fn is_empty(&self) -> bool
        ensures { result ≡ true → self.now.events.items ≡ [] }
    {
        self.events.is_empty()
    }

    /// Returns what is printed of the line: the text of its events, or that it has none.
    pub(crate) fn line_text(&self) -> &str
        ensures { result.now ≡ line_text self.now.events.items (string_bytes self.now.text) }
    {
        if self.events.is_empty() {
            return "nothing to do\n";
        }
        self.text.as_str()
    }
}

impl<C: Exclusion + Knowledge> Recorder<State<C>> for PrintedEvents
where
    C::Msg: Letter,
{
    ghost noted = { λ line p. AddsOne C.core (letter_text C.Msg.parts) p line };

    fn line(&mut self, _number: u64) {}

    fn event(
        &mut self,
        plan: &Plan,
        event: &SessionEvent,
        before: u64,
        state: &State<C>,
    ) -> Result<(), AllocError> {
        self.events.push(*event)?;
        add_made(self.alloc, plan, event, before, state, &mut self.text)
    }
}
