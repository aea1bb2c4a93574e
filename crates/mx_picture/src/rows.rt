//! The rows of a picture: what is drawn of each event of a run or a trace.

use crate::arrows::{Arrow, ArrowEnd};
use crate::fates::{Fate, KnownFates};
use crate::labels::{Side, Tone};
use crate::letters::{is_drawn, is_original};
use crate::marked::Marked;
use crate::part::ShownPart;
use crate::sent::{Drawable, Sent};
use crate::shapes::DotKind;
use crate::sheet::Sheet;
use crate::text::escaped;
use mx_format::{EventText, OutcomeText, name_of};
use mx_nodelaws::Phase;
use mx_plan::Plan;
use mx_stamps::NodeId;
use mx_trace::{Entry, Outcome};
use std::alloc::{AllocError, Global};

/// An event of a run or a trace, with the parcel that it delivers and those that it sends.
#[derive(Drop)]
pub(crate) struct Step<'a> {
    pub(crate) index: u64,
    pub(crate) entry: &'a Entry,
    /// The parcel that the event delivers, if that was sent before.
    pub(crate) delivered: Option<Sent>,
    pub(crate) sent: Vec<Sent>,
}

impl Step<'_> {
    /// Returns the left if the event sent parcels, and all go to the right, so that no arrow runs
    /// under its text.
    fn side(&self, node: NodeId) -> Side {
        let mut side = Side::Right;
        for sent in &self.sent {
            if sent.route.to.get() <= node.get() {
                return Side::Right;
            }
            side = Side::Left;
        }
        side
    }

    /// Returns whether the event delivers or sends a parcel of the part.
    fn is_near(&self, part: &ShownPart) -> bool {
        match &self.delivered {
            Some(sent) if part.has_parcel(sent) => true,
            _ => self.sent.iter().any(|sent| part.has_parcel(sent)),
        }
    }
}

/// The rows of a picture.
#[derive(Drop)]
pub(crate) struct PictureRows<'a> {
    pub(crate) plan: &'a Plan,
    pub(crate) part: ShownPart,
    pub(crate) sheet: Sheet,
    /// Whether these are the rows of a trace, in which a receipt has only its number.
    pub(crate) is_trace: bool,
    pub(crate) marked: Option<Marked>,
    /// The text that is drawn next, beside a node or as a title.
    label: String,
    /// Whether events were left out since the last row, so that a row with `..` has to say so.
    has_skipped: bool,
}

impl<'a> PictureRows<'a> {
    pub(crate) fn new(alloc: Global, plan: &'a Plan, part: &ShownPart, fates: KnownFates) -> Self {
        PictureRows {
            plan,
            part: *part,
            sheet: Sheet::new(alloc, fates),
            is_trace: false,
            marked: None,
            label: String::new(alloc),
            has_skipped: false,
        }
    }

    /// Draws an event, or takes note of it if it is not shown.
    pub(crate) fn draw<S: Drawable>(
        &mut self,
        source: &S,
        step: &Step<'_>,
    ) -> Result<(), AllocError> {
        if !self.shows(step) {
            return self.omit(source, step);
        }
        self.add_gap()?;
        self.sheet.begin(step.index)?;
        match &step.delivered {
            Some(sent) => self.draw_arrival(source, sent, true)?,
            None => self.draw_act(step)?,
        }
        self.draw_mark(step)?;
        self.draw_sent(source, step, true)?;
        self.sheet.next_row()
    }

    fn shows(&self, step: &Step<'_>) -> bool {
        let entry = step.entry;
        let flights = self.sheet.flights.as_slice();
        (!self.part.only_letters || is_drawn(&entry.event, &entry.outcome, flights))
            && self
                .part
                .shows(step.index, &entry.event, step.is_near(&self.part))
    }

    /// Takes note of an event that is left out. After the drawn part it changes no phase. Events that
    /// only `--letters` leaves out need no row with `..`.
    fn omit<S: Drawable>(&mut self, source: &S, step: &Step<'_>) -> Result<(), AllocError> {
        self.has_skipped |= !(self.part.only_letters && self.part.has_index(step.index));
        if let Some(node) = step.entry.event.node()
            && step.index <= self.part.to
        {
            self.change_phase(node, &step.entry.outcome, false)?;
        }
        if let Some(sent) = &step.delivered {
            self.draw_arrival(source, sent, false)?;
        }
        self.draw_sent(source, step, false)
    }

    /// Adds a row with `..` if events were left out since the last row and a row has to say so.
    fn add_gap(&mut self) -> Result<(), AllocError> {
        if self.has_skipped {
            self.has_skipped = false;
            self.sheet.skip()?;
        }
        Ok(())
    }

    /// Draws an event of a node: its text, and a dot, which says whether the event was refused. An
    /// entry has no dot: its place is taken by the number of the section. Where a delivery without
    /// its message is is not known, so its text is left of all nodes.
    fn draw_act(&mut self, step: &Step<'_>) -> Result<(), AllocError> {
        let outcome = &step.entry.outcome;
        self.write_act(step.entry)?;
        let label = self.label.as_str();
        let Some(node) = step.entry.event.node() else {
            return self.sheet.text(None, Side::Left, Tone::Air, label);
        };
        if let Outcome::Entered(_) | Outcome::Left(_) = outcome {
            self.sheet.describe(label)?;
        }
        self.sheet
            .text(Some(node), step.side(node), Tone::Event, label)?;
        match outcome {
            Outcome::Entered(_) => (),
            Outcome::Refused(_) => self.sheet.dot(node, DotKind::Refused, label)?,
            _ => self.sheet.dot(node, DotKind::Done, label)?,
        }
        self.change_phase(node, outcome, true)
    }

    /// Replaces the label by an event and its outcome.
    fn write_act(&mut self, entry: &Entry) -> Result<(), AllocError> {
        let plan = self.plan;
        let event = &entry.event;
        let done = EventText { plan, event };
        self.label.clear();
        match &entry.outcome {
            Outcome::Left(receipt) if self.is_trace => {
                write!(self.label, "{done}: left {}", receipt.number)
            }
            outcome => write!(self.label, "{done}: {}", OutcomeText(outcome)),
        }
    }

    /// Changes the phase of a node if the outcome of its event leads to another. `is_shown` says
    /// whether the picture shows the event.
    fn change_phase(
        &mut self,
        node: NodeId,
        outcome: &Outcome,
        is_shown: bool,
    ) -> Result<(), AllocError> {
        let phase = match outcome {
            Outcome::Entered(number) => Phase::Inside(*number),
            Outcome::Left(_) | Outcome::Cancelled => Phase::Idle,
            Outcome::Asked(_) => Phase::Waiting,
            _ => return Ok(()),
        };
        self.sheet.change(node, phase, is_shown)
    }

    /// Marks the event if it is the one that breaks a rule, and writes why in the next row.
    fn draw_mark(&mut self, step: &Step<'_>) -> Result<(), AllocError> {
        if let Some(marked) = &self.marked
            && let Some(why) = marked.why_at(step.index)
            && let Some(node) = step.entry.event.node()
        {
            self.sheet.dot(node, DotKind::Broken, why)?;
            self.sheet.next_row()?;
            self.sheet.text(Some(node), Side::Right, Tone::Reason, why)?;
        }
        Ok(())
    }

    /// Draws the delivery of a parcel: its arrow, and a dot and a text at the addressee. If it is not
    /// shown, draws only what is seen of the arrow.
    fn draw_arrival<S: Drawable>(
        &mut self,
        source: &S,
        sent: &Sent,
        is_shown: bool,
    ) -> Result<(), AllocError> {
        let route = sent.route;
        let Some((y, end)) = self.sheet.arrive(sent.flight, &sent.route, is_shown) else {
            return Ok(());
        };
        self.add_arrow(source, sent, y, end)?;
        if !is_shown {
            return Ok(());
        }
        self.write_parcel(source, sent)?;
        if end.is_far(route) {
            write!(self.label, " from {}", name_of(self.plan, route.from))?;
        }
        let label = self.label.as_str();
        self.sheet.dot(route.to, DotKind::Done, label)?;
        self.sheet
            .text(Some(route.to), route.side(), Tone::Event, label)
    }

    /// Notes the parcels that an event sends. If the event is shown, draws those of the drawn part that
    /// are neither delivered nor lost, in one row.
    fn draw_sent<S: Drawable>(
        &mut self,
        source: &S,
        step: &Step<'_>,
        is_step_shown: bool,
    ) -> Result<(), AllocError> {
        let mut first = None;
        let mut count: usize = 0;
        for sent in &step.sent {
            let is_shown = is_step_shown && self.part.has_parcel(sent);
            let is_original = is_original(&step.entry.event, sent.is_letter);
            self.sheet.send(is_shown, is_original)?;
            if is_shown && !matches!(self.fate_of(sent), Fate::Arrives | Fate::Lost) {
                self.add_arrow(source, sent, self.sheet.event, ArrowEnd::Open)?;
                first = first.or(Some(sent));
                count = count.saturating_add(1);
            }
        }
        let Some(first) = first else {
            return Ok(());
        };
        self.sheet.next_row()?;
        self.write_shared(source, first, "", count)
    }

    /// Draws the parcels that are lost after `place` events, in a row of their own. After the drawn
    /// part, only the start of an arrow is drawn, by this or by its delivery.
    pub(crate) fn draw_lost<S: Drawable>(
        &mut self,
        source: &S,
        lost: &[u64],
        place: u64,
    ) -> Result<(), AllocError> {
        let is_shown = place <= self.part.to;
        let mut first = None;
        let mut count: usize = 0;
        for number in lost {
            if let Some(sent) = source.find(*number)
                && (is_shown || self.fate_of(&sent) != Fate::Arrives)
                && let Some((y, end)) = self.sheet.fall(*number, is_shown)
            {
                self.add_arrow(source, &sent, y, end)?;
                first = first.or(Some(sent));
                count = count.saturating_add(1);
            }
        }
        match first {
            Some(first) if is_shown => {
                self.write_shared(source, &first, " lost", count)?;
                self.sheet.next_row()
            }
            _ => Ok(()),
        }
    }

    fn fate_of(&self, sent: &Sent) -> Fate {
        self.sheet.fates.of(sent.number, sent.flight, &sent.route)
    }

    /// Adds the arrow of a parcel, which begins at the height `y`.
    fn add_arrow<S: Drawable>(
        &mut self,
        source: &S,
        sent: &Sent,
        y: u64,
        end: ArrowEnd,
    ) -> Result<(), AllocError> {
        let route = sent.route;
        self.write_parcel(source, sent)?;
        let from = name_of(self.plan, route.from);
        let to = name_of(self.plan, route.to);
        let fate = match end {
            ArrowEnd::Loss { .. } => ", lost",
            _ => "",
        };
        write!(self.label, " from {from} to {to}{fate}")?;
        let title = escaped(self.sheet.alloc, self.label.as_str())?;
        self.sheet.add_arrow(Arrow {
            number: sent.number,
            flight: sent.flight,
            route,
            y,
            end,
            title,
        })
    }

    /// Writes beside its sender what becomes of a parcel, and of `count` in all.
    fn write_shared<S: Drawable>(
        &mut self,
        source: &S,
        sent: &Sent,
        fate: &str,
        count: usize,
    ) -> Result<(), AllocError> {
        let route = sent.route;
        self.write_parcel(source, sent)?;
        write!(self.label, " to {}{fate}", name_of(self.plan, route.to))?;
        if count > 1 {
            write!(self.label, ", and {} more", count - 1)?;
        }
        let label = self.label.as_str();
        self.sheet
            .text(Some(route.from), route.side(), Tone::Air, label)
    }

    /// Replaces the label by the number and the text of a parcel.
    fn write_parcel<S: Drawable>(&mut self, source: &S, sent: &Sent) -> Result<(), AllocError> {
        self.label.clear();
        write!(self.label, "#{} ", sent.number)?;
        source.add_text(self.plan, sent.flight, &mut self.label)
    }

    /// Ends the picture: adds a row with `..` if the last events were left out and a row has to say
    /// so, and draws the phases that last to the end.
    pub(crate) fn end(&mut self) -> Result<(), AllocError> {
        self.add_gap()?;
        self.sheet.close()
    }
}
