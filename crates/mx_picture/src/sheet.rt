//! A picture in progress, row by row from the top.

ghost use Rattle.std.specs.Prelude.{◌≤◌};

use crate::arrows::{Arrow, ArrowEnd, ROW};
use crate::bars::Bar;
use crate::columns::Lanes;
use crate::fates::KnownFates;
use crate::labels::{Label, Side, Tone};
use crate::sent::Route;
use crate::shapes::{Dot, DotKind};
use crate::text::{add_escaped, escaped, width_of};
use mx_nodelaws::Phase;
use mx_stamps::{MAX_NODES, NodeId, NodeIds};
use std::alloc::{AllocError, Global};

/// The greatest height of a row, reached after a million million rows.
const MAX_Y: u64 = 13_000_000_000_000;

/// The names of the nodes are repeated after this height, that of 50 rows.
const NAMED: u64 = 50 * ROW;

/// A parcel that was sent, in the row at the height `y`, and what else is known of it.
#[derive(Clone, Copy)]
pub(crate) struct Flight {
    y: u64,
    /// Whether the picture shows the sending.
    is_shown: bool,
    /// Whether the parcel is a letter that no tick sent.
    pub(crate) is_original: bool,
    /// Whether an event so far delivered the parcel.
    pub(crate) is_delivered: bool,
}

/// All that a picture shows, before it is known where the lines of the nodes are, and what has to be
/// known of the rows above. Heights are in pixels. Each kind of shape is drawn over the kinds
/// before it.
#[derive(Drop)]
pub(crate) struct Sheet {
    pub(crate) alloc: Global,
    /// The height of the current row.
    pub(crate) y: u64,
    /// The height of the current event, and its index.
    pub(crate) event: u64,
    index: u64,
    /// The height of the last row that repeats the names of the nodes, or 0 before the first.
    named: u64,
    pub(crate) entered: u64,
    /// The parcels sent so far.
    pub(crate) flights: Vec<Flight>,
    pub(crate) fates: KnownFates,
    /// The present phase of each node.
    phases: [Bar; MAX_NODES as usize],
    /// The nodes that act or receive.
    pub(crate) lanes: Lanes,
    /// The heights of the guides: lines across the page at each tenth event.
    pub(crate) guides: Vec<u64>,
    /// The SVG of the events' indices, which both edges show.
    pub(crate) indices: String,
    pub(crate) bars: Vec<Bar>,
    /// The arrows that are drawn at one end only.
    pub(crate) pieces: Vec<Arrow>,
    /// The parcels that are neither delivered nor lost.
    pub(crate) open: Vec<Arrow>,
    /// The other arrows. None ends in a lower row than a later one.
    pub(crate) arrows: Vec<Arrow>,
    /// The names that stand between the rows.
    pub(crate) names: Vec<(NodeId, u64)>,
    pub(crate) dots: Vec<Dot>,
    /// The mark of the event that breaks a rule, if there is one.
    pub(crate) marks: Vec<Dot>,
    pub(crate) labels: Vec<Label>,
    /// The entries and exits in words, for readers who cannot see the picture.
    pub(crate) story: String,
    ghost short: { y ≤ 13000000000000 },
}

impl Sheet {
    pub(crate) fn new(alloc: Global, fates: KnownFates) -> Self {
        Sheet {
            alloc,
            y: 0,
            event: 0,
            index: 0,
            named: 0,
            entered: 0,
            flights: Vec::new(alloc),
            fates,
            phases: [Bar::new(0, Phase::Idle, true); MAX_NODES as usize],
            lanes: [false; MAX_NODES as usize],
            guides: Vec::new(alloc),
            indices: String::new(alloc),
            bars: Vec::new(alloc),
            pieces: Vec::new(alloc),
            open: Vec::new(alloc),
            arrows: Vec::new(alloc),
            names: Vec::new(alloc),
            dots: Vec::new(alloc),
            marks: Vec::new(alloc),
            labels: Vec::new(alloc),
            story: String::new(alloc),
        }
    }

    /// Returns `AllocError` if the picture has 10^12 rows.
    pub(crate) fn next_row(&mut self) -> Result<(), AllocError> {
        if self.y > MAX_Y - ROW {
            return Err(AllocError);
        }
        self.y += ROW;
        Ok(())
    }

    /// Begins the row of the event of this index, which is shown.
    pub(crate) fn begin(&mut self, index: u64) -> Result<(), AllocError> {
        if self.y.saturating_sub(self.named) >= NAMED {
            self.repeat_names()?;
        }
        let y = self.y;
        self.event = y;
        self.index = index;
        if index % 10 == 0 {
            self.guides.push(y)?;
        }
        write!(self.indices, "<text y=\"{y}\" dy=\"4\">{index}</text>\n")
    }

    /// Adds a row with the names of the nodes, except where a node is inside and has its box.
    fn repeat_names(&mut self) -> Result<(), AllocError> {
        self.named = self.y;
        for node in NodeIds::below(MAX_NODES) {
            if !self.phases[usize::from(node.get())].is_inside() {
                self.names.push((node, self.y))?;
            }
        }
        self.next_row()
    }

    /// Adds a row with `..`, for events that are left out.
    pub(crate) fn skip(&mut self) -> Result<(), AllocError> {
        let y = self.y;
        write!(self.indices, "<text y=\"{y}\" dy=\"4\">..</text>\n")?;
        self.next_row()
    }

    /// Adds the dot or the mark of an event of a node.
    pub(crate) fn dot(
        &mut self,
        node: NodeId,
        kind: DotKind,
        title: &str,
    ) -> Result<(), AllocError> {
        let title = escaped(self.alloc, title)?;
        let y = self.y;
        let dot = Dot {
            node,
            y,
            kind,
            title,
        };
        match kind {
            DotKind::Done | DotKind::Refused => self.dots.push(dot)?,
            DotKind::Broken => self.marks.push(dot)?,
        }
        Ok(())
    }

    /// Writes a text beside a node, which acts or receives; or left of the lines of all nodes.
    pub(crate) fn text(
        &mut self,
        node: Option<NodeId>,
        side: Side,
        tone: Tone,
        raw: &str,
    ) -> Result<(), AllocError> {
        if let Some(node) = node {
            self.lanes[usize::from(node.get())] = true;
        }
        let text = escaped(self.alloc, raw)?;
        self.labels.push(Label {
            // without a line, a node is at the place of the first line
            node: node.unwrap_or_default(),
            y: self.y,
            side,
            tone,
            width: width_of(raw),
            text,
        })?;
        Ok(())
    }

    /// Appends this text, about the current event, to the description of the picture.
    pub(crate) fn describe(&mut self, raw: &str) -> Result<(), AllocError> {
        write!(self.story, " {} ", self.index)?;
        add_escaped(raw, &mut self.story)?;
        self.story.push('.')
    }

    /// Notes a parcel that the current event sent.
    pub(crate) fn send(&mut self, is_shown: bool, is_original: bool) -> Result<(), AllocError> {
        self.flights.push(Flight {
            y: self.event,
            is_shown,
            is_original,
            is_delivered: false,
        })?;
        Ok(())
    }

    /// Notes that a parcel is delivered now. Returns what is seen of its arrow, and where that
    /// begins. `is_shown` says whether the picture shows the delivery.
    pub(crate) fn arrive(
        &mut self,
        flight: u64,
        route: &Route,
        is_shown: bool,
    ) -> Option<(u64, ArrowEnd)> {
        self.fates.deliver(flight, route);
        let flight = self.flights.get_mut(flight as usize)?;
        let is_repeat = flight.is_delivered;
        flight.is_delivered = true;
        let down = self.y.saturating_sub(flight.y);
        match (flight.is_shown, is_shown) {
            (true, true) => Some((flight.y, ArrowEnd::Whole { is_repeat, down })),
            (false, true) => Some((self.y, ArrowEnd::Delivery { is_repeat })),
            (true, false) if !is_repeat => Some((flight.y, ArrowEnd::Sending)),
            _ => None,
        }
    }

    /// Returns what is seen of the arrow of a parcel that is lost now, and where that begins, if the
    /// picture shows the sending. `is_shown` says whether it shows the loss.
    pub(crate) fn fall(&self, flight: u64, is_shown: bool) -> Option<(u64, ArrowEnd)> {
        match self.flights.get(flight as usize) {
            Some(flight) if flight.is_shown && is_shown => {
                let down = self.y.saturating_sub(flight.y);
                Some((flight.y, ArrowEnd::Loss { down }))
            }
            Some(flight) if flight.is_shown => Some((flight.y, ArrowEnd::Sending)),
            _ => None,
        }
    }

    pub(crate) fn add_arrow(&mut self, arrow: Arrow) -> Result<(), AllocError> {
        match arrow.end {
            ArrowEnd::Whole { .. } => self.arrows.push(arrow)?,
            ArrowEnd::Loss { .. } => self.add_loss(arrow)?,
            ArrowEnd::Open => self.open.push(arrow)?,
            ArrowEnd::Sending | ArrowEnd::Delivery { .. } => self.pieces.push(arrow)?,
        }
        Ok(())
    }

    /// Adds the arrow of a lost parcel. It shares the last arrow if that looks the same.
    fn add_loss(&mut self, arrow: Arrow) -> Result<(), AllocError> {
        if let Some(last) = self.arrows.last_mut()
            && last.looks_like(&arrow)
        {
            last.title.push('\n')?;
            return last.title.push_str(arrow.title.as_str());
        }
        self.arrows.push(arrow)?;
        Ok(())
    }

    /// Changes the phase of a node. `is_shown` says whether the picture shows the event.
    pub(crate) fn change(
        &mut self,
        node: NodeId,
        phase: Phase,
        is_shown: bool,
    ) -> Result<(), AllocError> {
        let index = usize::from(node.get());
        let bar = self.phases[index];
        self.phases[index] = Bar::new(self.y, phase, is_shown);
        if self.phases[index].is_inside() {
            self.entered = self.entered.saturating_add(1);
        }
        match bar.ended(node, self.y, is_shown) {
            Some(bar) => Ok(self.bars.push(bar)?),
            None => Ok(()),
        }
    }

    /// Ends the picture.
    pub(crate) fn close(&mut self) -> Result<(), AllocError> {
        for node in NodeIds::below(MAX_NODES) {
            self.change(node, Phase::Idle, true)?;
        }
        Ok(())
    }
}
