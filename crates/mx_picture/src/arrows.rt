//! The arrows of parcels.

use crate::columns::Columns;
use crate::labels::Side;
use crate::segment::{SHIFT, Segment};
use crate::sent::Route;
use std::alloc::AllocError;

/// The distance between two rows, in pixels.
pub(crate) const ROW: u64 = 13;

/// How far the piece of an arrow goes to the side, in pixels.
pub(crate) const ASIDE: u64 = 26;

/// How far the bow of an arrow to its own node swings to the left, in pixels.
const BOW: u64 = 20;

/// An arrow is long if it goes down by this much or more, in pixels: the text of its delivery then
/// names the sender.
const LONG: u64 = 26 * ROW;

/// An arrow is also long if the numbers of its two nodes differ by this much or more.
const LONG_NODES: u8 = 6;

/// What of a parcel's arrow is drawn. It is dashed if the parcel was delivered before.
#[derive(Clone, Copy, PartialEq)]
pub(crate) enum ArrowEnd {
    /// All, to the delivery this many pixels down.
    Whole { is_repeat: bool, down: u64 },
    /// The start: the delivery is not shown.
    Sending,
    /// The tip: the sending is not shown.
    Delivery { is_repeat: bool },
    /// A start that goes down to where the parcel is lost, this many pixels, and ends in a cross.
    Loss { down: u64 },
    /// A start with a mark: no event delivers the parcel, and it is not lost.
    Open,
}

impl ArrowEnd {
    /// Returns whether a delivered parcel's arrow is long or begins in a row that is not shown.
    pub(crate) fn is_far(self, route: Route) -> bool {
        match self {
            ArrowEnd::Whole { down, .. } => {
                down >= LONG || route.from.get().abs_diff(route.to.get()) >= LONG_NODES
            }
            _ => true,
        }
    }
}

/// The arrow of a parcel, or a piece of it. It begins at the height `y`, where the parcel is sent;
/// a tip alone ends there, at the delivery.
#[derive(Drop)]
pub(crate) struct Arrow {
    pub(crate) number: u64,
    pub(crate) flight: u64,
    pub(crate) route: Route,
    pub(crate) y: u64,
    pub(crate) end: ArrowEnd,
    /// The title, escaped.
    pub(crate) title: String,
}

impl Arrow {
    /// Returns the line of the arrow. That of a lost parcel is beside its sender, and an arrow of no
    /// other node. The bow of an arrow to its own node counts as a line at the left of the node.
    pub(crate) fn segment(&self, columns: &Columns) -> Segment {
        let Route { from, to, .. } = self.route;
        let x = columns.x_of(from).saturating_add(SHIFT);
        let (to, end, down) = match (self.end, self.route.side()) {
            (ArrowEnd::Loss { down }, Side::Left) => (from, x.saturating_sub(ASIDE), down),
            (ArrowEnd::Loss { down }, Side::Right) => (from, x.saturating_add(ASIDE), down),
            (ArrowEnd::Whole { down, .. }, _) => (to, columns.x_of(to).saturating_add(SHIFT), down),
            _ => (to, columns.x_of(to).saturating_add(SHIFT), 0),
        };
        let aside = if end == x { BOW } else { 0 };
        Segment {
            nodes: [from, to],
            from: x.saturating_sub(aside),
            top: self.y,
            to: end.saturating_sub(aside),
            bottom: self.y.saturating_add(down),
        }
    }

    /// Returns whether an arrow can be drawn with this one, of another parcel to the same side.
    pub(crate) fn looks_like(&self, other: &Arrow) -> bool {
        self.end == other.end
            && self.y == other.y
            && self.route.from == other.route.from
            && self.route.side() == other.route.side()
    }

    pub(crate) fn add_to(&self, columns: &Columns, text: &mut String) -> Result<(), AllocError> {
        self.add_path(columns, text)?;
        let tag = match self.end {
            ArrowEnd::Loss { .. } => "g",
            _ => "path",
        };
        write!(text, "<title>{}</title></{tag}>\n", self.title)
    }

    /// Appends the start tag, and the two paths of a loss after it.
    fn add_path(&self, columns: &Columns, text: &mut String) -> Result<(), AllocError> {
        let class = self.route.class();
        let (aside, back) = (self.route.side().sign(), self.route.side().other().sign());
        let from = columns.x_of(self.route.from);
        let to = columns.x_of(self.route.to);
        let y = self.y;
        let again = match self.end {
            ArrowEnd::Whole { is_repeat, .. } | ArrowEnd::Delivery { is_repeat } if is_repeat =>
                " again",
            _ => "",
        };
        match self.end {
            ArrowEnd::Whole { down, .. } => {
                write!(text, "<path class=\"{class}{again}\" d=\"M{from} {y}")?;
                add_way(from, to, down, text)?;
                write!(text, "\" marker-end=\"url(#{class})\">")
            }
            ArrowEnd::Sending | ArrowEnd::Open => write!(
                text,
                "<path class=\"{class}\" d=\"M{from} {y}l{aside}{ASIDE} {ROW}\">"
            ),
            ArrowEnd::Delivery { .. } => write!(
                text,
                "<path class=\"{class}{again}\" d=\"M{to} {y}m{back}{ASIDE}-{ROW}l{aside}{ASIDE} {ROW}\" marker-end=\"url(#{class})\">"
            ),
            ArrowEnd::Loss { down } => {
                write!(
                    text,
                    "<g class=\"lost\"><path d=\"M{from} {y}l{aside}{ASIDE} {down}\"/>"
                )?;
                write!(
                    text,
                    "<path class=\"cross\" d=\"M{from} {y}m{aside}{ASIDE} {down}m-3-3l6 6m0-6l-6 6\"/>"
                )
            }
        }
    }
}

/// Appends the way of an arrow: straight to another node, or by a bow back to its own.
fn add_way(x: u64, to: u64, down: u64, text: &mut String) -> Result<(), AllocError> {
    if to < x {
        let aside = x - to;
        write!(text, "l-{aside} {down}")
    } else if to > x {
        let aside = to - x;
        write!(text, "l{aside} {down}")
    } else {
        let half = down / 2;
        write!(text, "q-40 {half} 0 {down}")
    }
}
