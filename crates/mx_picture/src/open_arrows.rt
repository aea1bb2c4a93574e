//! The arrows beside a text. Texts are visited from the bottom of the picture up, so that only the
//! arrows that are open in a row have to be kept.

ghost use Rattle.std.specs.Prelude.{◌≡◌, nat_lt};
ghost use Rattle.mx_picture.specs.Crossings.{rank_of};

use crate::segment::{Rect, Segment};
use mx_stamps::NodeId;
use std::alloc::{AllocError, Global};

/// The greatest number of arrows that are looked at for one place of a text: those that end first.
const MAX_OPEN: usize = 1000;

/// The arrows that run through the place of a text: none, only those from or to its node, or also
/// others.
#[derive(Clone, Copy)]
pub(crate) enum Crossing {
    Clear,
    Own,
    Foreign,
}

impl Crossing {
    fn rank(self) -> u8
        ensures { result ≡ rank_of self }
    {
        match self {
            Crossing::Clear => 0,
            Crossing::Own => 1,
            Crossing::Foreign => 2,
        }
    }

    pub(crate) fn is_worse_than(self, other: Crossing) -> bool
        ensures { result ≡ nat_lt (rank_of other) (rank_of self) }
    {
        other.rank() < self.rank()
    }
}

/// The arrows that end above a height, and those that are open there: they end below it, and begin
/// above it.
#[derive(Drop)]
pub(crate) struct OpenArrows {
    /// The arrows that end above, in the order of their ends.
    above: Vec<Segment>,
    /// The arrows that are open, and some that begin below.
    open: Vec<Segment>,
    /// `open` may have this many arrows before those that begin below are removed: they may be half
    /// of all.
    room: usize,
}

impl OpenArrows {
    /// Starts below all of these arrows, which are in the order of their ends.
    pub(crate) fn new(alloc: Global, above: Vec<Segment>) -> Self {
        OpenArrows {
            above,
            open: Vec::new(alloc),
            room: 0,
        }
    }

    /// Goes up to a text in this rectangle.
    pub(crate) fn rise(&mut self, rect: &Rect) -> Result<(), AllocError> {
        let below = self.above.iter().rev();
        let opened = below
            .take_while(|segment| segment.bottom >= rect.top)
            .count();
        for _ in 0..opened {
            if let Some(segment) = self.above.pop() {
                self.open.push(segment)?;
            }
        }
        if self.open.len() > self.room {
            self.open.retain(|segment| segment.top <= rect.bottom);
            self.room = self.open.len().saturating_mul(2);
        }
        Ok(())
    }

    /// Returns which arrows run through this place of a text of the node.
    pub(crate) fn crossing(&self, node: NodeId, rect: &Rect) -> Crossing {
        let mut crossing = Crossing::Clear;
        for segment in self.open.iter().rev().take(MAX_OPEN) {
            if segment.crosses(rect) {
                if !segment.nodes.contains(&node) {
                    return Crossing::Foreign;
                }
                crossing = Crossing::Own;
            }
        }
        crossing
    }
}
