//! The lines of arrows, and the rectangles of texts that they may cross.

use mx_stamps::NodeId;

/// How far lines and rectangles are moved to the right, in pixels, so that no position left of the
/// first node is negative.
pub(crate) const SHIFT: u64 = 1_000_000;

/// The straight line of an arrow, in pixels: from `from` at the height `top` to `to` at the height
/// `bottom`. Both positions are moved to the right by `SHIFT`.
#[derive(Clone, Copy)]
pub(crate) struct Segment {
    pub(crate) nodes: [NodeId; 2],
    pub(crate) from: u64,
    pub(crate) top: u64,
    pub(crate) to: u64,
    pub(crate) bottom: u64,
}

impl Segment {
    /// Returns the horizontal position of the line at the height `y`.
    fn x_at(&self, y: u64) -> u64 {
        let down = self.bottom.saturating_sub(self.top).max(1);
        let part = y.saturating_sub(self.top);
        let aside = self.to.abs_diff(self.from).saturating_mul(part) / down;
        if self.to >= self.from {
            self.from.saturating_add(aside)
        } else {
            self.from.saturating_sub(aside)
        }
    }

    /// Returns whether the rectangle around the line meets this one, and the line does.
    pub(crate) fn crosses(&self, rect: &Rect) -> bool {
        let is_near = self.from.min(self.to) <= rect.right
            && self.from.max(self.to) >= rect.left
            && self.top <= rect.bottom
            && self.bottom >= rect.top;
        if !is_near {
            return false;
        }
        let above = self.x_at(rect.top.max(self.top));
        let below = self.x_at(rect.bottom.min(self.bottom));
        above.min(below) <= rect.right && above.max(below) >= rect.left
    }
}

/// The rectangle of a text on the page, in pixels, moved to the right by `SHIFT`.
#[derive(Clone, Copy)]
pub(crate) struct Rect {
    pub(crate) left: u64,
    pub(crate) right: u64,
    pub(crate) top: u64,
    pub(crate) bottom: u64,
}
