//! Texts beside nodes, each on a side where no arrow runs through it, if there is such a side, or
//! else none of other nodes.

use crate::columns::Columns;
use crate::open_arrows::{Crossing, OpenArrows};
use crate::segment::{Rect, SHIFT, Segment};
use crate::sheet::Sheet;
use mx_stamps::NodeId;
use std::alloc::AllocError;

/// Half the height of a text's characters, in pixels.
const HALF_HIGH: u64 = 5;

/// The place of a text: to the left or right of its node.
#[derive(Clone, Copy, PartialEq)]
pub(crate) enum Side {
    Left,
    Right,
}

impl Side {
    pub(crate) fn other(self) -> Side {
        match self {
            Side::Left => Side::Right,
            Side::Right => Side::Left,
        }
    }

    /// Returns the sign of distances to this side.
    pub(crate) fn sign(self) -> &'static str {
        match self {
            Side::Left => "-",
            Side::Right => "",
        }
    }
}

/// What a text is about, which decides how it is written and how far from its node.
#[derive(Clone, Copy)]
pub(crate) enum Tone {
    /// An event of the node.
    Event,
    /// What is in the air: parcels that no event delivers, beside their marks, or an event of a
    /// node that is not known.
    Air,
    /// Why an event breaks a rule.
    Reason,
}

impl Tone {
    /// Returns the distance between the text and its node, in pixels.
    fn gap(self) -> u64 {
        match self {
            Tone::Event | Tone::Reason => 17,
            Tone::Air => 33,
        }
    }

    /// Returns the class of a text on a side, and its distance from the node.
    fn attributes(self, side: Side) -> &'static str {
        match (self, side) {
            (Tone::Event, Side::Left) => " class=\"left\" dx=\"-17\"",
            (Tone::Event, Side::Right) => " dx=\"17\"",
            (Tone::Air, Side::Left) => " class=\"air left\" dx=\"-33\"",
            (Tone::Air, Side::Right) => " class=\"air\" dx=\"33\"",
            (Tone::Reason, Side::Left) => " class=\"reason left\" dx=\"-17\"",
            (Tone::Reason, Side::Right) => " class=\"reason\" dx=\"17\"",
        }
    }
}

/// A text beside a node, at the height `y`, `width` pixels wide, with the side that it prefers.
#[derive(Drop)]
pub(crate) struct Label {
    pub(crate) node: NodeId,
    pub(crate) y: u64,
    pub(crate) side: Side,
    pub(crate) tone: Tone,
    pub(crate) width: u64,
    /// The text, escaped.
    pub(crate) text: String,
}

impl Label {
    pub(crate) fn reach(&self) -> u64 {
        self.tone.gap().saturating_add(self.width)
    }

    fn rect(&self, x: u64, side: Side) -> Rect {
        let node = x.saturating_add(SHIFT);
        let near = self.tone.gap();
        let far = self.reach();
        let (left, right) = match side {
            Side::Left => (node.saturating_sub(far), node.saturating_sub(near)),
            Side::Right => (node.saturating_add(near), node.saturating_add(far)),
        };
        Rect {
            left,
            right,
            top: self.y.saturating_sub(HALF_HIGH),
            bottom: self.y.saturating_add(HALF_HIGH),
        }
    }

    /// Returns the better side of the text, once the arrows beside it are open.
    fn better_side(&self, x: u64, arrows: &OpenArrows) -> Side {
        let here = arrows.crossing(self.node, &self.rect(x, self.side));
        let other = self.side.other();
        if here.is_worse_than(Crossing::Clear)
            && here.is_worse_than(arrows.crossing(self.node, &self.rect(x, other)))
        {
            other
        } else {
            self.side
        }
    }
}

/// Texts as SVG, and how far they extend to the left and to the right of the first node's line, in
/// pixels, without the gaps between texts and nodes.
#[derive(Drop)]
pub(crate) struct LabelTexts {
    pub(crate) svg: String,
    pub(crate) left: u64,
    pub(crate) right: u64,
}

impl Sheet {
    /// Returns the texts beside nodes, each on its side.
    pub(crate) fn texts(&self, columns: &Columns) -> Result<LabelTexts, AllocError> {
        let mut sides = self.sides(columns)?;
        let mut texts = LabelTexts {
            svg: String::new(self.alloc),
            left: 0,
            right: 0,
        };
        for label in &self.labels {
            let x = columns.x_of(label.node);
            let side = sides.pop().unwrap_or(label.side);
            match side {
                Side::Left => texts.left = texts.left.max(label.width.saturating_sub(x)),
                Side::Right => texts.right = texts.right.max(label.width.saturating_add(x)),
            }
            let attributes = label.tone.attributes(side);
            let (y, shown) = (label.y, label.text.as_str());
            write!(
                texts.svg,
                "<text{attributes} x=\"{x}\" y=\"{y}\" dy=\"4\">{shown}</text>\n"
            )?;
        }
        Ok(texts)
    }

    /// Returns the side of each text, the last first.
    fn sides(&self, columns: &Columns) -> Result<Vec<Side>, AllocError> {
        let mut arrows = OpenArrows::new(self.alloc, self.segments(columns)?);
        let mut sides = Vec::new(self.alloc);
        for label in self.labels.iter().rev() {
            let x = columns.x_of(label.node);
            arrows.rise(&label.rect(x, label.side))?;
            sides.push(label.better_side(x, &arrows))?;
        }
        Ok(sides)
    }

    /// Returns the lines of the arrows that are not pieces, in the order of their ends.
    fn segments(&self, columns: &Columns) -> Result<Vec<Segment>, AllocError> {
        let mut segments = Vec::new(self.alloc);
        for arrow in &self.arrows {
            segments.push(arrow.segment(columns))?;
        }
        Ok(segments)
    }
}
