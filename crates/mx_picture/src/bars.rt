//! The phases of nodes: bars while they wait, and boxes while they are inside.

use crate::columns::Columns;
use mx_nodelaws::Phase;
use mx_stamps::NodeId;
use std::alloc::AllocError;

/// How much shorter a bar is where the event that begins or ends it is not shown, in pixels: so it
/// does not touch the bar before it or after it.
const CUT: u64 = 6;

/// A phase of a node: it begins at the height `y` and goes `down` pixels down.
#[derive(Clone, Copy)]
pub(crate) struct Bar {
    node: NodeId,
    y: u64,
    down: u64,
    phase: Phase,
}

impl Bar {
    /// Begins a phase in the row at the height `y`. `is_shown` says whether the picture shows the
    /// event that begins it.
    pub(crate) fn new(y: u64, phase: Phase, is_shown: bool) -> Self {
        Bar {
            node: NodeId::default(),
            y: if is_shown { y } else { y.saturating_add(CUT) },
            down: 0,
            phase,
        }
    }

    /// Returns the whole bar of a node whose phase ends in the row at the height `y`, if that is
    /// below the row in which it began. `is_shown` says whether the picture shows the event that
    /// ends it.
    pub(crate) fn ended(self, node: NodeId, y: u64, is_shown: bool) -> Option<Bar> {
        let down = y.saturating_sub(self.y);
        let cut = if is_shown { 0 } else { CUT };
        (down > 0).then_some(Bar {
            node,
            down: down.saturating_sub(cut),
            ..self
        })
    }

    pub(crate) fn is_inside(&self) -> bool {
        matches!(self.phase, Phase::Inside(_))
    }

    pub(crate) fn add_to(&self, columns: &Columns, text: &mut String) -> Result<(), AllocError> {
        let (y, down) = (self.y, self.down);
        match (self.phase, columns.line_of(self.node)) {
            (Phase::Waiting, Some(x)) => {
                write!(text, "<path class=\"waits\" d=\"M{x} {y}v{down}\"/>\n")
            }
            (Phase::Inside(number), Some(x)) => {
                let high = down.saturating_add(12);
                write!(
                    text,
                    "<path class=\"inside\" d=\"M{x} {y}m-12-6h24v{high}h-24z\"><title>section {number}</title></path>\n"
                )
            }
            _ => Ok(()),
        }
    }

    /// Appends the number of the section in the box of a node that is inside.
    pub(crate) fn add_number(
        &self,
        columns: &Columns,
        text: &mut String,
    ) -> Result<(), AllocError> {
        match (self.phase, columns.line_of(self.node)) {
            (Phase::Inside(number), Some(x)) => write!(
                text,
                "<text class=\"section\" x=\"{x}\" y=\"{}\" dy=\"4\">{number}</text>\n",
                self.y
            ),
            _ => Ok(()),
        }
    }
}
