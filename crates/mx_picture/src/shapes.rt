//! The shapes of a picture as SVG, once it is known where the lines of the nodes are.

use crate::arrows::{ASIDE, ROW};
use crate::columns::Columns;
use crate::fates::Fate;
use crate::labels::Side;
use crate::sheet::Sheet;
use mx_format::name_of;
use mx_plan::Plan;
use mx_stamps::NodeId;
use std::alloc::AllocError;

/// Which event a dot is of. It is hollow if the event is refused. That of an event that breaks a
/// rule is a triangle that points to it from the left.
#[derive(Clone, Copy)]
pub(crate) enum DotKind {
    Done,
    Refused,
    Broken,
}

/// The dot of an event at its node.
#[derive(Drop)]
pub(crate) struct Dot {
    pub(crate) node: NodeId,
    pub(crate) y: u64,
    pub(crate) kind: DotKind,
    /// The title, escaped.
    pub(crate) title: String,
}

impl Dot {
    fn add_to(&self, columns: &Columns, text: &mut String) -> Result<(), AllocError> {
        let x = columns.x_of(self.node);
        let (y, title) = (self.y, self.title.as_str());
        let class = match self.kind {
            DotKind::Done => "",
            DotKind::Refused => " class=\"refused\"",
            DotKind::Broken => {
                return write!(
                    text,
                    "<path class=\"broken\" d=\"M{x} {y}m-15 0l-13-7v14z\"><title>{title}</title></path>\n"
                );
            }
        };
        write!(
            text,
            "<circle{class} cx=\"{x}\" cy=\"{y}\" r=\"2.5\"><title>{title}</title></circle>\n"
        )
    }
}

impl Sheet {
    /// Appends bars, boxes and arrows, and over them the rows that repeat the names of the nodes.
    pub(crate) fn add_lines(
        &self,
        plan: &Plan,
        columns: &Columns,
        text: &mut String,
    ) -> Result<(), AllocError> {
        for bar in &self.bars {
            bar.add_to(columns, text)?;
        }
        for piece in &self.pieces {
            piece.add_to(columns, text)?;
        }
        for side in [Side::Left, Side::Right] {
            for fate in [Fate::Overtaken, Fate::UnderWay] {
                self.add_open(side, fate, columns, text)?;
            }
        }
        for arrow in &self.arrows {
            arrow.add_to(columns, text)?;
        }
        for (node, y) in &self.names {
            if let Some(x) = columns.line_of(*node) {
                let name = name_of(plan, *node);
                write!(
                    text,
                    "<text class=\"name\" x=\"{x}\" y=\"{y}\" dy=\"4\">{name}</text>\n"
                )?;
            }
        }
        Ok(())
    }

    /// Appends a mark on this side for each event that sent parcels of this fate, which no event
    /// delivers. Its title has a line for each.
    fn add_open(
        &self,
        side: Side,
        fate: Fate,
        columns: &Columns,
        text: &mut String,
    ) -> Result<(), AllocError> {
        let (class, mark) = if fate == Fate::Overtaken {
            ("overtaken", "m-3-3l6 6m0-6l-6 6")
        } else {
            ("pending", "m-3 0a3 3 0 1 0 6 0a3 3 0 1 0-6 0")
        };
        let aside = side.sign();
        let mut last = None;
        let mut end = "";
        for arrow in &self.open {
            let (route, y) = (&arrow.route, arrow.y);
            if route.side() != side || self.fates.of(arrow.number, arrow.flight, route) != fate {
                continue;
            }
            if last == Some(y) {
                text.push('\n')?;
            } else {
                let x = columns.x_of(route.from);
                write!(
                    text,
                    "{end}<path class=\"{class}\" d=\"M{x} {y}l{aside}{ASIDE} {ROW}{mark}\"><title>"
                )?;
            }
            text.push_str(arrow.title.as_str())?;
            last = Some(y);
            end = "</title></path>\n";
        }
        text.push_str(end)
    }

    /// Appends dots, the numbers of sections, and the mark of the event that breaks a rule.
    pub(crate) fn add_marks(&self, columns: &Columns, text: &mut String) -> Result<(), AllocError> {
        for dot in &self.dots {
            dot.add_to(columns, text)?;
        }
        for bar in &self.bars {
            bar.add_number(columns, text)?;
        }
        for mark in &self.marks {
            mark.add_to(columns, text)?;
        }
        Ok(())
    }
}
