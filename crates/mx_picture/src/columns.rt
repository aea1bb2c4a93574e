//! The horizontal positions of the nodes' lines.

ghost use Rattle.std.specs.Prelude.{◌≤◌, max};

use crate::labels::{Label, Side};
use crate::text::width_of;
use mx_format::name_of;
use mx_plan::Plan;
use mx_stamps::{MAX_NODES, NodeId, NodeIds};

/// The least distance between the lines of neighbours, in pixels.
const MIN_COLUMN: u64 = 60;

/// The greatest distance between the lines of neighbours, in pixels.
const MAX_COLUMN: u64 = 180;

/// The greatest distance between the first line and the last, in pixels.
const MAX_SPAN: u64 = 2000;

/// The room between a text and the line of the next node, in pixels.
const GAP: u64 = 8;

/// For each node, whether it has a line.
pub(crate) type Lanes = [bool; MAX_NODES as usize];

/// The room that texts want beside the line of each node, in pixels: half its name on both sides,
/// and texts of events on the left and on the right.
#[derive(Clone, Copy)]
struct Room {
    names: [u64; MAX_NODES as usize],
    left: [u64; MAX_NODES as usize],
    right: [u64; MAX_NODES as usize],
}

impl Room {
    fn new(plan: &Plan, labels: &[Label]) -> Self {
        let none = [0; MAX_NODES as usize];
        let mut room = Room {
            names: none,
            left: none,
            right: none,
        };
        for node in plan.node_ids() {
            room.names[usize::from(node.get())] = width_of(name_of(plan, node)) / 2;
        }
        for label in labels {
            let index = usize::from(label.node.get());
            let wanted = label.reach();
            match label.side {
                Side::Left => room.left[index] = room.left[index].max(wanted),
                Side::Right => room.right[index] = room.right[index].max(wanted),
            }
        }
        room
    }

    fn between(&self, left: NodeId, right: NodeId) -> u64 {
        let left = usize::from(left.get());
        let right = usize::from(right.get());
        let names = self.names[left].saturating_add(self.names[right]);
        let texts = self.right[left].max(self.left[right]);
        names.max(texts).saturating_add(GAP)
    }
}

/// The horizontal positions of the lines of nodes, in pixels from the first line.
#[derive(Clone, Copy)]
pub(crate) struct Columns {
    lines: [Option<u64>; MAX_NODES as usize],
    pub(crate) last: u64,
}

impl Columns {
    /// Places the lines of these nodes. Neighbours are as far apart as the texts between them want,
    /// from `MIN_COLUMN` to `MAX_COLUMN`, or closer if the lines would span more than `MAX_SPAN`.
    pub(crate) fn new(plan: &Plan, lanes: &Lanes, labels: &[Label]) -> Self {
        let room = Room::new(plan, labels);
        let columns = Columns::within(MAX_COLUMN, lanes, &room);
        if columns.last <= MAX_SPAN {
            return columns;
        }
        let lines = lanes.iter().filter(|has| **has).count() as u64;
        Columns::within(widest_column(lines), lanes, &room)
    }

    fn within(widest: u64, lanes: &Lanes, room: &Room) -> Self {
        let mut columns = Columns {
            lines: [None; MAX_NODES as usize],
            last: 0,
        };
        let mut before = None;
        for node in NodeIds::below(MAX_NODES) {
            let index = usize::from(node.get());
            if lanes[index] {
                if let Some(before) = before {
                    let width = column_width(room.between(before, node), widest);
                    columns.last = columns.last.saturating_add(width);
                }
                columns.lines[index] = Some(columns.last);
                before = Some(node);
            }
        }
        columns
    }

    /// Returns the position of a node's line, if it has one.
    pub(crate) fn line_of(&self, node: NodeId) -> Option<u64> {
        self.lines[usize::from(node.get())]
    }

    /// Returns the position of a node's line, or that of the first line if it has none.
    pub(crate) fn x_of(&self, node: NodeId) -> u64 {
        self.line_of(node).unwrap_or(0)
    }
}

/// Returns the greatest distance between neighbours, up to `MAX_COLUMN`, at which this many lines
/// fit into `MAX_SPAN`.
fn widest_column(lines: u64) -> u64
    ensures { result ≤ 180 }
{
    let columns = lines.saturating_sub(1).max(1);
    MAX_COLUMN.min(MAX_SPAN / columns)
}

fn column_width(room: u64, widest: u64) -> u64
    ensures least { 60 ≤ result }
    ensures most { result ≤ max 60 widest }
{
    room.min(widest).max(MIN_COLUMN)
}
