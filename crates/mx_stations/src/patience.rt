//! How a worker waits between two turns of its station. Nothing is proved about the words that it
//! reads meanwhile.

ghost use Rattle.std.specs.Prelude.{◌≡◌, ◌<◌};

use crate::answers::{TakeFault, TurnReport};
use crate::collection::is_inside;
use crate::gate::{Gate, News, Pause, Rest};
use crate::slots::{Link, has_filled};
use crate::station::Station;
use mx_nodelaws::{Exclusion, Phase};
use mx_stamps::{NodeId, NodeIds};
use std::thread::yield_now;

/// At a gate without bells, a worker lets other threads run at most this number of times before its
/// station may tick, for each node of its cluster and for `FEW` more.
const YIELDS: u32 = 3;

/// Among few nodes a yield returns at once, so a worker waits as if there were this number of nodes
/// more.
const FEW: u32 = 8;

/// The greatest number of rests after one turn.
const RESTS: u32 = 1_000_000;

/// Decides how long a worker waits between two turns of its station. The worker calls `before_turn`
/// and `after_turn` around each turn, and then `wait`.
///
/// A turn that finds no parcel ticks: it sends all outstanding letters again. Letters that are only
/// on their way arrive without that. So a worker rests until a parcel lies in a slot for its node,
/// or until its gate says that the station may tick. If the gate has no bells, the station may tick
/// once the worker's patience has run out, which is counted in yields. A tick and a new section
/// renew it. A parcel does not: a node that sent a lost letter gets letters of all nodes that wait
/// for this node, again and again, and would never tick.
#[derive(Clone, Copy, Debug, Default)]
pub struct Patience {
    /// The number of the station's last section, as it was at the last wait.
    section: u64,
    /// How many more times the worker lets other threads run before its station may tick.
    left: u32,
    /// The number up to which the journal lacked no section at the last wait inside.
    gapless: u64,
    /// The report of the last turn, or zeros if memory ran out in it.
    report: TurnReport,
    /// Whether memory ran out in the last turn.
    failed: bool,
    /// Whether the node's bell is rung for room.
    listens: bool,
    /// Whether the last turn was taken since the station may tick.
    due: bool,
}

impl Patience {
    /// Creates the patience of a worker before its first turn.
    pub fn new() -> Patience {
        Patience::default()
    }

    /// Prepares a turn. A node that is inside asks for records, and the asked node may have none.
    /// It hears that its want was taken only if it listens before the turn puts that out.
    pub fn before_turn<C: Exclusion, G: Gate>(&mut self, station: &Station<C>, gate: &G) {
        let listens = is_inside(station) || self.listens && self.report.full > 0;
        self.listen(station, gate, listens);
    }

    fn listen<C: Exclusion, G: Gate>(&mut self, station: &Station<C>, gate: &G, listens: bool) {
        if listens != self.listens {
            self.listens = listens;
            gate.listen(station.node(), listens);
        }
    }

    /// Notes the report of a turn, and rings the bells of all nodes to which the turn put a parcel
    /// out, or from which it took one.
    pub fn after_turn<C: Exclusion, G: Gate>(
        &mut self,
        station: &Station<C>,
        gate: &G,
        report: &Result<TurnReport, TakeFault>,
    ) {
        self.failed = report.is_err();
        self.report = match report {
            Ok(report) => *report,
            Err(TakeFault::Memory) => TurnReport::default(),
        };
        for node in NodeIds::below(station.nodes()) {
            if node != station.node() {
                ring(station, gate, node);
            }
        }
    }

    /// Waits after a turn, unless the station can act without a new parcel. `asks` says whether the
    /// node asks next. A node that has just left a section then waits briefly, since the next node
    /// inside often asks it for its record: a turn without a parcel would send its request twice.
    /// After a turn in which memory ran out, the worker only lets other threads run.
    pub fn wait<C: Exclusion, G: Gate>(&mut self, station: &Station<C>, gate: &G, asks: bool) {
        if self.failed {
            return yield_now();
        }
        self.renew(station);
        if self.has_to_act(station, gate, asks) {
            return;
        }
        self.due = false;
        let pause = Pause {
            section: station.mine(),
            is_waiting: !matches!(station.phase(), Phase::Idle),
            is_brief: asks,
        };
        for _rest in 0..RESTS {
            if self.has_news(station) {
                return;
            }
            match gate.rest(station.node(), &pause) {
                Rest::Yielded => self.left = self.left.saturating_sub(1),
                Rest::Rung => {}
                Rest::Due => self.left = 0,
            }
            if self.left == 0 || self.listens {
                self.due = self.left == 0 && !asks;
                return;
            }
        }
    }

    fn renew<C: Exclusion>(&mut self, station: &Station<C>) {
        let section = station.mine();
        if section != self.section || self.report.ticked || self.left == 0 {
            self.section = section;
            self.left = YIELDS * (FEW + u32::from(station.nodes()));
        }
    }

    fn has_to_act<C: Exclusion, G: Gate>(
        &mut self,
        station: &Station<C>,
        gate: &G,
        asks: bool,
    ) -> bool {
        if station.can_enter() || asks && self.report.put == 0 {
            return true;
        }
        if self.report.full > 0 && !self.listens {
            self.listen(station, gate, true);
            return true;
        }
        // the letters of a tick wait for the next turn
        if self.due && self.report.ticked && station.waits() > 0 {
            self.due = false;
            return true;
        }
        is_inside(station) && !self.awaits(station)
    }

    /// Returns whether a node inside waits for a reply: its journal has not grown since the last
    /// wait, and one of its parcels is with another node or on its way there.
    fn awaits<C: Exclusion>(&mut self, station: &Station<C>) -> bool {
        let gapless = station.journal().gapless_to();
        if gapless != self.gapless {
            self.gapless = gapless;
            return false;
        }
        station.put_to.has_other_than(station.node()) || has_put_any(station)
    }

    /// Returns whether there is a parcel for which the worker does not rest. A worker that listens
    /// waits for other nodes, and not for what its node sent to itself.
    fn has_news<C: Exclusion>(&self, station: &Station<C>) -> bool {
        if self.listens {
            has_mail_of_others(station)
        } else {
            station.has_mail()
        }
    }
}

fn ring<C: Exclusion, G: Gate>(station: &Station<C>, gate: &G, node: NodeId) {
    if station.put_to.has(node) {
        gate.ring(node, News::Mail);
    } else if station.took_from.has(node) {
        gate.ring(node, News::Room);
    }
}

fn has_put_any<C: Exclusion>(station: &Station<C>) -> bool {
    for index in 0..station.nodes() {
        if let Some(to) = NodeId::of(index)
            && to != station.node()
            && station.has_put(to)
        {
            return true;
        }
    }
    false
}

fn has_mail_of_others<C: Exclusion>(station: &Station<C>) -> bool {
    for index in 0..station.nodes() {
        if let Some(from) = NodeId::of(index)
            && from != station.node()
            && has_mail_from(station, from)
        {
            return true;
        }
    }
    false
}

fn has_mail_from<C: Exclusion>(station: &Station<C>, from: NodeId) -> bool
    requires { from < station.now.nodes }
{
    let link = Link {
        from,
        to: station.node,
    };
    has_filled(&station.field, &link)
}

impl<C: Exclusion> Station<C> {
    /// Returns whether a parcel for this node lies in a slot.
    pub fn has_mail(&self) -> bool {
        has_mail_of_others(self) || has_mail_from(self, self.node())
    }

    /// Returns whether a parcel of this node to node `to` lies in a slot.
    pub fn has_put(&self, to: NodeId) -> bool
        requires { to < self.now.nodes }
    {
        let link = Link {
            from: self.node,
            to,
        };
        has_filled(&self.field, &link)
    }
}
