//! Stations leave, take parcels in, take turns, are watched and gathered.

ghost use Rattle.std.specs.Prelude.{◌≡◌, length};

use crate::harness::{Outcome, done, ended};
use crate::table::{Call, Row};
use anyhow::Result;
use mx_letters::{Fate, Fates};
use mx_member::CloseFault;
use mx_nodelaws::Phase;
use mx_ricart::{Count, Ricart};
use mx_stamps::NodeId;
use mx_stations::{
    Field, GatherFault, Gathered, PutOut, Station, TakeFault, Taken, Ungathered, Watch, gather,
};
use std::alloc::{AllocError, Global};
use std::mem::replace;

#[derive(Drop)]
pub(crate) struct Stations {
    pub(crate) all: Vec<Station<Ricart>>,
    watch: Option<Watch<Ricart>>,
}

pub(crate) fn state_of_station(alloc: Global, station: &Station<Ricart>) -> Result<String> {
    let is_idle = station.phase() == Phase::Idle;
    let receipts = station.receipts().len();
    let records = station.journal().len();
    Ok(format!(in alloc; "{is_idle} {receipts} {records} {}\n", station.waits())?)
}

pub(crate) fn open(alloc: Global, nodes: u8) -> Result<Stations, AllocError> {
    let mut all = Vec::new(alloc);
    if let Some(shape) = Count::of(nodes) {
        all = Field::<Ricart>::stations(alloc, &shape, 0, 10, 1)?;
    }
    Ok(Stations { all, watch: None })
}

/// Takes a parcel in from a node, if it is one.
fn take_from(station: &mut Station<Ricart>, from: NodeId) -> Result<Taken, TakeFault> {
    if from.get() >= station.nodes() {
        return Ok(Taken::Empty);
    }
    station.take_in(from)
}

fn pass(from: &mut Station<Ricart>, to: &mut Station<Ricart>) -> bool {
    from.put_out() == PutOut::Sent && take_from(to, from.node()) == Ok(Taken::Got)
}

fn enter(station: &mut Station<Ricart>) -> bool {
    station.enter().is_ok() && station.write(0, 5).is_ok()
}

/// Sends node 1 the records that it wants, and then a request.
fn send(zero: &mut Station<Ricart>, one: &mut Station<Ricart>) -> bool {
    if one.nodes() > 0 {
        one.want(NodeId::default());
    }
    let has_put = pass(one, zero) && zero.put_out() == PutOut::Sent;
    has_put && zero.ask().is_ok() && zero.put_out() == PutOut::Sent
}

impl Stations {
    /// Does what a row says ahead of a call, and returns whether it succeeded.
    pub(crate) fn set_up(&mut self, row: Row) -> bool {
        match (row, self.all.as_mut_slice()) {
            (Row::Section, [zero]) => zero.ask().is_ok() && enter(zero),
            (Row::Section, [zero, one]) => {
                zero.ask().is_ok() && pass(zero, one) && pass(one, zero) && enter(zero)
            }
            (Row::Send, [zero, one]) => send(zero, one),
            _ => false,
        }
    }

    pub(crate) fn has_watched(&self, sections: u64) -> bool {
        match &self.watch {
            Some(watch) => watch.sections() == sections,
            None => false,
        }
    }

    /// Gathers a single station.
    fn gather(&mut self, alloc: Global) -> Outcome {
        let stations = replace(&mut self.all, Vec::new(alloc));
        if stations.len() != 1 {
            return Outcome::Wrong;
        }
        match gather_one(alloc, stations) {
            Ok(_) => Outcome::Done,
            Err(back) => {
                let fault = back.fault;
                self.all = back.stations;
                ended(Some(fault == GatherFault::Memory))
            }
        }
    }

    pub(crate) fn make(&mut self, alloc: Global, call: Call, again: bool) -> Outcome {
        match (call, self.all.as_mut_slice()) {
            (Call::Gather, _) => return self.gather(alloc),
            (Call::Watch, [station]) => self.watch = station.watch().ok(),
            (Call::LeaveAt, [zero, ..]) => return leave(zero),
            (Call::TakeIn, [_, one]) => return take_in(one),
            (Call::Turn, [_, one]) => return turn(one, if again { 2 } else { 1 }),
            _ => {}
        }
        done(self.has_watched(0))
    }
}

fn leave(station: &mut Station<Ricart>) -> Outcome {
    match station.leave() {
        Ok(_) => Outcome::Done,
        Err(fault) => ended(Some(fault == CloseFault::Memory)),
    }
}

fn take_in(station: &mut Station<Ricart>) -> Outcome {
    match take_from(station, NodeId::default()) {
        Ok(taken) => done(taken == Taken::Got),
        Err(TakeFault::Memory) => Outcome::Refused,
    }
}

/// A network that loses nothing, and counts how often a fate is drawn.
#[derive(Drop)]
struct Asked(u32);

impl Fates for Asked {
    fn fate(&mut self) -> Fate {
        self.0 = self.0.saturating_add(1);
        Fate::Pass
    }
}

/// Takes a turn, which draws one fate: the record in hand needs no second one.
fn turn(station: &mut Station<Ricart>, parcels: u32) -> Outcome {
    let mut fates = Asked(0);
    match station.turn(&mut fates) {
        _ if fates.0 != 1 => Outcome::Wrong,
        Ok(report) => done(report.taken == parcels && !report.ticked),
        Err(TakeFault::Memory) => Outcome::Refused,
    }
}

fn gather_one(alloc: Global, stations: Vec<Station<Ricart>>) -> Result<Gathered, Ungathered<Ricart>>
    requires { length stations.items ≡ 1 }
{
    gather(alloc, stations)
}
