//! Workers at stations: the effect of their gate, the number of their turns, and their counting.

ghost use Rattle.std.specs.Prelude.{◌≡◌, ◌∷◌, IfNone, IfOk, IfSome, OnOk};
ghost use Rattle.mx_stations.specs.Gathered.{KeepsTable, OfOneTable};

use mx_explorer::Weather;
use mx_letters::{Fair, Fate, Fates};
use mx_ricart::{Count, Ricart};
use mx_stamps::NodeId;
use mx_stations::{Field, Gate, Gathered, Script, Station, Worked, gather, work};
use std::alloc::{AllocError, Global};
use std::sync::atomic::{AtomicU64, Ordering};
use std::test::Fail;
use std::thread;
use std::thread::{Threads, yield_now};

/// How often each node looks, at most, whether all have arrived.
const LOOKS: u64 = 100_000_000;

/// A gate that opens once a given number of nodes have arrived, and stays shut once one of them has
/// looked too often. No worker may stop before all have their sections.
#[derive(Drop)]
pub(crate) struct Assembly {
    nodes: u64,
    /// Whether a node lets other threads run between two looks.
    yields: bool,
    arrived: AtomicU64,
    finished: AtomicU64,
    /// How many have looked too often.
    gone: AtomicU64,
    /// How many parcels were delivered before all had arrived.
    early: AtomicU64,
}

impl Assembly {
    /// Creates the gate of nodes in threads.
    pub(crate) fn new(nodes: u64) -> Assembly {
        Assembly::of(nodes, true)
    }

    /// Creates the gate of nodes in one thread. With no other thread to wait for, all looks of a
    /// node take less than a second; if it let others run after each, they would take a minute.
    fn of_one_thread(nodes: u64) -> Assembly {
        Assembly::of(nodes, false)
    }

    fn of(nodes: u64, yields: bool) -> Assembly {
        Assembly {
            nodes,
            yields,
            arrived: AtomicU64::new(0),
            finished: AtomicU64::new(0),
            gone: AtomicU64::new(0),
            early: AtomicU64::new(0),
        }
    }

    pub(crate) fn gone(&self) -> u64 {
        self.gone.load(Ordering::SeqCst)
    }

    fn is_open(&self) -> bool {
        self.arrived.load(Ordering::SeqCst) == self.nodes
    }

    fn rest(&self) {
        if self.yields {
            yield_now();
        }
    }
}

impl Gate for Assembly {
    fn arrive(&self, _node: NodeId) -> bool {
        self.arrived.fetch_add(1, Ordering::SeqCst);
        for _look in 0..LOOKS {
            if self.gone() > 0 {
                return false;
            }
            if self.is_open() {
                return true;
            }
            self.rest();
        }
        self.gone.fetch_add(1, Ordering::SeqCst);
        false
    }

    fn done(&self, node: NodeId) -> bool {
        let bit = 1u64 << node.get();
        let finished = self.finished.fetch_or(bit, Ordering::SeqCst) | bit;
        u64::from(finished.count_ones()) == self.nodes
    }
}

/// A network that loses nothing, and counts each parcel that is delivered before the gate is open.
#[derive(Drop)]
struct Noting<'a>(&'a Assembly);

impl Fates for Noting<'_> {
    fn fate(&mut self) -> Fate {
        if !self.0.is_open() {
            self.0.early.fetch_add(1, Ordering::SeqCst);
        }
        Fate::Pass
    }
}

fn stations_of(alloc: Global, nodes: u8) -> Result<Vec<Station<Ricart>>, Fail>
    ensures { IfOk result (λ all. OfOneTable all.items) }
{
    let shape = Count::of(nodes).ok_or("count")?;
    let all = Field::<Ricart>::stations(alloc, &shape, 0, 1000, 1)?;
    Ok(all)
}

fn count_on(station: Station<Ricart>, gate: &Assembly) -> (Worked, u64) {
    let script = Script {
        register: 0,
        sections: 20,
    };
    let (station, ended) = work(station, script, gate, Noting(gate), 100_000_000);
    (ended, station.value(0).unwrap_or(0))
}

fn counted(ended: &[(Worked, u64)]) -> Option<u64> {
    let mut most = 0;
    for (worked, value) in ended {
        if *worked != Worked::Done {
            return None;
        }
        most = most.max(*value);
    }
    Some(most)
}

/// Returns the greatest value that workers in threads know, and how many parcels were delivered
/// before all of them had arrived.
fn counted_in_threads<R: Threads + Sync>(
    rt: &R,
    stations: Vec<Station<Ricart>>,
) -> Result<(Option<u64>, u64), AllocError> {
    let gate = Assembly::new(5);
    let ended = thread::map_vec(
        rt,
        stations,
        &|station: Station<Ricart>| -> (Worked, u64) { count_on(station, &gate) },
    )?;
    Ok((counted(&ended), gate.early.load(Ordering::SeqCst)))
}

#[test]
fn gate_holds_until_all_arrive(rt: HostRuntime) -> Result<(), Fail> {
    let counted = counted_in_threads(&rt, stations_of(rt.alloc(), 5)?)?;
    assert!(rt; counted == (Some(100), 0));
    Ok(())
}

/// Returns whether the gate stays shut for each of five workers, one after another. So a run that
/// works its stations in turn does not pass `gate_holds_until_all_arrive`.
fn is_shut_for_all(stations: Vec<Station<Ricart>>) -> bool {
    let gate = Assembly::of_one_thread(5);
    for station in stations {
        if count_on(station, &gate) != (Worked::GateShut, 0) {
            return false;
        }
    }
    true
}

#[test]
fn workers_run_in_turn(rt: HostRuntime) -> Result<(), Fail> {
    let is_shut = is_shut_for_all(stations_of(rt.alloc(), 5)?);
    assert!(rt; is_shut);
    Ok(())
}

#[derive(Drop)]
struct Open {
    may_stop: bool,
}

impl Gate for Open {
    fn arrive(&self, _node: NodeId) -> bool {
        true
    }

    fn done(&self, _node: NodeId) -> bool {
        self.may_stop
    }
}

/// A number of nodes, and how many of the first do nothing. Also whether the workers of the others
/// may stop, how many turns they have, and how each of them ends.
#[derive(Clone, Copy)]
struct Ending {
    nodes: u8,
    unworked: u8,
    may_stop: bool,
    turns: u64,
    worked: Worked,
}

const ENDINGS: [Ending; 2] = [
    Ending {
        nodes: 1,
        unworked: 0,
        may_stop: false,
        turns: 10,
        worked: Worked::NotYet(10),
    },
    Ending {
        nodes: 3,
        unworked: 1,
        may_stop: true,
        turns: 10_000,
        worked: Worked::NotYet(10_000),
    },
];

fn ends_so(station: Station<Ricart>, ending: &Ending) -> bool {
    if station.node().get() < ending.unworked {
        return true;
    }
    let script = Script {
        register: 0,
        sections: 1,
    };
    let gate = Open {
        may_stop: ending.may_stop,
    };
    work(station, script, &gate, Fair, ending.turns).1 == ending.worked
}

fn end_so(stations: Vec<Station<Ricart>>, ending: &Ending) -> bool {
    for station in stations {
        if !ends_so(station, ending) {
            return false;
        }
    }
    true
}

#[test]
fn turns_run_out(rt: HostRuntime) -> Result<(), Fail> {
    for (k, ending) in ENDINGS.iter().enumerate() {
        let stations = stations_of(rt.alloc(), ending.nodes)?;
        assert!(rt; end_so(stations, ending), "ending {k}");
    }
    Ok(())
}

fn take_first(stations: &mut Vec<Station<Ricart>>) -> Option<Station<Ricart>>
    ensures some { IfSome result (λ first. stations.old.items ≡ first ∷ stations.new.items) }
    ensures none { IfNone result (stations.new.items ≡ stations.old.items) }
{
    if stations.is_empty() {
        return None;
    }
    Some(stations.remove(0))
}

/// Works for a section that no node permits, since all letters are lost.
fn work_in_vain(station: Station<Ricart>) -> (Station<Ricart>, Worked)
    ensures { KeepsTable station result.0 }
{
    let script = Script {
        register: 0,
        sections: 1,
    };
    let open = Open { may_stop: true };
    work(station, script, &open, Weather::of(1, 256, 0), 1000)
}

/// Works the first of the stations, and puts it to their end. Returns whether it has spent all its
/// turns.
fn work_first(stations: &mut Vec<Station<Ricart>>) -> Result<bool, AllocError>
    requires { OfOneTable stations.old.items }
    ensures { OnOk result (OfOneTable stations.new.items) }
{
    match take_first(stations) {
        Some(first) => {
            let (worked_on, worked) = work_in_vain(first);
            stations.push(worked_on)?;
            Ok(worked == Worked::NotYet(1000))
        }
        None => Ok(false),
    }
}

/// Works each of three stations, one after another. Returns whether each has spent all its turns.
fn work_each(stations: &mut Vec<Station<Ricart>>) -> Result<bool, AllocError>
    requires { OfOneTable stations.old.items }
    ensures { OnOk result (OfOneTable stations.new.items) }
{
    for _station in 0..3 {
        if !work_first(stations)? {
            return Ok(false);
        }
    }
    Ok(true)
}

fn is_empty(all: &Gathered) -> bool {
    all.receipts.is_empty()
        && all.journal.is_empty()
        && all.journal.top() == 0
        && all.journal.base().upto() == 0
}

#[test]
fn lost_letters_leave_no_section(rt: HostRuntime) -> Result<(), Fail> {
    let mut stations = stations_of(rt.alloc(), 3)?;
    assert!(rt; work_each(&mut stations)?);
    match gather(rt.alloc(), stations) {
        Ok(all) => assert!(rt; is_empty(&all)),
        Err(_) => Err("not gathered")?,
    }
    Ok(())
}
