//! Nodes in threads. Five count to one hundred by each algorithm, and after each tenth of their
//! sections settle all that their journals have without gaps: as workers, and by direct calls.

ghost use Rattle.std.specs.Prelude.{IfOk};
ghost use Rattle.mx_stations.specs.Gathered.{KeepsTable, OfOneTable};

use crate::given::node;
use crate::workers::Assembly;
use mx_explorer::Weather;
use mx_letters::Fates;
use mx_maekawa::Maekawa;
use mx_member::ReadFault;
use mx_nodelaws::Exclusion;
use mx_quorums::Quorums;
use mx_raymond::Raymond;
use mx_registers::view;
use mx_ricart::{Count, Ricart};
use mx_stations::{
    Field, Gate, Gathered, Script, Station, TakeFault, TurnReport, gather, work_settling,
};
use mx_trees::Tree;
use std::alloc::{AllocError, Global};
use std::test::Fail;
use std::thread;
use std::thread::{Threads, yield_now};

/// The number of sections of each node.
const SECTIONS: usize = 20;

fn has_all<C: Exclusion>(station: &Station<C>) -> bool {
    station.receipts().len() == SECTIONS
}

fn ask_if_due<C: Exclusion>(station: &mut Station<C>)
    ensures { KeepsTable station.old station.new }
{
    if !has_all(station) {
        let _ = station.ask();
    }
}

/// Asks the next node in the circle for missing records.
fn want_next<C: Exclusion>(station: &mut Station<C>, wanted: &mut u8)
    ensures { KeepsTable station.old station.new }
{
    let next = (*wanted % 21 + 1) % 5;
    *wanted = next;
    if next < station.nodes() {
        station.want(node(next));
    }
}

fn leave<C: Exclusion>(station: &mut Station<C>, value: u64) -> bool
    ensures { KeepsTable station.old station.new }
{
    let _ = station.write(0, value);
    station.leave().is_ok()
}

fn is_due<C: Exclusion>(station: &Station<C>, has_left: bool) -> bool {
    has_left && station.receipts().len() % 10 == 0
}

fn settle<C: Exclusion>(station: &mut Station<C>)
    ensures { KeepsTable station.old station.new }
{
    let upto = station.journal().gapless_to();
    let _ = station.settle(upto);
}

fn end<C: Exclusion>(station: &mut Station<C>, value: u64)
    ensures { KeepsTable station.old station.new }
{
    let has_left = leave(station, value);
    if is_due(station, has_left) {
        settle(station);
    }
}

/// Adds 1 to the register if the station is inside and lacks no record, and leaves.
fn count<C: Exclusion>(station: &mut Station<C>, wanted: &mut u8)
    ensures { KeepsTable station.old station.new }
{
    match station.read(0) {
        Ok(value) => end(station, value.wrapping_add(1)),
        Err(ReadFault::Gap(_)) => want_next(station, wanted),
        Err(_) => {}
    }
}

fn give_way(report: &Result<TurnReport, TakeFault>) {
    if let Ok(TurnReport { taken: 0, .. }) = report {
        yield_now();
    }
}

/// Performs the acts that are due, and takes a turn of the station. An act that is not due is
/// refused.
fn take_turn<C: Exclusion, F: Fates>(station: &mut Station<C>, wanted: &mut u8, fates: &mut F)
    ensures { KeepsTable station.old station.new }
{
    ask_if_due(station);
    let _ = station.enter();
    count(station, wanted);
    let report = station.turn(fates);
    give_way(&report);
}

fn may_stop<C: Exclusion>(station: &Station<C>, gate: &Assembly) -> bool {
    has_all(station) && gate.done(station.node())
}

fn weather_of<C: Exclusion>(station: &Station<C>) -> Weather {
    Weather::of(7 + u64::from(station.node().get()), 16, 16)
}

fn count_by_calls<C: Exclusion>(mut station: Station<C>, gate: &Assembly) -> Station<C>
    ensures { KeepsTable station result }
{
    let me = station.node();
    if !gate.arrive(me) {
        return station;
    }
    let mut weather = weather_of(&station);
    let mut wanted = me.get();
    for _turn in 0..100_000_000 {
        take_turn(&mut station, &mut wanted, &mut weather);
        if may_stop(&station, gate) {
            return station;
        }
    }
    station
}

fn count_as_worker<C: Exclusion>(station: Station<C>, gate: &Assembly) -> Station<C>
    ensures { KeepsTable station result }
{
    let script = Script {
        register: 0,
        sections: SECTIONS as u64,
    };
    let weather = weather_of(&station);
    work_settling(station, script, 10, gate, weather, 100_000_000).0
}

#[derive(Clone, Copy)]
enum Manner {
    Calls,
    Worker,
}

fn do_at<C: Exclusion>(station: Station<C>, gate: &Assembly, manner: Manner) -> Station<C>
    ensures { KeepsTable station result }
{
    match manner {
        Manner::Calls => count_by_calls(station, gate),
        Manner::Worker => count_as_worker(station, gate),
    }
}

fn created<C: Exclusion>(alloc: Global, shape: &C::Shape) -> Result<Vec<Station<C>>, AllocError>
    ensures { IfOk result (λ all. OfOneTable all.items) }
{
    let all = Field::<C>::stations(alloc, shape, 0, 1000, 1)?;
    Ok(all)
}

/// Returns whether this was gathered after such threads. Section 100 is the twentieth of its node,
/// which knows all sections before it, since it read inside. So it has settled them all.
fn is_settled(all: &Gathered) -> bool {
    let journal = &all.journal;
    all.receipts.len() == 100
        && journal.gapless_to() == 100
        && journal.base().upto() == 100
        && journal.len() == 0
        && view(journal, 1).value(0) == Some(100)
}

fn are_gathered<C: Exclusion>(alloc: Global, stations: Vec<Station<C>>) -> bool
    requires { OfOneTable stations.items }
{
    match gather(alloc, stations) {
        Ok(all) => is_settled(&all),
        Err(_) => false,
    }
}

/// Gives each station to a new thread, and gathers them when the threads have ended. Returns whether
/// they have the right sections, and how many of them have looked at the gate too often.
fn worked<C: Exclusion + Send, R: Threads + Sync>(
    rt: &R,
    alloc: Global,
    stations: Vec<Station<C>>,
    manner: Manner,
) -> Result<(bool, u64), AllocError>
where
    C::Msg: Send,
    C::Shape: Send,
    requires { OfOneTable stations.items }
{
    let gate = Assembly::new(5);
    let back = thread::map_vec(
        rt,
        stations,
        &|station: Station<C>| -> Station<C>
            ensures { KeepsTable station result }
        { do_at(station, &gate, manner) },
    )?;
    Ok((are_gathered(alloc, back), gate.gone()))
}

const COUNTING: [Manner; 2] = [Manner::Worker, Manner::Calls];

#[test]
fn settling_nodes_count_by_ricart(rt: HostRuntime) -> Result<(), Fail> {
    let shape = Count::of(5).ok_or("count")?;
    for manner in COUNTING {
        let stations = created::<Ricart>(rt.alloc(), &shape)?;
        assert!(rt; worked(&rt, rt.alloc(), stations, manner)? == (true, 0));
    }
    Ok(())
}

/// Each node has all nodes as arbiters.
#[test]
fn settling_nodes_count_by_maekawa(rt: HostRuntime) -> Result<(), Fail> {
    let shape = Quorums::grid(1, 5)?;
    for manner in COUNTING {
        let stations = created::<Maekawa>(rt.alloc(), &shape)?;
        assert!(rt; worked(&rt, rt.alloc(), stations, manner)? == (true, 0));
    }
    Ok(())
}

/// The nodes are in a line.
#[test]
fn settling_nodes_count_by_raymond(rt: HostRuntime) -> Result<(), Fail> {
    let shape = Tree::of(5, &[(0, 1), (1, 2), (2, 3), (3, 4)], 0)?;
    for manner in COUNTING {
        let stations = created::<Raymond>(rt.alloc(), &shape)?;
        assert!(rt; worked(&rt, rt.alloc(), stations, manner)? == (true, 0));
    }
    Ok(())
}
