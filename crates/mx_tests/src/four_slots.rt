//! Two stations whose links have four slots each: their calls, and what gathering them returns.

ghost use Rattle.std.specs.Prelude.{◌≡◌, IfOk, IfSome};
ghost use Rattle.mx_stations.specs.Gathered.{KeepsTable, OfOneTable};

use crate::given::node;
use crate::station_calls::{Call, Calls, GOT, SENT, assert_calls};
use crate::stations::{last, last_two, two};
use Call::{Ask, Enter, PutsOut, TakesIn, Tick};
use mx_nodelaws::Phase;
use mx_ricart::Ricart;
use mx_stations::{GatherFault, Gathered, PutOut, Station, Taken, Ungathered, gather};
use std::alloc::{AllocError, Global};
use std::test::Fail;

fn is_first(gathered: Result<Gathered, Ungathered<Ricart>>) -> bool {
    let Ok(all) = gathered else {
        return false;
    };
    match all.receipts.as_slice() {
        [receipt] => {
            receipt.number == 1
                && receipt.node.get() == 0
                && all.journal.len() == 1
                && all.journal.gapless_to() == 1
        }
        _ => false,
    }
}

fn are_gathered(alloc: Global, both: (Station<Ricart>, Station<Ricart>)) -> Result<bool, AllocError>
    requires { KeepsTable both.0 both.1 }
{
    let stations = Vec::from_array(alloc, [both.0, both.1])?;
    Ok(is_first(gather(alloc, stations)))
}

fn given_back(back: Ungathered<Ricart>, fault: GatherFault) -> Option<Vec<Station<Ricart>>>
    ensures { IfSome result (λ all. all.items ≡ back.stations.items) }
{
    if back.fault == fault {
        Some(back.stations)
    } else {
        None
    }
}

fn refused(
    alloc: Global,
    stations: Vec<Station<Ricart>>,
    fault: GatherFault,
) -> Option<Vec<Station<Ricart>>>
    requires { OfOneTable stations.items }
    ensures { IfSome result (λ back. back.items ≡ stations.items) }
{
    match gather(alloc, stations) {
        Ok(_) => None,
        Err(back) => given_back(back, fault),
    }
}

fn none_comes_back(alloc: Global) -> bool {
    match refused(alloc, Vec::new(alloc), GatherFault::NotAll(node(0))) {
        Some(back) => back.is_empty(),
        None => false,
    }
}

fn one_comes_back(
    alloc: Global,
    one: Station<Ricart>,
) -> Result<Option<Station<Ricart>>, AllocError>
    ensures { IfOk result (λ back. IfSome back (λ station. KeepsTable one station)) }
{
    let stations = Vec::from_array(alloc, [one])?;
    let Some(back) = refused(alloc, stations, GatherFault::NotAll(node(0))) else {
        return Ok(None);
    };
    match last(back) {
        Some(station) => Ok(Some(station)),
        None => Ok(None),
    }
}

fn both_come_back(
    alloc: Global,
    both: (Station<Ricart>, Station<Ricart>),
) -> Result<Option<(Station<Ricart>, Station<Ricart>)>, AllocError>
    requires { KeepsTable both.0 both.1 }
    ensures { IfOk result (λ back. IfSome back (λ pair. KeepsTable pair.0 pair.1)) }
{
    let stations = Vec::from_array(alloc, [both.0, both.1])?;
    let Some(back) = refused(alloc, stations, GatherFault::StillInside(node(0))) else {
        return Ok(None);
    };
    match last_two(back) {
        Some(pair) => Ok(Some(pair)),
        None => Ok(None),
    }
}

fn all_come_back(
    alloc: Global,
    both: (Station<Ricart>, Station<Ricart>),
) -> Result<Option<(Station<Ricart>, Station<Ricart>)>, AllocError>
    requires { KeepsTable both.0 both.1 }
    ensures { IfOk result (λ back. IfSome back (λ pair. KeepsTable pair.0 pair.1)) }
{
    if !none_comes_back(alloc) {
        return Ok(None);
    }
    match one_comes_back(alloc, both.1)? {
        Some(one) => both_come_back(alloc, (both.0, one)),
        None => Ok(None),
    }
}

fn are_as_they_were(zero: &Station<Ricart>, one: &Station<Ricart>) -> bool {
    zero.node().get() == 0
        && zero.phase() == Phase::Inside(1)
        && one.node().get() == 1
        && one.phase() == Phase::Idle
}

fn leaves(station: &mut Station<Ricart>) -> bool
    ensures { KeepsTable station.old station.new }
{
    station.leave().is_ok()
}

fn are_gathered_later(
    alloc: Global,
    mut both: (Station<Ricart>, Station<Ricart>),
) -> Result<bool, AllocError>
    requires { KeepsTable both.0 both.1 }
{
    let is_left = are_as_they_were(&both.0, &both.1) && leaves(&mut both.0);
    Ok(is_left && are_gathered(alloc, both)?)
}

/// Calls of both up to the section of node 0. Each tick lets the request wait again.
const CALLS: Calls = &[
    (0, Ask),
    (0, SENT),
    (0, PutsOut(PutOut::Nothing)),
    (0, Tick),
    (0, SENT),
    (0, Tick),
    (0, SENT),
    (0, Tick),
    (0, SENT),
    (0, Tick),
    (0, PutsOut(PutOut::Full)),
    (1, GOT),
    (1, GOT),
    (1, GOT),
    (1, GOT),
    (1, TakesIn(Taken::Empty)),
    (1, SENT),
    (1, SENT),
    (1, SENT),
    (1, SENT),
    (1, PutsOut(PutOut::Nothing)),
    (0, GOT),
    (0, Enter(1)),
];

#[test]
fn stations_four_slots(rt: HostRuntime) -> Result<(), Fail> {
    let mut both = two(rt.alloc())?;
    assert_calls(&rt, &mut both.0, &mut both.1, CALLS);
    match all_come_back(rt.alloc(), both)? {
        Some(back) => assert!(rt; are_gathered_later(rt.alloc(), back)?),
        None => Err("not refused as it should be")?,
    }
    Ok(())
}
