//! Calls of two stations whose links have four slots each, in tables.

ghost use Rattle.std.specs.Prelude.{IfSome, ◌<◌};
ghost use Rattle.mx_stations.specs.Gathered.{KeepsTable};

use crate::fates_asked::Asked;
use crate::given::node;
use Call::{Ask, Enter, PutsOut, TakesIn, Tick, Turn, Waits};
use mx_letters::Fate;
use mx_ricart::Ricart;
use mx_stamps::NodeId;
use mx_stations::{PutOut, Station, Taken, TurnReport};
use std::process::Abort;

/// A call of a station, with its result.
#[derive(Clone, Copy)]
pub(crate) enum Call {
    Ask,
    /// The node may enter, and enters the section of this number.
    Enter(u64),
    Tick,
    PutsOut(PutOut),
    /// It takes from the other node.
    TakesIn(Taken),
    /// The fate of each parcel that the turn takes, and its report.
    Turn(Fate, TurnReport),
    Waits(usize),
}

fn other_of(station: &Station<Ricart>) -> Option<NodeId>
    ensures { IfSome result (λ i. i < station.now.nodes) }
{
    let other = if station.node().get() == 0 { 1 } else { 0 };
    if other < station.nodes() {
        Some(node(other))
    } else {
        None
    }
}

fn enters(station: &mut Station<Ricart>, number: u64) -> bool
    ensures { KeepsTable station.old station.new }
{
    let may_enter = station.can_enter();
    let entered = station.enter();
    may_enter && entered == Ok(number)
}

fn turns(station: &mut Station<Ricart>, fate: Fate, report: &TurnReport) -> bool
    ensures { KeepsTable station.old station.new }
{
    let mut fates = Asked::new(fate);
    let done = station.turn(&mut fates);
    done == Ok(*report) && fates.times == report.taken
}

fn takes(station: &mut Station<Ricart>, wanted: Taken) -> bool
    ensures { KeepsTable station.old station.new }
{
    match other_of(station) {
        Some(other) => station.take_in(other) == Ok(wanted),
        None => false,
    }
}

fn ticks(station: &mut Station<Ricart>) -> bool
    ensures { KeepsTable station.old station.new }
{
    station.tick();
    true
}

fn holds(station: &mut Station<Ricart>, call: &Call) -> bool
    ensures { KeepsTable station.old station.new }
{
    match call {
        Ask => station.ask().is_ok(),
        Enter(number) => enters(station, *number),
        Tick => ticks(station),
        PutsOut(wanted) => station.put_out() == *wanted,
        TakesIn(wanted) => takes(station, *wanted),
        Turn(fate, report) => turns(station, *fate, report),
        Waits(count) => station.waits() == *count,
    }
}

fn holds_at(zero: &mut Station<Ricart>, one: &mut Station<Ricart>, node: u8, call: &Call) -> bool
    ensures { KeepsTable zero.old zero.new × KeepsTable one.old one.new }
{
    if node == 0 {
        holds(zero, call)
    } else {
        holds(one, call)
    }
}

/// Calls of two stations, each with its node.
pub(crate) type Calls = &'static [(u8, Call)];

pub(crate) fn assert_calls(
    rt: &impl Abort,
    zero: &mut Station<Ricart>,
    one: &mut Station<Ricart>,
    calls: Calls,
)
    ensures { KeepsTable zero.old zero.new × KeepsTable one.old one.new }
{
    for (i, (node, call)) in calls.iter().enumerate() {
        let is_so = holds_at(zero, one, *node, call);
        assert!(rt; is_so, "call {i}");
    }
}

pub(crate) const SENT: Call = PutsOut(PutOut::Sent);

pub(crate) const GOT: Call = TakesIn(Taken::Got);
