//! Tables of calls of two stations.

use crate::station_calls::{Call, Calls, GOT, SENT, assert_calls};
use crate::stations::two;
use Call::{Ask, Enter, PutsOut, TakesIn, Tick, Turn, Waits};
use mx_letters::Fate;
use mx_stations::{PutOut, Taken, TurnReport};
use std::alloc::Global;
use std::process::Abort;
use std::test::Fail;

const TAKEN: TurnReport = TurnReport {
    taken: 1,
    dropped: 0,
    twice: 0,
    put: 0,
    full: 0,
    ticked: false,
};

const DROPPED: TurnReport = TurnReport {
    dropped: 1,
    ..TAKEN
};

const TWICE: TurnReport = TurnReport {
    twice: 1,
    put: 2,
    ..TAKEN
};

const TAKEN_AND_PUT: TurnReport = TurnReport { put: 1, ..TAKEN };

const PUT_AND_TICKED: TurnReport = TurnReport {
    taken: 0,
    ticked: true,
    ..TAKEN_AND_PUT
};

/// The request of node 0 comes to node 1, with each fate. Node 1 replies each time that it comes.
const FATES: Calls = &[
    (0, Ask),
    (0, SENT),
    (1, Turn(Fate::Drop, DROPPED)),
    (0, Tick),
    (0, SENT),
    (1, Turn(Fate::Pass, TAKEN_AND_PUT)),
    (0, Tick),
    (0, SENT),
    (1, Turn(Fate::Twice, TWICE)),
];

/// Node 0 enters after three turns. It puts its request out, and ticks; node 1 takes it and puts
/// out the reply; node 0 takes that and puts the request out again.
const TURNS: Calls = &[
    (0, Ask),
    (0, Turn(Fate::Pass, PUT_AND_TICKED)),
    (1, Turn(Fate::Pass, TAKEN_AND_PUT)),
    (0, Turn(Fate::Pass, TAKEN_AND_PUT)),
    (0, Enter(1)),
];

/// Node 0 puts four parcels out, so that no slot is empty, and node 1 takes them all.
const FOUR: Calls = &[
    (0, SENT),
    (0, SENT),
    (0, SENT),
    (0, SENT),
    (0, PutsOut(PutOut::Full)),
    (1, GOT),
    (1, GOT),
    (1, GOT),
    (1, GOT),
    (1, TakesIn(Taken::Empty)),
];

/// Node 0 asks, and sends its request again and again. 64 parcels wait, and it puts them all out.
const SIXTY_FOUR: [(u32, Calls); 7] = [
    (1, &[(0, Ask)]),
    (70, &[(0, Tick)]),
    (1, &[(0, Waits(64))]),
    (15, FOUR),
    (4, &[(0, SENT)]),
    (1, &[(0, PutsOut(PutOut::Nothing))]),
    (1, &[(0, Waits(0))]),
];

fn make_calls(rt: &impl Abort, alloc: Global, tables: &[(u32, Calls)]) -> Result<(), Fail> {
    let mut both = two(alloc)?;
    both.0.apart(&mut both.1);
    for (times, calls) in tables {
        for _time in 0..*times {
            assert_calls(rt, &mut both.0, &mut both.1, *calls);
        }
    }
    Ok(())
}

#[test]
fn a_fate_decides_how_often_a_parcel_comes(rt: HostRuntime) -> Result<(), Fail> {
    make_calls(&rt, rt.alloc(), &[(1, FATES)])
}

#[test]
fn turns_tell_what_they_did(rt: HostRuntime) -> Result<(), Fail> {
    make_calls(&rt, rt.alloc(), &[(1, TURNS)])
}

#[test]
fn sixty_four_parcels_wait(rt: HostRuntime) -> Result<(), Fail> {
    make_calls(&rt, rt.alloc(), &SIXTY_FOUR)
}
