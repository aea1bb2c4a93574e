//! The table of all calls, with what each of them is given.

/// A call that may be refused memory.
#[derive(Clone, Copy, PartialEq, Eq)]
pub(crate) enum Call {
    Put,
    PutAll,
    Merge,
    Join,
    Leave,
    Perform,
    Deliver,
    Receive,
    Step,
    Advance,
    Run,
    MakeRoom,
    Merged,
    LeaveAt,
    TakeIn,
    Turn,
    Watch,
    Gather,
    RunJobs,
    RunStations,
    ReadPlan,
    ReadEvents,
    Schedule,
    StartCluster,
    OpenStations,
    NewStations,
    FairLinks,
    AddPlan,
    AddAsks,
    AddMemberLine,
    TellRicart,
    TellMaekawa,
    TellRaymond,
    AddParcelLine,
    AddBase,
    AddRecords,
}

use Call::*;

/// What is done ahead of a call, or what the call is given.
#[derive(Clone, Copy)]
pub(crate) enum Row {
    // no call is made
    New,
    /// The journal has records of these numbers, and settles up to one of them.
    Journal(&'static [u64], u64),
    /// The member settles.
    Settle(u64),
    /// There are new stations, of this many nodes.
    Open(u8),
    /// The watch shows this many sections.
    Watched(u64),
    // the call is made
    Nothing,
    /// The member enters, writes and reads before.
    Inside,
    /// Station 0 enters a section before, and writes.
    Section,
    /// Station 0 sends its record to station 1 before, and then a request.
    Send,
    /// Numbers of records, some of which are new.
    Numbers(&'static [u64]),
    /// None of them is new, so that the call takes no memory.
    Known(&'static [u64]),
    /// Numbers of a journal that settles further than the other one. No record in it is new, so
    /// that the call takes no memory.
    Settled(&'static [u64], u64),
    /// All is new before, and the call is made with one list after another.
    Lists(&'static [&'static [u64]]),
    Nodes(u8),
}

use Row::*;

impl Row {
    pub(crate) fn numbers(self) -> &'static [u64] {
        match self {
            Numbers(numbers) | Known(numbers) | Settled(numbers, _) => numbers,
            _ => &[],
        }
    }

    pub(crate) fn upto(self) -> u64 {
        if let Settled(_, upto) = self { upto } else { 0 }
    }

    pub(crate) fn takes_memory(self) -> bool {
        !matches!(self, Known(_) | Settled(..))
    }
}

/// Each call, with its name, and what it is given, one after another.
pub(crate) const TABLE: [(&str, Call, &[Row]); 48] = [
    ("Journal::put", Put, &SINGLES),
    ("Journal::put_all", PutAll, &LISTS),
    ("merge", Merge, &LISTS),
    ("Journal::join", Join, &LISTS),
    ("merge", Merge, &BASES),
    ("Journal::join", Join, &BASES),
    ("Member::leave", Leave, &[New, Inside]),
    ("perform", Perform, &[New, Inside]),
    ("Member::deliver", Deliver, &PARCELS),
    ("Member::deliver", Deliver, &KNOWN),
    ("Member::receive", Receive, &KNOWN),
    ("Member::receive", Receive, &PARCELS),
    ("Member::deliver", Deliver, &KNOWN),
    ("Member::receive", Receive, &KNOWN),
    // room and a merge are asked of the cluster that the call before them left
    ("Cluster::step", Step, &[ELEVEN]),
    ("Cluster::make_room", MakeRoom, &[Nothing]),
    ("Cluster::merged", Merged, &[Nothing]),
    ("Cluster::advance", Advance, &[ELEVEN]),
    ("Cluster::make_room", MakeRoom, &[Nothing]),
    ("Cluster::merged", Merged, &[Nothing]),
    ("Cluster::run", Run, &[New, Nothing]),
    ("Cluster::make_room", MakeRoom, &[Nothing]),
    ("Cluster::merged", Merged, &[Nothing]),
    ("Station::leave", LeaveAt, &[Open(2), Section]),
    ("Station::take_in", TakeIn, &[Send]),
    ("Station::leave", LeaveAt, &[Open(2), Section]),
    ("Station::turn", Turn, &[Send]),
    ("Station::watch", Watch, &[Open(1), Nothing]),
    ("Station::leave", LeaveAt, &THREE_SECTIONS),
    ("gather", Gather, &[Nothing]),
    ("run", RunJobs, &[Nothing]),
    ("run_stations", RunStations, &[Nothing]),
    ("read_plan", ReadPlan, &[Nothing]),
    ("read_events", ReadEvents, &[Nothing]),
    ("schedule", Schedule, &[Nothing]),
    ("Cluster::start", StartCluster, &[Nothing]),
    (
        "Field::stations",
        OpenStations,
        &[Nodes(1), Nodes(2), Nodes(3)],
    ),
    ("stations", NewStations, &[Nothing]),
    ("fair_links", FairLinks, &[Nothing]),
    ("add_plan", AddPlan, &[Nothing]),
    ("add_asks", AddAsks, &[Nothing]),
    ("add_member_line", AddMemberLine, &[New, Nothing]),
    ("Letter::tell", TellRicart, &[Nothing]),
    ("Letter::tell", TellMaekawa, &[Nothing]),
    ("Letter::tell", TellRaymond, &[Nothing]),
    ("add_parcel_line", AddParcelLine, &[Nothing]),
    ("add_parcel", AddBase, &[Nothing]),
    ("add_parcel", AddRecords, &[Nothing]),
];

/// They start runs and extend them at either end. They also join a run to one of the same length
/// (3) or shorter (6), and to a longer one (2), which takes no memory if it has room.
const SINGLES: [Row; 3] = [
    Lists(&[&[5], &[1], &[9], &[2], &[4], &[3], &[8], &[7], &[6]]),
    Lists(&[&[3], &[4], &[1], &[2]]),
    Lists(&[&[3], &[4], &[5], &[6], &[1], &[2]]),
];

const LISTS: [Row; 21] = [
    // some are known, and the others go into several gaps
    Lists(&[
        &[2, 4, 8],
        &[1, 3, 5, 12, 14],
        &[12, 10],
        &[6, 7, 9, 11, 13],
    ]),
    // several continue a run that is shorter than they are, and then a longer one
    Lists(&[&[1], &[2, 3, 4, 5], &[6, 7, 8, 9]]),
    // they continue a run of the same length, without the first of them and with it
    Lists(&[&[1, 2], &[3, 4, 5], &[6, 7, 8, 9, 10]]),
    // they continue a run, and a number is missing before the next one
    Lists(&[&[1, 9], &[2, 3, 4, 5], &[6, 7]]),
    // a run that is shorter, of the same length, and longer follows them
    Lists(&[
        &[17],
        &[13, 14, 15, 16],
        &[8, 9, 10, 11, 12],
        &[1, 2, 3, 4, 5, 6, 7],
    ]),
    // they fill the gap between two runs, and both times the run before is longer
    Lists(&[&[1, 2, 3, 4, 7, 8, 9], &[5, 6]]),
    // it is shorter at first, and longer then
    Lists(&[&[1, 2, 6, 7, 8, 9], &[3, 4, 5]]),
    // it is shorter both times
    Lists(&[&[1, 6, 7, 8, 9, 10, 11, 12, 13], &[2, 3, 4, 5]]),
    // they are in no order
    Lists(&[&[3, 4, 1, 2], &[9, 7, 5, 6, 8]]),
    // they are settled, or have records; and then some are new
    Journal(&[1, 2, 3], 2),
    Known(&[]),
    Numbers(&[2, 4, 7]),
    Journal(&[1, 2, 3], 2),
    Known(&[1, 2]),
    Numbers(&[2, 4, 7]),
    Journal(&[1, 2, 3, 5], 2),
    Known(&[3, 1, 5]),
    Numbers(&[2, 4, 7]),
    Journal(&[1, 2, 3], 3),
    Known(&[3, 2]),
    Numbers(&[2, 4, 7]),
];

const BASES: [Row; 6] = [
    Journal(&[1, 2, 5], 2),
    Settled(&[1, 2, 3, 4, 5], 4),
    Journal(&[4], 0),
    Settled(&[1, 2, 3], 3),
    Journal(&[1, 2, 7, 8], 1),
    Settled(&[1, 2, 3, 4, 8], 4),
];

const THREE_SECTIONS: [Row; 4] = [Section, Section, Section, Watched(3)];

const PARCELS: [Row; 2] = [Lists(&[&[2, 4, 7], &[9, 3, 4], &[1, 5, 6, 8]]), Settle(5)];

const KNOWN: [Row; 2] = [Known(&[]), Known(&[2, 9, 5])];

const NONE: &[u64] = &[];

/// As many as there are events in `HISTORY`.
const ELEVEN: Row = Lists(&[NONE; 11]);

pub(crate) const PLAN: &str =
    r#"{"algorithm":"maekawa","nodes":["a","b","c"],"registers":["count"],"sections":10,"quorums":{"kind":"listed","sets":[["a","b"],["b","c"],["c","a"]]}}"#;

pub(crate) const EVENTS: &str =
    r#"[["ask","a"],["deliver",0],["write","a","count",7],["want","b","a"],["tick","c"]]"#;

/// A section of node a, and the delivery of its record to node b.
pub(crate) const HISTORY: &str =
    r#"[["ask","a"],["deliver",0],["tick","a"],["deliver",1],["enter","a"],["write","a","count",5],["read","a","count"],["leave","a"],["want","b","a"],["deliver",3],["deliver",4]]"#;
