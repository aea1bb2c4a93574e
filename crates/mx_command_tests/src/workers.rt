//! Workers at the gate of a run.

use mx_jobs::{Host, StartGate};
use mx_letters::Fair;
use mx_ricart::{Count, Ricart};
use mx_stamps::NodeId;
use mx_stations::{Field, Script, Station, Worked, work};
use std::alloc::Global;
use std::test::Fail;
use std::thread;

fn stations_of(alloc: Global, nodes: u8) -> Result<Vec<Station<Ricart>>, Fail> {
    let shape = Count::of(nodes).ok_or("count")?;
    Ok(Field::<Ricart>::stations(alloc, &shape, 0, 1000, 1)?)
}

fn work_at<R: Host>(station: Station<Ricart>, gate: &StartGate<R>) -> Worked {
    let script = Script {
        register: 0,
        sections: 0,
    };
    let (_station, worked) = work(station, script, gate, Fair, 100_000_000);
    worked
}

#[test]
fn gate_of_a_live_run_holds(rt: HostRuntime) -> Result<(), Fail> {
    let gate = StartGate::new(rt, 5, 100_000_000);
    let all = stations_of(rt.alloc(), 5)?;
    let ended = thread::map_vec(
        &rt,
        all,
        &|station: Station<Ricart>| -> Worked { work_at(station, &gate) },
    )?;
    assert_eq!(rt; ended.len(), 5);
    for worked in &ended {
        assert_eq!(rt; *worked, Worked::Done);
    }
    // for workers in one thread the gate stays shut, so a run that works its stations in turn does
    // not pass the test above; up to a millisecond passes between two looks, so they are fewer here
    let shut = StartGate::new(rt, 5, 1000);
    for station in stations_of(rt.alloc(), 5)? {
        assert_eq!(rt; work_at(station, &shut), Worked::GateShut);
    }
    Ok(())
}
