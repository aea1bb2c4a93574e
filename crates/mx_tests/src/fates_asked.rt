//! How often a turn draws a fate: once for each parcel that it takes.

use mx_letters::{Fate, Fates};
use mx_ricart::{Count, Ricart};
use mx_stations::{Field, PutOut, Station};
use std::test::Fail;

/// A network with one fate for all parcels, which counts how often a fate is drawn.
#[derive(Drop)]
pub(crate) struct Asked {
    fate: Fate,
    pub(crate) times: u32,
}

impl Asked {
    pub(crate) fn new(fate: Fate) -> Asked {
        Asked { fate, times: 0 }
    }
}

impl Fates for Asked {
    fn fate(&mut self) -> Fate {
        self.times = self.times.saturating_add(1);
        self.fate
    }
}

/// Returns whether a station of three sends its request to both others, this many times: it asks,
/// and later sends outstanding letters again.
fn sends(station: &mut Station<Ricart>, times: u32) -> bool {
    for _time in 0..times {
        if station.ask().is_err() {
            station.tick();
        }
        if station.put_out() != PutOut::Sent || station.put_out() != PutOut::Sent {
            return false;
        }
    }
    true
}

fn times(station: &mut Station<Ricart>, fate: Fate) -> [u32; 3] {
    let mut fates = Asked::new(fate);
    let mut times = [0; 3];
    for turn in 0..3 {
        let _ = station.turn(&mut fates);
        times[turn] = fates.times;
    }
    times
}

/// Two nodes have sent three parcels and two. In a turn a node takes one parcel from each node that
/// has one.
#[test]
fn each_parcel_has_one_fate(rt: HostRuntime) -> Result<(), Fail> {
    let shape = Count::of(3).ok_or("count")?;
    for fate in [Fate::Pass, Fate::Drop, Fate::Twice] {
        let mut all = Field::<Ricart>::stations(rt.alloc(), &shape, 0, 1000, 1)?;
        match all.as_mut_slice() {
            [zero, one, two] => {
                assert!(rt; sends(one, 3) && sends(two, 2) && times(zero, fate) == [2, 4, 5]);
            }
            _ => Err("not three stations")?,
        }
    }
    Ok(())
}
