//! Weather and schedules, compared with words that the tests draw themselves.

ghost use Rattle.std.specs.Prelude.{◌<◌};

use crate::given::node;
use mx_explorer::{Weather, schedule};
use mx_letters::{Fate, Fates};
use mx_network::Event;
use mx_plan::{Plan, read_plan};
use mx_stamps::NodeId;
use rand_core::{Rng, SeedableRng};
use rand_pcg::Pcg32;
use std::alloc::{AllocError, Global};
use std::test::Fail;

fn is_of_its_seed(seed: u64) -> bool {
    let mut weather = Weather::of(seed, 16, 16);
    let mut words = Pcg32::seed_from_u64(seed);
    for _ in 0..1000 {
        let wanted = match words.next_u32() % 256 {
            0..=15 => Fate::Drop,
            16..=31 => Fate::Twice,
            _ => Fate::Pass,
        };
        if weather.fate() != wanted {
            return false;
        }
    }
    true
}

#[test]
fn weather_is_that_of_its_seed(rt: HostRuntime) {
    for seed in 0..10 {
        assert!(rt; is_of_its_seed(seed), "seed {seed}");
    }
}

fn is_always(weather: &mut Weather, fate: Fate) -> bool {
    for _ in 0..1000 {
        if weather.fate() != fate {
            return false;
        }
    }
    true
}

#[test]
fn weather_of_one_kind(rt: HostRuntime) {
    assert!(rt; is_always(&mut Weather::of(1, 0, 0), Fate::Pass));
    assert!(rt; is_always(&mut Weather::of(1, 256, 0), Fate::Drop));
    assert!(rt; is_always(&mut Weather::of(1, 0, 256), Fate::Twice));
}

const PLAN: &str =
    "{\"algorithm\":\"ricart\",\"nodes\":[\"a\",\"b\",\"c\",\"d\",\"e\"],\"registers\":[\"x\",\"y\",\"z\"],\"sections\":100}";

fn below(words: &mut Pcg32, count: u32) -> u32
    requires { 0 < count }
    ensures { result < count }
{
    words.next_u32() % count
}

fn drawn_node(words: &mut Pcg32) -> NodeId {
    node(below(words, 5) as u8)
}

fn drawn_register(words: &mut Pcg32) -> u8 {
    below(words, 3) as u8
}

fn drawn_pair(words: &mut Pcg32, kind: u32) -> Event {
    let first = drawn_node(words);
    match kind {
        4 => Event::Read(first, drawn_register(words)),
        9 => Event::Want(first, drawn_node(words)),
        _ => Event::Settle(first, u64::from(below(words, 17))),
    }
}

fn drawn_write(words: &mut Pcg32) -> Event {
    let first = drawn_node(words);
    let register = drawn_register(words);
    Event::Write(first, register, u64::from(words.next_u32()))
}

fn drawn_event(words: &mut Pcg32) -> Event {
    match below(words, 16) {
        0 | 1 => Event::Ask(drawn_node(words)),
        2 | 3 => Event::Enter(drawn_node(words)),
        5 => drawn_write(words),
        6 | 7 => Event::Leave(drawn_node(words)),
        8 => Event::Tick(drawn_node(words)),
        10 => Event::Restart(drawn_node(words)),
        11 | 12 | 13 => Event::Deliver(u64::from(words.next_u32())),
        15 => Event::Cancel(drawn_node(words)),
        kind => drawn_pair(words, kind),
    }
}

fn are_of_seed(events: &[Event], seed: u64) -> bool {
    let mut words = Pcg32::seed_from_u64(seed);
    for event in events {
        if *event != drawn_event(&mut words) {
            return false;
        }
    }
    events.len() == 1000
}

fn is_drawn(alloc: Global, seed: u64, plan: &Plan) -> Result<bool, AllocError> {
    let events = schedule(alloc, seed, 1000, plan)?;
    Ok(are_of_seed(events.as_slice(), seed))
}

fn are_drawn(alloc: Global, plan: &Plan) -> Result<bool, AllocError> {
    for seed in 0..10 {
        if !is_drawn(alloc, seed, plan)? {
            return Ok(false);
        }
    }
    Ok(true)
}

#[test]
fn schedule_is_that_of_its_seed(rt: HostRuntime) -> Result<(), Fail> {
    match read_plan(rt.alloc(), PLAN.as_bytes()) {
        Ok(plan) => assert!(rt; are_drawn(rt.alloc(), &plan)?),
        Err(_) => Err("no plan")?,
    }
    Ok(())
}
