//! `live`, from its arguments to its output.

use mx_io::Table;
use mx_jobs::Host;
use mx_live::live;
use std::alloc::Global;

const RICART: &str =
    "{\"algorithm\":\"ricart\",\"nodes\":[\"a\",\"b\",\"c\",\"d\",\"e\"],\"registers\":[\"count\"],\"sections\":100}";

const MAEKAWA: &str =
    "{\"algorithm\":\"maekawa\",\"nodes\":[\"a\",\"b\",\"c\",\"d\",\"e\"],\"registers\":[\"count\"],\"sections\":100,\"quorums\":{\"kind\":\"grid\",\"rows\":1,\"cols\":5}}";

const RAYMOND: &str =
    "{\"algorithm\":\"raymond\",\"nodes\":[\"a\",\"b\",\"c\",\"d\",\"e\"],\"registers\":[\"count\"],\"sections\":100,\"edges\":[[\"a\",\"b\"],[\"b\",\"c\"],[\"c\",\"d\"],[\"d\",\"e\"]],\"holder\":\"a\"}";

#[derive(Drop)]
struct Ran {
    status: u8,
    out: Vec<u8>,
    err: Vec<u8>,
}

fn run_words<R: Host>(rt: &R, alloc: Global, words: &[&str], plan: &str) -> Ran {
    let entries = [("p", plan.as_bytes())];
    let mut source = Table { entries: &entries };
    let mut out = Vec::new(alloc);
    let mut err = Vec::new(alloc);
    let status = live(rt, alloc, words, &mut source, &mut out, &mut err);
    Ran { status, out, err }
}

#[test]
fn live_counts_to_one_hundred(rt: HostRuntime) {
    let words = [
        "live",
        "p",
        "--sections",
        "20",
        "--seed",
        "7",
        "--turns",
        "100000000",
    ];
    for plan in [RICART, MAEKAWA, RAYMOND] {
        let ran = run_words(&rt, rt.alloc(), &words, plan);
        assert_eq!(rt; ran.status, 0);
        assert!(rt; ran.err.is_empty());
        assert!(rt; ran.out.as_slice() == "receipts 100\ngapless 100\ncount=100\n".as_bytes());
    }
}

const ALONE: &str =
    "{\"algorithm\":\"maekawa\",\"nodes\":[\"a\"],\"registers\":[\"count\"],\"sections\":1000,\"quorums\":{\"kind\":\"listed\",\"sets\":[[\"a\"]]}}";

fn run_alone<R: Host>(rt: &R, alloc: Global, seed: &str, turns: &str) -> Ran {
    let words = [
        "live",
        "p",
        "--sections",
        "100",
        "--seed",
        seed,
        "--turns",
        turns,
    ];
    run_words(rt, alloc, &words, ALONE)
}

/// Checks the turns of a single node, which sends letters to itself without another thread. The
/// losses and repetitions of its links, by their seed, decide how many turns it takes. They are
/// those of `tests/alone.py`, a model of one station.
#[test]
fn one_node_alone_takes_the_turns_of_its_seed(rt: HostRuntime) {
    for (seed, fewer, turns) in [
        ("0", "569", "570"),
        ("7", "588", "589"),
        ("11", "545", "546"),
        ("18446744073709551615", "586", "587"),
    ] {
        let spent = run_alone(&rt, rt.alloc(), seed, fewer);
        assert_eq!(rt; spent.status, 3);
        assert!(rt; spent.err.as_slice() == "mx: turns spent\n".as_bytes());
        let ran = run_alone(&rt, rt.alloc(), seed, turns);
        assert_eq!(rt; ran.status, 0);
        assert!(rt; ran.out.as_slice() == "receipts 100\ngapless 100\ncount=100\n".as_bytes());
    }
}
