//! Outputs that refuse.

use mx_dispatch::command;
use mx_io::{Output, OutputFault, Table};
use mx_jobs::Host;
use mx_live::live;
use std::alloc::Global;

pub(crate) const RICART: &str =
    "{\"algorithm\":\"ricart\",\"nodes\":[\"a\",\"b\",\"c\"],\"registers\":[\"count\"],\"sections\":10}";

/// An output that takes `room` texts, and refuses the next, or else the flush, with this fault.
#[derive(Drop)]
struct Narrow {
    taken: u64,
    room: u64,
    answer: OutputFault,
}

impl Output for Narrow {
    fn put(&mut self, _text: &[u8]) -> Result<(), OutputFault> {
        if self.taken == self.room {
            return Err(self.answer);
        }
        self.taken = self.taken.saturating_add(1);
        Ok(())
    }

    fn flush(&mut self) -> Result<(), OutputFault> {
        Err(self.answer)
    }
}

fn run_words<R: Host>(
    rt: &R,
    alloc: Global,
    words: &[&str],
    out: &mut Narrow,
    err: &mut Vec<u8>,
) -> u8 {
    let events = "[[\"ask\",\"a\"],[\"deliver\",0],[\"deliver\",1]]";
    let entries = [("p", RICART.as_bytes()), ("e", events.as_bytes())];
    let mut source = Table { entries: &entries };
    match words.first() {
        Some(word) if *word == "live" => live(rt, alloc, words, &mut source, out, err),
        _ => command(alloc, words, &mut source, out, err),
    }
}

#[test]
fn refused_texts_end_the_run(rt: HostRuntime) {
    let lines: [&[&str]; 5] = [
        &["replay", "p", "e"],
        &["check", "p"],
        &["explore", "p", "--seed", "1", "--steps", "9"],
        &[
            "live",
            "p",
            "--sections",
            "1",
            "--seed",
            "1",
            "--turns",
            "99999999",
        ],
        &["--version"],
    ];
    for words in &lines {
        for room in [0, 1, 2, 99] {
            for (answer, status, line) in [
                (OutputFault::Refused, 1, ""),
                (OutputFault::Memory, 5, "mx: out of memory\n"),
            ] {
                let mut out = Narrow {
                    taken: 0,
                    room,
                    answer,
                };
                let mut err = Vec::new(rt.alloc());
                let ended = run_words(&rt, rt.alloc(), words, &mut out, &mut err);
                assert_eq!(rt; ended, status);
                assert!(rt; err.as_slice() == line.as_bytes());
            }
        }
    }
}
