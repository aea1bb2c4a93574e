//! `judge`: the verdict on a trace.

ghost use Rattle.mx_judge.specs.Judged.{IsJudgement};

use crate::judgement::judgement_of;
use crate::trace_reader::{place_word, trace_in};
use mx_cli::{Command, Stop, print};
use mx_explorer::{judge, verdict_status};
use mx_io::Output;
use mx_plan::Plan;
use std::alloc::Global;

/// `judge`. The status is 0 if the trace is sound, and 4 if it is broken.
#[derive(Clone, Copy)]
pub struct Judge {
    /// Whether JSON is printed, in place of lines.
    pub is_json: bool,
}

impl Command for Judge {
    ghost reports = { λ c p text. IsJudgement c.is_json p text };

    fn run<O: Output>(
        &self,
        alloc: Global,
        plan: &Plan,
        text: &[u8],
        out: &mut O,
    ) -> Result<u8, Stop> {
        let trace = match trace_in(alloc, plan, text) {
            Ok(trace) => trace,
            Err(stop) => return Err(stop),
        };
        let (word, verdict) = (place_word(text), judge(trace.entries.as_slice()));
        match judgement_of(alloc, self.is_json, plan, word, &trace, verdict) {
            Ok(text) => print(text.as_bytes(), verdict_status(verdict), out),
            Err(_) => Err(Stop::Memory),
        }
    }
}
