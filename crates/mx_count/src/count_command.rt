//! `count`: the counts of a run of events.

ghost use Rattle.mx_format.specs.Parts.{word_by};
ghost use Rattle.mx_cli.specs.Printing.{IsWhole, Prints, sight};
ghost use Rattle.mx_count.specs.Counted.{counts_text};
ghost use Rattle.mx_count.specs.Printed.{IsCount, count_texts};

use crate::counted_run::{EventSource, Options, add_counts};
use mx_cli::{Command, Stop, print};
use mx_driver::{Sink, drive};
use mx_format::Letter;
use mx_io::Output;
use mx_network::Cluster;
use mx_nodelaws::Exclusion;
use mx_plan::{Plan, read_events};
use std::alloc::{AllocError, Global};

/// `count`: counts a run of the events that the text lists.
#[derive(Clone, Copy)]
pub struct Count {
    pub is_json: bool,
}

impl Command for Count {
    ghost reports = { λ c. IsCount c.is_json };

    fn run<O: Output>(
        &self,
        alloc: Global,
        plan: &Plan,
        text: &[u8],
        out: &mut O,
    ) -> Result<u8, Stop> {
        match read_events(alloc, text, plan) {
            Ok(events) => {
                let mut counter = Counter {
                    events: events.len() as u64,
                    is_json: self.is_json,
                };
                drive(alloc, plan, events.as_slice(), &mut counter, out)
            }
            Err(fault) => Err(Stop::from(fault)),
        }
    }
}

/// A sink that appends nothing but the counts, at the end of a run of this many events.
#[derive(Clone, Copy)]
struct Counter {
    events: u64,
    is_json: bool,
}

impl<C: Exclusion> Sink<Cluster<C>> for Counter
where
    C::Msg: Letter,
{
    ghost texts = { λ c p. count_texts (word_by C.Msg.parts) C.Msg.words c.is_json p c.events };

    fn event(
        &mut self,
        _alloc: Global,
        _plan: &Plan,
        _index: u64,
        _before: u64,
        _cluster: &Cluster<C>,
        _text: &mut String,
    ) -> Result<(), AllocError> {
        Ok(())
    }

    fn end(
        &mut self,
        alloc: Global,
        plan: &Plan,
        cluster: &Cluster<C>,
        text: &mut String,
    ) -> Result<u8, AllocError> {
        let options = Options {
            source: EventSource::Given,
            is_json: self.is_json,
            has_counts: true,
        };
        add_counts(alloc, plan, cluster, self.events, options, text)
    }
}

/// Prints the counts of a cluster after this many events, and returns the status.
pub fn print_counts<C: Exclusion, O: Output>(
    alloc: Global,
    plan: &Plan,
    cluster: &Cluster<C>,
    events: u64,
    options: Options,
    out: &mut O,
) -> Result<u8, Stop>
where
    C::Msg: Letter,
    ensures prints { Prints (IsWhole (counts_text (word_by C.Msg.parts) C.Msg.words options plan.now
        events cluster.now) 0) (sight O.Output out.old) (sight O.Output out.new) result }
{
    let mut text = String::new(alloc);
    match add_counts(alloc, plan, cluster, events, options, &mut text) {
        Ok(status) => print(text.as_bytes(), status, out),
        Err(_) => Err(Stop::Memory),
    }
}
