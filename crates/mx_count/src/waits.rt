//! How long nodes waited.

ghost use Rattle.std.specs.Prelude.{◌≡◌, ◌<◌, ◌≤◌, IfSome, length, position};
ghost use Rattle.mx_count.specs.Waits.{ends_wait, is_end, is_refusal, longest_wait, until_end, wait_from};

use mx_network::{Entry, Event, Outcome};
use mx_stamps::NodeId;

pub(crate) fn longest_wait(trace: &[Entry]) -> u64
    ensures { result ≡ longest_wait trace.now }
{
    let mut longest = 0u64;
    for (index, entry) in trace.iter().enumerate() {
        longest = longest.max(wait_from(&entry.outcome, &trace[index + 1..]));
    }
    longest
}

fn wait_from(outcome: &Outcome, rest: &[Entry]) -> u64
    ensures { result ≡ wait_from outcome.now rest.now }
{
    match outcome {
        Outcome::Asked(stamp) => 1 + until_end(stamp.node, rest),
        _ => 0,
    }
}

fn until_end(node: NodeId, rest: &[Entry]) -> u64
    ensures value { result ≡ until_end node rest.now }
    ensures within { result ≤ length rest.now }
{
    match end_in(node, rest) {
        Some(index) => index as u64,
        None => rest.len() as u64,
    }
}

pub(crate) fn end_in(node: NodeId, rest: &[Entry]) -> Option<usize>
    ensures value { result ≡ position (ends_wait node) rest.now }
    ensures within { IfSome result (λ index. index < length rest.now) }
{
    rest.iter().position(|entry| ends_wait(node, entry))
}

fn ends_wait(node: NodeId, entry: &Entry) -> bool
    ensures { result ≡ ends_wait node entry.now }
{
    is_end(node, &entry.event) && !is_refusal(&entry.outcome)
}

fn is_end(node: NodeId, event: &Event) -> bool
    ensures { result ≡ is_end node event.now }
{
    match event {
        Event::Enter(other) | Event::Cancel(other) => other.get() == node.get(),
        _ => false,
    }
}

pub(crate) fn is_refusal(outcome: &Outcome) -> bool
    ensures { result ≡ is_refusal outcome.now }
{
    matches!(outcome, Outcome::Refused(_))
}
