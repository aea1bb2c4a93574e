//! Schedules (lists of events), drawn at random from a seed.

ghost use Rattle.std.specs.Prelude.{◌≡◌, ◌<◌, ◌≤◌, ◌%◌, IfOk, length, vec_len};
ghost use Rattle.mx_events.specs.Arguments.{AreEventsWithin};
ghost use Rattle.mx_explorer.specs.Drawn.{after_drawn, after_words, arguments, drawn, drawn_list, event_by, word};
ghost use Rattle.mx_explorer.specs.Weather.{generator_of};

use mx_plan::Plan;
use mx_stamps::{MAX_NODES, NodeId};
use mx_trace::Event;
use rand_core::SeedableRng;
use rand_core::utils::NextWord;
use rand_pcg::Pcg32;
use std::alloc::{AllocError, Global};

/// The section number to settle up to is drawn below this bound.
const SETTLED: u8 = 17;

/// Draws a schedule of `steps` events over the nodes and registers of a plan, each by `draw`. The
/// generator of random words is `Pcg32`, made by `seed_from_u64`. Fails only if memory runs out.
pub fn schedule(alloc: Global, seed: u64, steps: u64, plan: &Plan) -> Result<Vec<Event>, AllocError>
    ensures value { IfOk result (λ v. v.items ≡ drawn_list steps (length plan.now.nodes)
        (length plan.now.registers) (generator_of seed)) }
    ensures count { IfOk result (λ v. vec_len v ≡ steps) }
    ensures named { IfOk result (λ v.
        AreEventsWithin (length plan.now.nodes) (length plan.now.registers) v.items) }
{
    let (nodes, registers) = (plan.nodes(), plan.registers());
    let mut words = Pcg32::seed_from_u64(seed);
    let mut events = Vec::new(alloc);
    for _ in 0..steps {
        events.push(draw(&mut words, nodes, registers))?;
    }
    Ok(events)
}

/// Draws the next event of a schedule. It takes a word (32 random bits) for its kind and one for
/// each of its arguments. A `Deliver` has its word in place of the number of a parcel: see `place`.
pub fn draw(words: &mut Pcg32, nodes: u8, registers: u8) -> Event
    requires nodes { (0 < nodes) × (nodes ≤ MAX_NODES) }
    requires registers { 0 < registers }
    ensures value { result ≡ drawn nodes registers words.old }
    ensures next { words.new ≡ after_drawn result words.old }
{
    let number = words.next_word() % 16;
    draw_by(number, words, nodes, registers)
}

/// Draws an event of the kind that `number`, from 0 to 15, stands for. Deliveries are the most
/// frequent.
#[tactic(auto, using(crate::proofs::DrawnEvents::leaves, crate::proofs::DrawnEvents::delivers, crate::proofs::DrawnEvents::cancels))]
fn draw_by(number: u32, words: &mut Pcg32, nodes: u8, registers: u8) -> Event
    requires nodes { (0 < nodes) × (nodes ≤ MAX_NODES) }
    requires registers { 0 < registers }
    ensures value { result ≡ event_by number nodes registers words.old }
    ensures next { words.new ≡ after_words (arguments result) words.old }
{
    match number {
        0 | 1 => Event::Ask(draw_node(words, nodes)),
        2 | 3 => Event::Enter(draw_node(words, nodes)),
        4 => {
            let node = draw_node(words, nodes);
            Event::Read(node, draw_below(words, registers))
        }
        5 => {
            let node = draw_node(words, nodes);
            let register = draw_below(words, registers);
            Event::Write(node, register, u64::from(words.next_word()))
        }
        6 | 7 => Event::Leave(draw_node(words, nodes)),
        8 => Event::Tick(draw_node(words, nodes)),
        9 => {
            let node = draw_node(words, nodes);
            Event::Want(node, draw_node(words, nodes))
        }
        10 => Event::Restart(draw_node(words, nodes)),
        11..=13 => Event::Deliver(u64::from(words.next_word())),
        14 => {
            let node = draw_node(words, nodes);
            Event::Settle(node, u64::from(draw_below(words, SETTLED)))
        }
        _ => Event::Cancel(draw_node(words, nodes)),
    }
}

/// Draws one of the first `nodes` nodes by the next word.
pub fn draw_node(words: &mut Pcg32, nodes: u8) -> NodeId
    requires nodes { (0 < nodes) × (nodes ≤ MAX_NODES) }
    ensures value { result ≡ word words.old % nodes }
    ensures next { words.new ≡ after_words 1 words.old }
{
    NodeId::of(draw_below(words, nodes)).unwrap()
}

/// Draws a number below `count` by the next word.
pub fn draw_below(words: &mut Pcg32, count: u8) -> u8
    requires { 0 < count }
    ensures value { result ≡ word words.old % count }
    ensures next { words.new ≡ after_words 1 words.old }
{
    (words.next_word() % u32::from(count)) as u8
}
