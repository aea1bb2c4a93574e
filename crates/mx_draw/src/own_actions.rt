//! What a node does by itself in a walk.

ghost use Rattle.std.specs.Prelude.{◌≡◌, ◌≤◌, ◌<◌, ◌-◌, ◌%◌, nat_lt};
ghost use Rattle.mx_member.specs.Member.{first_gap};
ghost use Rattle.mx_explorer.specs.Drawn.{after_words, word};
ghost use Rattle.mx_draw.specs.Walk.{acted, actor, idle_by, inside_by, is_ready_at, node_act, other_by, ready_from, waiting_by};

use mx_driver::is_ready;
use mx_explorer::{draw_below, draw_node};
use mx_journal::Journal;
use mx_network::{Cluster, Event};
use mx_nodelaws::{Exclusion, Phase};
use mx_stamps::{MAX_NODES, NodeId};
use rand_core::utils::NextWord;
use rand_pcg::Pcg32;

/// If the chance (0 to 63) of a step is below this, the drawn node acts, whatever its phase.
const ANYBODY: u32 = 4;

/// Returns the event of a node that acts by itself, if there is one. The next word draws a node. If
/// `chance` (0 to 63) is below 4, that node acts, else the first from it on that may enter or is
/// inside; if there is none, the drawn one. `is_calm` says that no parcel is under way.
pub(crate) fn act<C: Exclusion>(
    words: &mut Pcg32,
    nodes: u8,
    registers: u8,
    cluster: &Cluster<C>,
    chance: u32,
    is_calm: bool,
) -> Option<Event>
    requires nodes { (0 < nodes) × (nodes ≤ MAX_NODES) }
    requires registers { 0 < registers }
    ensures event { result ≡ (acted C.core cluster.now.members nodes
        registers is_calm chance words.old).0 }
    ensures next { words.new ≡ (acted C.core cluster.now.members nodes
        registers is_calm chance words.old).1 }
{
    let any = draw_node(words, nodes);
    let node = actor(nodes, cluster, chance, any);
    act_at(words, nodes, registers, cluster, node, is_calm)
}

fn actor<C: Exclusion>(nodes: u8, cluster: &Cluster<C>, chance: u32, any: NodeId) -> NodeId
    requires { (0 < nodes) × (nodes ≤ MAX_NODES) }
    ensures { result ≡ actor C.core cluster.now.members nodes chance any }
{
    if chance < ANYBODY {
        any
    } else {
        ready_or(nodes, cluster, any)
    }
}

fn act_at<C: Exclusion>(
    words: &mut Pcg32,
    nodes: u8,
    registers: u8,
    cluster: &Cluster<C>,
    node: NodeId,
    is_calm: bool,
) -> Option<Event>
    requires nodes { (0 < nodes) × (nodes ≤ MAX_NODES) }
    requires registers { 0 < registers }
    ensures event { result ≡ (node_act C.core cluster.now.members nodes
        registers is_calm node words.old).0 }
    ensures next { words.new ≡ (node_act C.core cluster.now.members nodes
        registers is_calm node words.old).1 }
{
    let Some(member) = cluster.member(node) else {
        return None;
    };
    match member.phase() {
        Phase::Idle => be_idle(words, nodes, node, gapless_to(member.journal())),
        Phase::Waiting => wait(words, node, member.can_enter(), is_calm),
        Phase::Inside(number) => {
            let has_gap = has_gap_below(member.journal(), number);
            be_inside(words, nodes, registers, node, has_gap)
        }
    }
}

fn gapless_to(journal: &Journal) -> u64
    ensures { result ≡ first_gap journal.now - 1 }
{
    journal.gapless_to()
}

fn be_idle(words: &mut Pcg32, nodes: u8, node: NodeId, gapless: u64) -> Option<Event>
    requires { (0 < nodes) × (nodes ≤ MAX_NODES) }
    ensures event { result
        ≡ (idle_by (word words.old % 16) nodes node gapless (after_words 1 words.old)).0 }
    ensures next { words.new
        ≡ (idle_by (word words.old % 16) nodes node gapless (after_words 1 words.old)).1 }
{
    let number = words.next_word() % 16;
    if number < 2 {
        Some(Event::Ask(node))
    } else if number == 2 {
        Some(Event::Want(node, draw_node(words, nodes)))
    } else if number == 3 {
        Some(Event::Settle(node, gapless))
    } else {
        None
    }
}

fn wait(words: &mut Pcg32, node: NodeId, may_enter: bool, is_calm: bool) -> Option<Event>
    ensures event { result ≡ waiting_by (word words.old % 64) node may_enter is_calm }
    ensures next { words.new ≡ after_words 1 words.old }
{
    let chance = words.next_word() % 64;
    if chance == 0 {
        Some(Event::Cancel(node))
    } else if may_enter {
        Some(Event::Enter(node))
    } else if chance < 4 || is_calm {
        Some(Event::Tick(node))
    } else {
        None
    }
}

/// Returns whether the journal lacks a section before this one, so that a read would be refused.
fn has_gap_below(journal: &Journal, section: u64) -> bool
    requires { 0 < section }
    ensures { result ≡ nat_lt (first_gap journal.now) section }
{
    journal.gapless_to() < section - 1
}

/// Returns the event of a node inside. A node that lacks an earlier section wants it from another;
/// else a word says what it does.
fn be_inside(
    words: &mut Pcg32,
    nodes: u8,
    registers: u8,
    node: NodeId,
    has_gap: bool,
) -> Option<Event>
    requires nodes { (0 < nodes) × (nodes ≤ MAX_NODES) }
    requires registers { 0 < registers }
    ensures event { result ≡ (inside_by (word words.old % 16) nodes
        registers node has_gap (after_words 1 words.old)).0 }
    ensures next { words.new ≡ (inside_by (word words.old % 16) nodes
        registers node has_gap (after_words 1 words.old)).1 }
{
    let number = words.next_word() % 16;
    if has_gap {
        Some(Event::Want(node, draw_other(words, nodes, node)))
    } else if number < 5 {
        Some(Event::Read(node, draw_below(words, registers)))
    } else if number < 10 {
        let register = draw_below(words, registers);
        Some(Event::Write(node, register, u64::from(words.next_word() % 1000)))
    } else {
        Some(Event::Leave(node))
    }
}

/// Draws a node other than `node` by the next word. A node alone draws itself.
fn draw_other(words: &mut Pcg32, nodes: u8, node: NodeId) -> NodeId
    requires { (0 < nodes) × (nodes ≤ MAX_NODES) }
    ensures value { result ≡ other_by (word words.old) nodes node }
    ensures next { words.new ≡ after_words 1 words.old }
{
    let others = (nodes - 1).max(1);
    let place = draw_below(words, others);
    node_at((node.get() + 1 + place) % nodes)
}

fn ready_or<C: Exclusion>(nodes: u8, cluster: &Cluster<C>, any: NodeId) -> NodeId
    requires { (0 < nodes) × (nodes ≤ MAX_NODES) }
    ensures { result ≡ ready_from C.core cluster.now.members nodes any 0
        nodes }
{
    for offset in 0..nodes {
        let node = node_at((any.get() + offset) % nodes);
        if is_ready_at(cluster, node) {
            return node;
        }
    }
    any
}

fn node_at(number: u8) -> NodeId
    requires { number < MAX_NODES }
    ensures { result ≡ number }
{
    NodeId::of(number).unwrap()
}

fn is_ready_at<C: Exclusion>(cluster: &Cluster<C>, node: NodeId) -> bool
    ensures { result ≡ is_ready_at C.core cluster.now.members node }
{
    match cluster.member(node) {
        Some(member) => is_ready(member),
        None => false,
    }
}
