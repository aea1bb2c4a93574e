//! The two sides of a partition.

ghost use Rattle.std.specs.Prelude.{◌≡◌, ◌≤◌, ◌<◌, ◌+◌, ◌^◌, IfSome, length, position};
ghost use Rattle.mx_lines.specs.Names.{texts_of};
ghost use Rattle.mx_lines.specs.Sides.{all_put, crosses, is_bar, nobody, put_named, put_node, put_on, side_of, sides_at, sides_of};

use crate::errors::{Expected, LineError, LineFault, refuse};
use crate::names::KnownNames;
use mx_stamps::NodeId;

const NODES: usize = 21;

/// One of the two sides of a partition.
#[derive(Clone, Copy)]
pub enum Side {
    Left,
    Right,
}

/// On which side of a partition each node is. A node may be on neither.
#[derive(Clone, Copy)]
pub struct Sides {
    /// For each node, its side.
    pub of: [Option<Side>; NODES],
}

impl Sides {
    fn nobody() -> Sides
        ensures { result ≡ nobody }
    {
        Sides { of: [None; NODES] }
    }

    fn side_of(&self, node: NodeId) -> Option<Side>
        ensures { result ≡ side_of self.now node }
    {
        self.of[usize::from(node.get())]
    }

    /// Whether the link from one node to another leads from the left side to the right side.
    pub fn crosses(&self, one: NodeId, other: NodeId) -> bool
        ensures { result ≡ crosses self.now one other }
    {
        matches!(
            (self.side_of(one), self.side_of(other)),
            (Some(Side::Left), Some(Side::Right))
        )
    }

    fn put_on(&self, side: Side, node: NodeId) -> Sides
        ensures { result ≡ put_on side node self.now }
    {
        let mut sides = *self;
        sides.of[usize::from(node.get())] = Some(side);
        sides
    }
}

/// Reads the words after `partition`, whose place in the line is `place`.
pub(crate) fn sides_of<N: KnownNames>(
    names: &N,
    place: usize,
    words: &[&str],
) -> Result<Sides, LineError>
    requires { place ≤ 2 }
    ensures { result ≡ sides_of (N.known names.now) place (texts_of words.now) }
{
    match bar_in(words) {
        Some(bar) => sides_at(names, place, words, bar),
        None => refuse(LineFault::WordCount, place, Expected::Sides),
    }
}

fn bar_in(words: &[&str]) -> Option<usize>
    ensures value { result ≡ position (λ word. is_bar word.now) words.now }
    ensures there { IfSome result (λ bar. bar < length words.now) }
{
    words.iter().position(|word| is_bar(word))
}

fn is_bar(word: &str) -> bool
    ensures { result ≡ is_bar word.now }
{
    word == "|"
}

fn sides_at<N: KnownNames>(
    names: &N,
    place: usize,
    words: &[&str],
    bar: usize,
) -> Result<Sides, LineError>
    requires at { place ≤ 2 }
    requires there { bar < length words.now }
    ensures { result ≡ sides_at (N.known names.now) place (texts_of words.now) bar }
{
    if bar == 0 || words.len() < bar + 2 {
        return refuse(LineFault::WordCount, place, Expected::Sides);
    }
    let left = all_put(names, Side::Left, place + 1, &words[..bar], Sides::nobody())?;
    all_put(names, Side::Right, place + bar + 2, &words[bar + 1..], left)
}

/// Puts the nodes that the words name on a side. `place` is that of the first word.
fn all_put<N: KnownNames>(
    names: &N,
    side: Side,
    place: usize,
    words: &[&str],
    mut sides: Sides,
) -> Result<Sides, LineError>
    requires { place + length words.now < 2 ^ 64 }
    ensures { result ≡ all_put (N.known names.now) side place (texts_of words.now) sides }
{
    for (index, word) in words.iter().enumerate() {
        sides = put_named(names, side, place + index, word, &sides)?;
    }
    Ok(sides)
}

fn put_named<N: KnownNames>(
    names: &N,
    side: Side,
    place: usize,
    word: &str,
    sides: &Sides,
) -> Result<Sides, LineError>
    ensures { result ≡ put_named (N.known names.now) side place word.now sides.now }
{
    match names.node_named(word) {
        Some(node) => put_node(side, place, sides, node),
        None => refuse(LineFault::NoNode, place, Expected::Node),
    }
}

fn put_node(side: Side, place: usize, sides: &Sides, node: NodeId) -> Result<Sides, LineError>
    ensures { result ≡ put_node side place sides.now node }
{
    match (side, sides.side_of(node)) {
        (Side::Left, Some(Side::Right)) | (Side::Right, Some(Side::Left)) => {
            refuse(LineFault::OnBothSides, place, Expected::OtherNode)
        }
        _ => Ok(sides.put_on(side, node)),
    }
}
