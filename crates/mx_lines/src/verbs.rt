ghost use Rattle.std.specs.Prelude.{◌≡◌, ◌≤◌, length};
ghost use Rattle.mx_lines.specs.Verbs.{by_count, kinds_of, verb_of, verb_of_all, verb_of_cut, verb_of_heal, verb_of_lose};

use mx_events::{ArgumentKind, EventKind};

/// What the first word of a line asks for, together with `all` if that is the second word.
#[derive(Clone, Copy)]
pub enum Verb {
    /// The word of an event, such as `ask`, or `deliver` with the number of a parcel.
    Event(EventKind),
    /// `deliver`, with two nodes.
    Deliver,
    /// `deliver all`.
    DeliverAll,
    /// `deliver all`, with two nodes.
    DeliverLink,
    /// `lose`, with two nodes.
    Lose,
    /// `lose`, with the number of a parcel.
    LoseParcel,
    /// `lose all`.
    LoseAll,
    /// `lose all`, with two nodes.
    LoseLink,
    /// `again`, with two nodes.
    Again,
    /// `cut`, with two nodes.
    CutLink,
    /// `cut`, with one node.
    CutNode,
    /// `heal`, with two nodes.
    HealLink,
    /// `heal`, with one node.
    HealNode,
    /// `heal` alone.
    Heal,
}

pub(crate) fn verb_of(word: &str, count: usize) -> Option<Verb>
    ensures { result ≡ verb_of word.now count }
{
    if word == "lose" {
        return Some(verb_of_lose(count));
    }
    if word == "again" {
        return Some(Verb::Again);
    }
    if word == "cut" {
        return Some(verb_of_cut(count));
    }
    if word == "heal" {
        return Some(verb_of_heal(count));
    }
    if word == "deliver" && count == 2 {
        return Some(Verb::Deliver);
    }
    match EventKind::of_word(word) {
        Some(kind) => Some(Verb::Event(kind)),
        None => None,
    }
}

fn verb_of_lose(count: usize) -> Verb
    ensures { result ≡ verb_of_lose count }
{
    if count == 1 {
        Verb::LoseParcel
    } else {
        Verb::Lose
    }
}

fn verb_of_heal(count: usize) -> Verb
    ensures { result ≡ verb_of_heal count }
{
    match count {
        0 => Verb::Heal,
        2 => Verb::HealLink,
        _ => Verb::HealNode,
    }
}

fn verb_of_cut(count: usize) -> Verb
    ensures { result ≡ verb_of_cut count }
{
    if count == 2 {
        Verb::CutLink
    } else {
        Verb::CutNode
    }
}

pub(crate) fn verb_of_all(word: &str, next: &str, count: usize) -> Option<Verb>
    ensures { result ≡ verb_of_all word.now next.now count }
{
    if next != "all" {
        return None;
    }
    if word == "deliver" {
        return by_count(Verb::DeliverAll, Verb::DeliverLink, count);
    }
    if word == "lose" {
        return by_count(Verb::LoseAll, Verb::LoseLink, count);
    }
    None
}

fn by_count(of_all: Verb, of_link: Verb, count: usize) -> Option<Verb>
    ensures { result ≡ by_count of_all of_link count }
{
    match count {
        0 => Some(of_all),
        2 => Some(of_link),
        _ => None,
    }
}

impl Verb {
    pub(crate) fn arguments(self) -> &'static [ArgumentKind]
        ensures value { result.now ≡ kinds_of self }
        ensures few { length result.now ≤ 3 }
    {
        match self {
            Verb::Event(kind) => kind.arguments(),
            Verb::CutNode | Verb::HealNode => &[ArgumentKind::Node],
            Verb::LoseParcel => &[ArgumentKind::Parcel],
            Verb::DeliverAll | Verb::LoseAll | Verb::Heal => &[],
            _ => &[ArgumentKind::Node, ArgumentKind::Node],
        }
    }
}
