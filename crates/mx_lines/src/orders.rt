ghost use Rattle.std.specs.Prelude.{◌≡◌, ◌≤◌};
ghost use Rattle.mx_lines.specs.Orders.{argument_at, number_at, order_at, order_before, order_between, order_by, order_from, order_of, order_of_one, order_with};
ghost use Rattle.mx_lines.specs.Names.{texts_of};

use crate::errors::{Expected, LineError, LineFault, refuse};
use crate::names::KnownNames;
use crate::numbers::number_of;
use crate::sides::{Sides, sides_of};
use crate::verbs::{Verb, verb_of, verb_of_all};
use mx_events::{Argument, ArgumentKind, Event};
use mx_stamps::NodeId;

/// What a line of a script asks for, apart from how often. A parcel is under way if it was neither
/// delivered nor lost.
#[derive(Clone, Copy)]
pub enum Order {
    /// The event happens.
    Happens(Event),
    /// The oldest parcel under way from the first node to the second is delivered.
    Arrives(NodeId, NodeId),
    /// All parcels of the scope that are under way over links that are not cut are delivered, also
    /// those that are sent meanwhile.
    AllArrive(Scope),
    /// The oldest parcel under way from the first node to the second is lost.
    IsLost(NodeId, NodeId),
    /// The parcel of this number is lost, if it is under way.
    ParcelIsLost(u64),
    /// All parcels of the scope that are under way are lost.
    AllAreLost(Scope),
    /// The parcel from the first node to the second that was delivered last is delivered again.
    ArrivesAgain(NodeId, NodeId),
    /// Links are cut, or heal.
    LinksChange(LinkChange),
    /// Each link between the left side and the right side is cut, both ways.
    Parts(Sides),
}

/// Which parcels `all` means in a line.
#[derive(Clone, Copy)]
pub enum Scope {
    All,
    /// Those from the first node to the second.
    Link(NodeId, NodeId),
}

/// Which links are cut, or heal.
#[derive(Clone, Copy)]
pub enum LinkChange {
    /// The link between both nodes is cut, both ways.
    Cut(NodeId, NodeId),
    /// All links of the node are cut, that to itself too.
    CutAll(NodeId),
    /// The link between both nodes heals, both ways.
    HealLink(NodeId, NodeId),
    /// All links of the node heal, that to itself too.
    HealNode(NodeId),
    /// No link is cut any more.
    Heal,
}

pub(crate) fn order_at<N: KnownNames>(
    names: &N,
    place: usize,
    word: &str,
    arguments: &[&str],
) -> Result<Order, LineError>
    requires { place ≤ 2 }
    ensures { result ≡ order_at (N.known names.now) place word.now (texts_of arguments.now) }
{
    if word == "times" {
        return refuse(LineFault::WordCount, place, Expected::Single);
    }
    if word == "partition" {
        return Ok(Order::Parts(sides_of(names, place, arguments)?));
    }
    order_before(names, place, word, arguments)
}

fn order_before<N: KnownNames>(
    names: &N,
    place: usize,
    word: &str,
    arguments: &[&str],
) -> Result<Order, LineError>
    requires { place ≤ 2 }
    ensures { result ≡ order_before (N.known names.now) place word.now (texts_of arguments.now) }
{
    let Some((next, more)) = arguments.split_first() else {
        return order_of(names, place, word, arguments);
    };
    match verb_of_all(word, next, more.len()) {
        Some(verb) => order_with(names, place + 1, verb, more),
        None => order_of(names, place, word, arguments),
    }
}

fn order_of<N: KnownNames>(
    names: &N,
    place: usize,
    word: &str,
    arguments: &[&str],
) -> Result<Order, LineError>
    requires { place ≤ 2 }
    ensures { result ≡ order_of (N.known names.now) place word.now (texts_of arguments.now) }
{
    match verb_of(word, arguments.len()) {
        Some(verb) => order_with(names, place, verb, arguments),
        None => refuse(LineFault::NoWord, place, Expected::Word),
    }
}

fn order_with<N: KnownNames>(
    names: &N,
    place: usize,
    verb: Verb,
    words: &[&str],
) -> Result<Order, LineError>
    requires { place ≤ 3 }
    ensures { result ≡ order_with (N.known names.now) place verb (texts_of words.now) }
{
    let at = place + 1;
    match (verb.arguments(), words) {
        ([], []) => order_from(verb, place, &[]),
        ([first], [word]) => order_from(verb, place, &[argument_at(names, *first, at, word)?]),
        ([first, second], [word, next]) => {
            let first = argument_at(names, *first, at, word)?;
            let second = argument_at(names, *second, at + 1, next)?;
            order_from(verb, place, &[first, second])
        }
        ([first, second, third], [word, next, last]) => {
            let first = argument_at(names, *first, at, word)?;
            let at = at + 1;
            let second = argument_at(names, *second, at, next)?;
            let third = argument_at(names, *third, at + 1, last)?;
            order_from(verb, place, &[first, second, third])
        }
        _ => refuse(LineFault::WordCount, place, Expected::Arguments(verb)),
    }
}

fn order_from(verb: Verb, place: usize, arguments: &[Argument]) -> Result<Order, LineError>
    ensures { result ≡ order_from verb place arguments.now }
{
    match order_by(verb, arguments) {
        Some(order) => Ok(order),
        None => refuse(LineFault::WordCount, place, Expected::Arguments(verb)),
    }
}

fn order_by(verb: Verb, arguments: &[Argument]) -> Option<Order>
    ensures { result ≡ order_by verb arguments.now }
{
    match verb {
        Verb::Event(kind) => Some(Order::Happens(Event::of(kind, arguments)?)),
        Verb::DeliverAll => Some(Order::AllArrive(Scope::All)),
        Verb::LoseAll => Some(Order::AllAreLost(Scope::All)),
        Verb::Heal => Some(Order::LinksChange(LinkChange::Heal)),
        Verb::CutNode | Verb::HealNode | Verb::LoseParcel => match arguments {
            [argument] => order_of_one(verb, argument),
            _ => None,
        },
        _ => match arguments {
            [from, to] => Some(order_between(verb, from.node()?, to.node()?)),
            _ => None,
        },
    }
}

fn order_of_one(verb: Verb, argument: &Argument) -> Option<Order>
    ensures { result ≡ order_of_one verb argument.now }
{
    match verb {
        Verb::LoseParcel => Some(Order::ParcelIsLost(argument.number()?)),
        Verb::HealNode => Some(Order::LinksChange(LinkChange::HealNode(argument.node()?))),
        _ => Some(Order::LinksChange(LinkChange::CutAll(argument.node()?))),
    }
}

fn order_between(verb: Verb, from: NodeId, to: NodeId) -> Order
    ensures { result ≡ order_between verb from to }
{
    match verb {
        Verb::DeliverLink => Order::AllArrive(Scope::Link(from, to)),
        Verb::Lose => Order::IsLost(from, to),
        Verb::LoseLink => Order::AllAreLost(Scope::Link(from, to)),
        Verb::Again => Order::ArrivesAgain(from, to),
        Verb::CutLink => Order::LinksChange(LinkChange::Cut(from, to)),
        Verb::HealLink => Order::LinksChange(LinkChange::HealLink(from, to)),
        _ => Order::Arrives(from, to),
    }
}

fn argument_at<N: KnownNames>(
    names: &N,
    kind: ArgumentKind,
    place: usize,
    word: &str,
) -> Result<Argument, LineError>
    ensures { result ≡ argument_at (N.known names.now) kind place word.now }
{
    match kind {
        ArgumentKind::Node => match names.node_named(word) {
            Some(node) => Ok(Argument::Node(node)),
            None => refuse(LineFault::NoNode, place, Expected::Node),
        },
        ArgumentKind::Register => match names.register_named(word) {
            Some(register) => Ok(Argument::Register(register)),
            None => refuse(LineFault::NoRegister, place, Expected::Register),
        },
        ArgumentKind::Value | ArgumentKind::Section => number_at(place, word, Expected::Number),
        ArgumentKind::Parcel => number_at(place, word, Expected::Parcel),
    }
}

fn number_at(place: usize, word: &str, expected: Expected) -> Result<Argument, LineError>
    ensures { result ≡ number_at place word.now expected }
{
    match number_of(word) {
        Some(number) => Ok(Argument::Number(number)),
        None => refuse(LineFault::NotNumber, place, expected),
    }
}
