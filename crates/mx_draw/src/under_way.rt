//! The parcels under way in a walk.

ghost use Rattle.std.specs.Prelude.{◌≡◌, ◌<◌, ◌++◌, ◌-◌, ◌%◌, IfSome, OnOk, false, if◌then◌else◌, length, min, nat_eq, position, slice_index_or};
ghost use Rattle.std.specs.List.{range_with_len};
ghost use Rattle.mx_draw.specs.Walk.{is_empty, is_on, oldest_beside, oldest_on, without};

use mx_network::Cluster;
use mx_nodelaws::Exclusion;
use mx_stamps::NodeId;
use std::alloc::AllocError;

pub(crate) fn put_new(flying: &mut Vec<u64>, seen: u64, sent: u64) -> Result<(), AllocError>
    ensures { OnOk result
        (flying.new.items ≡ flying.old.items ++ range_with_len seen (sent - seen)) }
{
    for number in seen..sent {
        flying.push(number)?;
    }
    Ok(())
}

pub(crate) fn take(flying: &mut Vec<u64>, number: u64)
    ensures { flying.new.items ≡ without number flying.old.items }
{
    match place_of(number, flying.as_slice()) {
        Some(place) => {
            flying.swap_remove(place);
        }
        None => {}
    }
}

fn place_of(number: u64, flying: &[u64]) -> Option<usize>
    ensures value { result ≡ position (nat_eq number) flying.now }
    ensures within { IfSome result (λ place. place < length flying.now) }
{
    flying.iter().position(|other| is_same(number, *other))
}

fn is_same(number: u64, other: u64) -> bool
    ensures { result ≡ nat_eq number other }
{
    number == other
}

pub(crate) fn oldest_beside<C: Exclusion>(cluster: &Cluster<C>, flying: &[u64], number: u64) -> u64
    ensures { result ≡ oldest_beside cluster.now.sent flying.now number }
{
    match cluster.sent_parcel(number) {
        Some(sent) => oldest_on(cluster, sent.from, sent.to, number, flying),
        None => number,
    }
}

fn oldest_on<C: Exclusion>(
    cluster: &Cluster<C>,
    from: NodeId,
    to: NodeId,
    number: u64,
    flying: &[u64],
) -> u64
    ensures { result ≡ oldest_on cluster.now.sent from to number flying.now }
{
    let mut oldest = number;
    for other in flying {
        oldest = older_of(cluster, from, to, oldest, other);
    }
    oldest
}

fn older_of<C: Exclusion>(
    cluster: &Cluster<C>,
    from: NodeId,
    to: NodeId,
    oldest: u64,
    other: &u64,
) -> u64
    ensures { result
        ≡ (if is_on cluster.now.sent from to other.now then min other.now oldest else oldest) }
{
    if is_on(cluster, from, to, *other) {
        oldest.min(*other)
    } else {
        oldest
    }
}

fn is_on<C: Exclusion>(cluster: &Cluster<C>, from: NodeId, to: NodeId, number: u64) -> bool
    ensures { result ≡ is_on cluster.now.sent from to number }
{
    match cluster.sent_parcel(number) {
        Some(sent) => sent.from == from && sent.to == to,
        None => false,
    }
}

pub(crate) fn is_empty(flying: &[u64]) -> bool
    ensures { result ≡ is_empty flying.now }
{
    flying.len() == 0
}

pub(crate) fn drawn_of(word: u32, flying: &[u64]) -> u64
    requires { is_empty flying.now ≡ false }
    ensures { result ≡ slice_index_or flying.now (word % length flying.now) 0 }
{
    flying[word as usize % flying.len()]
}
