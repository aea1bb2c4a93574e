//! Which parcels, and which refusals, are counted together.

ghost use Rattle.std.specs.Prelude.{◌≡◌};
ghost use Rattle.mx_format.specs.Parts.{word_by};
ghost use Rattle.mx_count.specs.Kinds.{is_between, is_gossip, is_in, is_kind, is_own, is_refused_for};

use mx_format::Letter;
use mx_member::{Parcel, SentParcel};
use mx_network::{Cause, Entry, Outcome};
use mx_stamps::NodeId;

/// Parcels that are counted together.
#[derive(Clone, Copy)]
pub(crate) enum Group<'a> {
    /// The letters from one node to another.
    Letters,
    /// Those of them with this word.
    Kind(&'a str),
    /// The letters from a node to itself.
    Own,
    Gossip,
    Want,
    Base,
    Records,
    SentBy(NodeId),
}

pub(crate) fn is_in<M: Letter>(group: &Group<'_>, sent: &SentParcel<'_, M>) -> bool
    ensures { result ≡ is_in (word_by M.parts) group.now
        (sent.now.from, sent.now.to, sent.now.parcel.now) }
{
    match group {
        Group::Letters => is_between(sent),
        Group::Kind(word) => is_kind(*word, sent),
        Group::Own => is_own(sent),
        Group::Gossip => is_gossip(sent.parcel),
        Group::Want => matches!(sent.parcel, Parcel::Want(_)),
        Group::Base => matches!(sent.parcel, Parcel::Base(_)),
        Group::Records => matches!(sent.parcel, Parcel::Records(_)),
        Group::SentBy(node) => sent.from.get() == node.get(),
    }
}

pub(crate) fn is_between<M>(sent: &SentParcel<'_, M>) -> bool
    ensures { result ≡ is_between sent.now.from sent.now.to sent.now.parcel.now }
{
    match sent.parcel {
        Parcel::Guard(_) => sent.from.get() != sent.to.get(),
        _ => false,
    }
}

fn is_kind<M: Letter>(word: &str, sent: &SentParcel<'_, M>) -> bool
    ensures { result ≡ is_kind (word_by M.parts) word.now sent.now.from sent.now.to
        sent.now.parcel.now }
{
    match sent.parcel {
        Parcel::Guard(letter) => { sent.from.get() != sent.to.get() && word == letter.parts().word }
        _ => false,
    }
}

fn is_own<M>(sent: &SentParcel<'_, M>) -> bool
    ensures { result ≡ is_own sent.now.from sent.now.to sent.now.parcel.now }
{
    match sent.parcel {
        Parcel::Guard(_) => sent.from.get() == sent.to.get(),
        _ => false,
    }
}

fn is_gossip<M>(parcel: &Parcel<M>) -> bool
    ensures { result ≡ is_gossip parcel.now }
{
    !matches!(parcel, Parcel::Guard(_))
}

/// Whether the event was refused for this cause, whatever its number.
pub(crate) fn is_refused_for(cause: &Cause, entry: &Entry) -> bool
    ensures { result ≡ is_refused_for cause.now entry.now.outcome }
{
    match &entry.outcome {
        Outcome::Refused(other) => other.words() == cause.words(),
        _ => false,
    }
}
