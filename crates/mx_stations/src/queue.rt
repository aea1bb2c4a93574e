//! The queue of a station's parcels that wait to be put out into slots.

ghost use Rattle.std.specs.Prelude.{◌≡◌, ◌+◌, ◌++◌, ◌<◌, ◌≤◌, ℕ, [], ◌∷◌, Some, drop, length, slice_get, take};
ghost use Rattle.mx_stamps.specs.Lists.{IsIn};
ghost use Rattle.mx_member.specs.declared.parcel.Parcel.{Parcel as OneParcel};
ghost use Rattle.mx_stations.specs.Posts.{waiting_after};

use arrayvec::ArrayVec;
use mx_letters::Outbox;
use mx_member::Parcel;
use mx_stamps::NodeId;

/// The greatest number of waiting parcels in a station.
pub const WAITING_ROOM: usize = 64;

/// The waiting parcels of a station, each with its addressee.
pub(crate) type Waiting<M> = ArrayVec<(NodeId, Parcel<M>), WAITING_ROOM>;

pub(crate) fn store_up<M: Copy + Default>(waiting: &mut Waiting<M>, out: &Outbox<Parcel<M>>)
    ensures { waiting.new.items ≡ waiting_after waiting.old.items out.now }
{
    // for the prover: it knows the bound on the number of parcels once it has seen that number
    let _count = waiting.len();
    for sent in out.as_slice() {
        if waiting.len() < WAITING_ROOM {
            waiting.push((sent.0, sent.1.copy()));
        }
    }
}

/// Swaps the parcel at `index` with the one at `kept`, which is not greater.
pub(crate) fn bring_forward<M: Copy + Default>(waiting: &mut Waiting<M>, index: usize, kept: usize)
    requires within { index < length waiting.old.items }
    requires low { kept ≤ index }
    ensures front { (x : ℕ × OneParcel M) → slice_get waiting.old.items index ≡ Some x
        → take (kept + 1) waiting.new.items ≡ take kept waiting.old.items ++ x ∷ [] }
    ensures back { drop (index + 1) waiting.new.items ≡ drop (index + 1) waiting.old.items }
    ensures among { (x : ℕ × OneParcel M) → IsIn x waiting.new.items → IsIn x waiting.old.items }
    ensures many { length waiting.new.items ≡ length waiting.old.items }
{
    if kept < index {
        waiting.as_mut_slice().swap(kept, index);
    }
}

/// Moves the first parcel to the end, or removes it if `kept` is 0.
pub(crate) fn turn<M: Copy + Default>(waiting: &mut Waiting<M>, kept: usize)
    requires some { 0 < length waiting.old.items }
    requires few { kept ≤ 1 }
    ensures { waiting.new.items ≡ drop 1 waiting.old.items ++ take kept waiting.old.items }
{
    // for the prover, as in `store_up`
    let _count = waiting.len();
    let first = waiting.remove(0);
    if kept > 0 {
        waiting.push(first);
    }
}
