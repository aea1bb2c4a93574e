ghost use Rattle.std.specs.Prelude.{◌≡◌};
ghost use Rattle.mx_member.specs.declared.parcel.Parcel.TheVariants.{Records};

use arrayvec::ArrayVec;
use mx_journal::{Base, Range, Record};

/// A letter of the exclusion algorithm, or a message of gossip.
#[derive(Drop)]
pub enum Parcel<M> {
    /// A letter of the exclusion algorithm, which guards the section.
    Guard(M),
    /// The ranges of section numbers that the sender lacks.
    Want(ArrayVec<Range, 8>),
    /// The registers after the first sections, in case the receiver lacks some of these sections.
    Base(Base),
    /// Records that the receiver may lack.
    Records(ArrayVec<Record, 4>),
}

impl<M> Default for Parcel<M> {
    ghost use Rattle.std.specs.Prelude.{◌≡◌, []};
    ghost use Rattle.mx_member.specs.declared.parcel.Parcel.TheVariants.{Want};

    ghost is_default = { λ parcel. parcel ≡ Want (record { items = [] }) };

    fn default() -> Self {
        Parcel::Want(ArrayVec::new())
    }
}

impl<M: Copy> Parcel<M> {
    /// Copies the parcel.
    pub fn copy(&self) -> Parcel<M>
        ensures { result ≡ self.now }
    {
        match self {
            Parcel::Guard(letter) => Parcel::Guard(*letter),
            Parcel::Want(ranges) => Parcel::Want(copy_of_ranges(ranges)),
            Parcel::Base(base) => Parcel::Base(*base),
            Parcel::Records(records) => copy_of_gossip(records),
        }
    }
}

fn copy_of_gossip<M>(records: &ArrayVec<Record, 4>) -> Parcel<M>
    ensures { result ≡ Records records.now }
{
    Parcel::Records(copy_of_records(records))
}

fn copy_of_ranges(ranges: &ArrayVec<Range, 8>) -> ArrayVec<Range, 8>
    ensures { result ≡ ranges.now }
{
    let mut copy = ArrayVec::new();
    for range in ranges.as_slice() {
        copy.push(*range);
    }
    copy
}

fn copy_of_records(records: &ArrayVec<Record, 4>) -> ArrayVec<Record, 4>
    ensures { result ≡ records.now }
{
    let mut copy = ArrayVec::new();
    for entry in records.as_slice() {
        copy.push(entry.copy());
    }
    copy
}
