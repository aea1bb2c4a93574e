//! Settling, which replaces the records of the first sections by a base.

ghost use Rattle.std.specs.Prelude.{◌≡◌, ◌≤◌, suc};
ghost use Rattle.mx_journal.specs.Bases.{AreCellsOf, with_sections};
ghost use Rattle.mx_journal.specs.Records.{Ascending, below};

use crate::base::Base;
use crate::cells::take_section;
use crate::record_map::RecordMap;
use thiserror::Error;

/// Why a journal does not settle its first sections.
#[derive(Clone, Copy, Debug, PartialEq, Eq, Error)]
pub enum SettleFault {
    /// The journal's base already covers more sections: those up to this number.
    #[error("sections up to {0} are settled")]
    Below(u64),
    /// This is the first number that the journal does not cover.
    #[error("no record bears {0}")]
    Gap(u64),
}

/// Why a journal does not take a base.
#[derive(Clone, Copy, Debug, PartialEq, Eq, Error)]
pub enum BaseFault {
    /// The journal's own base and the new one both cover the sections up to this number, and
    /// differ.
    #[error("two bases differ at {0}")]
    Conflict(u64),
}

pub(crate) fn settled_base(base: &Base, records: &RecordMap, upto: u64) -> Base
    requires order { base.now.upto ≤ upto }
    requires behind { Ascending (suc base.now.upto) records.now }
    ensures { result ≡ record {
      upto = upto;
      cells = with_sections (below (suc upto) records.now) base.now.cells;
    } }
{
    let mut cells = *base.cells();
    let mut last = base.upto();
    while let Some(entry) = records.next_after(last) {
        if entry.number > upto {
            break;
        }
        take_section(&mut cells, entry);
        last = entry.number;
    }
    Base::with(upto, cells)
}
