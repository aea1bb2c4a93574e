//! Drafts of critical sections (*sections* here), the records and receipts of closed ones, and
//! journals. A journal is a finite map from section numbers to records; the registers after the
//! first sections may replace their records.
#![tactic(auto)]

mod base;
mod cells;
mod draft;
mod insertion;
mod joins;
mod journal;
mod places;
mod puts;
mod ranges;
mod receipts;
mod record_map;
mod records;
mod removal;
mod runs;
mod settlement;

pub use base::Base;
pub use cells::Cell;
pub use draft::{Draft, Full};
pub use journal::Journal;
pub use puts::{Put, PutFault};
pub use ranges::Range;
pub use receipts::{Read, Receipt};
pub use records::{Record, Write};
pub use settlement::{BaseFault, SettleFault};
