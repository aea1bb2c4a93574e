//! The registers of journals and of lists of records.

ghost use Rattle.std.specs.Prelude.{ℕ, suc, ◌≡◌, ◌≤◌, [], List};
ghost use Rattle.mx_stamps.specs.declared.limits.TheConstants.{MAX_REGISTERS};
ghost use Rattle.mx_journal.specs.declared.records.Record.{Record};
ghost use Rattle.mx_journal.specs.Agreement.{IsConsistent};
ghost use Rattle.mx_journal.specs.Records.{Ascending, top_of, with_records};
ghost use Rattle.mx_journal.specs.Settled.{AreOfOneMap, CoverSame, JournalState, settled};
ghost use Rattle.mx_registers.specs.Based.{AreAppliedTo, AreHeldIn, registers_below, registers_in};
ghost use Rattle.mx_registers.specs.Registers.{AreHeld, HaveSameMembers, registers_of, writes_to};

use crate::registers::View;
use mx_journal::{Journal, Record};

/// Returns the first `count` (1 to 32) registers after all records of the list. If records of the
/// same number are equal, neither their order nor repetitions change the result. The time grows
/// with the number of records.
pub fn view_of(records: &[Record], count: u8) -> View
    requires least { 1 ≤ count }
    requires most { count ≤ MAX_REGISTERS }
    ensures value { result ≡ registers_of count records.now }
    ensures held { AreHeld records.now result }
    ensures same { (others : List Record) → IsConsistent records.now
        → HaveSameMembers records.now others → result ≡ registers_of count others }
    ensures map { IsConsistent records.now
        → result ≡ registers_of count (with_records records.now []) }
{
    let mut shown = View::new(count);
    for entry in records {
        shown.take(entry);
    }
    shown
}

/// Returns the first `count` (1 to 32) registers after all sections that the journal covers: those
/// of its base, changed by its records. The time grows with the number of records.
pub fn view(journal: &Journal, count: u8) -> View
    requires least { 1 ≤ count }
    requires most { count ≤ MAX_REGISTERS }
    ensures value { result ≡ registers_in count journal.now }
    ensures held { AreHeldIn journal.now result }
    // the writes of the sections up to k, applied in their order
    ensures order { (k : ℕ) → top_of journal.now.records ≤ k
        → AreAppliedTo journal.now.base (writes_to k journal.now.records) result }
    // settling changes no register
    ensures settled { (k : ℕ) → registers_in count (settled k journal.now) ≡ result }
    // journals of the same sections that cover the same numbers show the same registers
    ensures covered { (other : JournalState) → Ascending (suc other.base.upto) other.records
        → AreOfOneMap journal.now other → CoverSame journal.now other
        → registers_in count other ≡ result }
{
    let mut view = View::at(journal.base(), count);
    let mut last = 0;
    while let Some(entry) = journal.next_after(last) {
        view.take(entry);
        last = entry.number;
    }
    view
}

/// Returns the first `count` (1 to 32) registers after the journal's sections numbered below
/// `number`, as section `number` reads them before its own writes. If the journal's base covers
/// section `number`, these are the registers of the base.
pub fn view_below(journal: &Journal, count: u8, number: u64) -> View
    requires least { 1 ≤ count }
    requires most { count ≤ MAX_REGISTERS }
    ensures value { result ≡ registers_below number count journal.now }
{
    let mut earlier = View::at(journal.base(), count);
    let mut last = 0;
    while let Some(entry) = journal.next_after(last) {
        if entry.number >= number {
            return earlier;
        }
        earlier.take(entry);
        last = entry.number;
    }
    earlier
}
