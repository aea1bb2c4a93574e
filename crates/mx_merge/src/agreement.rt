ghost use Rattle.std.specs.Prelude.{suc, ◌≡◌, ◌↔◌, ◌++◌, IsTrue, IsFalse, IfSome, IfNone};
ghost use Rattle.mx_journal.specs.Agreement.{AgreesWith, AreAgreeing, IsFirstConflict, IsOpposed};
ghost use Rattle.mx_journal.specs.Bases.{AreOpposed};
ghost use Rattle.mx_journal.specs.Records.{Ascending};
ghost use Rattle.mx_journal.specs.Settled.{AreOfOneMap, DoAgree};
ghost use Rattle.mx_merge.specs.Join.{IsFirstDifference};

use mx_journal::{Base, Journal, Record};

/// Returns whether the journals agree: records of the same number are equal, and so are the bases
/// if they cover the same sections. Journals whose bases and records come from the same sections
/// always agree. The time is that of one search in `journal` for each record of `other`.
pub fn agree(journal: &Journal, other: &Journal) -> bool
    ensures agreeing { IsTrue result ↔ DoAgree journal.now other.now }
    ensures submaps { AreOfOneMap journal.now other.now → IsTrue result }
{
    first_difference(journal, other).is_none()
}

pub(crate) fn first_difference(journal: &Journal, other: &Journal) -> Option<u64>
    ensures some { IfSome result (λ n. IsFirstDifference n journal.now other.now) }
    ensures none { IfNone result (DoAgree journal.now other.now) }
    ensures here { Ascending (suc journal.now.base.upto) journal.now.records }
    ensures there { Ascending (suc other.now.base.upto) other.now.records }
{
    if are_opposed(journal.base(), other.base()) {
        // for the prover: the calls show that the numbers of both journals ascend
        let _ = (journal.is_empty(), other.is_empty());
        return Some(journal.base().upto());
    }
    first_conflict(journal, other)
}

fn are_opposed(base: &Base, other: &Base) -> bool
    ensures opposed { IsTrue result → AreOpposed base.now other.now }
    ensures agreed { IsFalse result → base.now.upto ≡ other.now.upto → base.now ≡ other.now }
{
    base.upto() == other.upto() && !base.is(other)
}

fn first_conflict(journal: &Journal, other: &Journal) -> Option<u64>
    ensures some { IfSome result (λ n.
        IsFirstConflict n (journal.now.records ++ other.now.records)) }
    ensures none { IfNone result (AreAgreeing journal.now.records other.now.records) }
    ensures here { Ascending (suc journal.now.base.upto) journal.now.records }
    ensures there { Ascending (suc other.now.base.upto) other.now.records }
{
    // for the prover: both calls are made, since they show that the numbers of the journals ascend
    let (nothing_here, nothing_there) = (journal.is_empty(), other.is_empty());
    if nothing_here || nothing_there {
        return None;
    }
    let mut last = 0;
    while let Some(entry) = other.next_after(last) {
        if !agrees_with(journal, entry) {
            return Some(entry.number);
        }
        last = entry.number;
    }
    None
}

fn agrees_with(journal: &Journal, entry: &Record) -> bool
    requires { Ascending 1 journal.now.records }
    ensures agrees { IsTrue result → AgreesWith entry.now journal.now.records }
    ensures opposed { IsFalse result → IsOpposed entry.now journal.now.records }
{
    match journal.get(entry.number) {
        Some(there) => there.is(entry),
        None => true,
    }
}
