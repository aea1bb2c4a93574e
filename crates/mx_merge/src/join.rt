ghost use Rattle.std.specs.Prelude.{ℕ, suc, ◌≡◌, ◌+◌, ◌↔◌, ◌⊎◌, Err, IsOk, IfOk, OnOk, OnErr};
ghost use Rattle.mx_journal.specs.Records.{Ascending};
ghost use Rattle.mx_journal.specs.Settled.{BringsUncovered, DoAgree, IsWithin, covered, joined};
ghost use Rattle.mx_merge.specs.Join.{IsFirstDifference, IsLeastJournal};

use crate::agreement::first_difference;
use mx_journal::Journal;
use std::alloc::AllocError;
use thiserror::Error;

/// Why a journal was not merged into another.
#[derive(Clone, Copy, Debug, PartialEq, Eq, Error)]
pub enum MergeFault {
    /// The journals' records of this number, or their bases up to it, differ. It is the least such
    /// number.
    #[error("two records bear {0}")]
    Conflict(u64),
    /// Memory ran out.
    #[error("out of memory")]
    Memory,
}

impl From<AllocError> for MergeFault {
    ghost use Rattle.mx_merge.specs.declared.join.MergeFault.TheVariants.{Memory};
    ghost use Rattle.std.specs.Prelude.{◌≡◌};

    ghost from_gives = { λ _ fault. fault ≡ Memory };

    fn from(_refused: AllocError) -> MergeFault {
        MergeFault::Memory
    }
}

/// Adds everything that `other` covers to `journal`, and returns how many section numbers are newly
/// covered. The base of `other` replaces that of `journal` if it covers more sections. The time
/// grows with the number of records of both.
///
/// # Errors
///
/// Returns `Conflict` with the least number at which the journals differ. Returns `Memory` if they
/// agree and memory runs out, which is possible only if `other` has a record of a section that
/// `journal` does not cover.
pub fn merge(journal: &mut Journal, other: &Journal) -> Result<u64, MergeFault>
    ensures conflict { (n : ℕ) → (result ≡ Err (MergeFault.Conflict n))
        ↔ IsFirstDifference n journal.old other.now }
    ensures agreed { (IsOk result ⊎ (result ≡ Err MergeFault.Memory))
        ↔ DoAgree journal.old other.now }
    ensures ok { IfOk result (λ k. (journal.new ≡ joined other.now journal.old)
        × (covered journal.new ≡ covered journal.old + k)) }
    ensures join { OnOk result (IsLeastJournal journal.old other.now journal.new) }
    ensures ordered { Ascending (suc journal.new.base.upto) journal.new.records }
    ensures there { Ascending (suc other.now.base.upto) other.now.records }
    ensures contained { IsWithin other.now journal.old → IsOk result }
    ensures memory { (result ≡ Err MergeFault.Memory)
        → BringsUncovered other.now.records journal.old }
    ensures err { OnErr result (journal.new ≡ journal.old) }
{
    if let Some(number) = first_difference(journal, other) {
        return Err(MergeFault::Conflict(number));
    }
    Ok(journal.join(other)?)
}
