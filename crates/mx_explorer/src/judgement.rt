//! The verdict of a trace, in one pass.

ghost use Rattle.std.specs.Prelude.{◌≡◌, ◌↔◌, ℕ};
ghost use Rattle.mx_trace.specs.Trace.{IsSerial, sections};
ghost use Rattle.mx_explorer.specs.Ledger.{IsLedgerOf};
ghost use Rattle.mx_explorer.specs.Verdict.{IsFirstBroken, IsSoundTrace, IsVerdictOf};

use crate::ledger::Ledger;
use crate::verdict::{Clause, Verdict};
use mx_trace::Entry;

/// Returns the verdict on a trace, whoever made it. Entries and exits have to alternate, each exit
/// by the node and with the number of the entry before it. The n-th section entered has to have the
/// number n. A value has to be read by the node inside. It has to be what the register holds after
/// all earlier sections, and after the node's own writes since it entered or last restarted. The
/// node of an item is that of its event; of a receipt only the number counts. A write of a node
/// that is not inside is passed over. Allocates no memory, and reads the trace once.
pub fn judge(trace: &[Entry]) -> Verdict
    ensures sound { (result ≡ Verdict.Sound) ↔ IsSoundTrace trace.now }
    ensures broken { (k : ℕ) (c : Clause)
        → ((result ≡ Verdict.Broken k c) ↔ IsFirstBroken trace.now k c) }
    ensures serial { IsSerial trace.now → result ≡ Verdict.Sound }
{
    judged(trace).0
}

/// Returns the verdict on a trace, and the ledger of the items before the first that breaks a
/// clause.
pub(crate) fn judged(trace: &[Entry]) -> (Verdict, Ledger)
    ensures verdict { IsVerdictOf trace.now result.0 }
    ensures serial { IsSerial trace.now → result.0 ≡ Verdict.Sound }
    ensures ledger { result.0 ≡ Verdict.Sound → IsLedgerOf (sections trace.now) result.1 }
{
    let mut ledger = Ledger::new();
    for (index, entry) in trace.iter().enumerate() {
        if let Some(clause) = ledger.take(entry) {
            return (Verdict::Broken(index as u64, clause), ledger);
        }
    }
    (Verdict::Sound, ledger)
}
