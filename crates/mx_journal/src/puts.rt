//! The results of putting records into a journal, and the conflicts among records.

ghost use Rattle.std.specs.Prelude.{◌≡◌, ◌≤◌, ◌<◌, ◌↔◌, ◌++◌, ◌⊎◌, IsTrue, IsFalse, IfSome, IfNone};
ghost use Rattle.mx_stamps.specs.Lists.{IsIn};
ghost use Rattle.mx_journal.specs.Agreement.{AgreesWith, IsConsistent, IsFirstConflict, IsOpposed};
ghost use Rattle.mx_journal.specs.Searches.{lower_of};
ghost use Rattle.mx_journal.specs.Records.{Ascending, IsNumbered, IsThere};
ghost use Rattle.mx_journal.specs.Runs.{AreRuns, flatten};
ghost use Rattle.mx_journal.specs.Settled.{beyond};

use crate::places::find;
use crate::records::Record;
use crate::runs::Run;
use std::alloc::AllocError;
use thiserror::Error;

/// The result of `Journal::put`.
#[derive(Clone, Copy, Debug, PartialEq, Eq)]
pub enum Put {
    /// No record had the number. The journal now has this one.
    New,
    /// The journal had the same record already, or its base covers the number.
    Same,
}

/// Why a journal does not take a record, or a list of records.
#[derive(Clone, Copy, Debug, PartialEq, Eq, Error)]
pub enum PutFault {
    /// A record has the number 0, which no section has.
    #[error("a record bears the number 0")]
    ZeroNumber,
    /// Two different records have this number, which is the least such number.
    #[error("another record bears {0}")]
    Conflict(u64),
    /// Memory ran out.
    #[error("out of memory")]
    Memory,
}

impl From<AllocError> for PutFault {
    ghost use Rattle.mx_journal.specs.declared.puts.PutFault.TheVariants.{Memory};
    ghost use Rattle.std.specs.Prelude.{◌≡◌};

    ghost from_gives = { λ _ fault. fault ≡ Memory };

    fn from(_refused: AllocError) -> PutFault {
        PutFault::Memory
    }
}

pub(crate) fn has_zero(list: &[Record]) -> bool
    ensures there { IsTrue result ↔ IsThere 0 list.now }
    ensures numbered { IsFalse result → IsNumbered list.now }
{
    for entry in list {
        if entry.number == 0 {
            return true;
        }
    }
    false
}

fn ascends(list: &[Record]) -> bool
    ensures { IsTrue result ↔ Ascending 1 list.now }
{
    let mut last = 0;
    for entry in list {
        if entry.number <= last {
            return false;
        }
        last = entry.number;
    }
    true
}

fn agrees_in(list: &[Record], entry: &Record) -> bool
    ensures agrees { IsTrue result → AgreesWith entry.now list.now }
    ensures opposed { IsFalse result → IsOpposed entry.now list.now }
{
    for other in list {
        if other.number == entry.number && !other.is(entry) {
            return false;
        }
    }
    true
}

fn agrees_at_place(runs: &[Run], entry: &Record) -> bool
    requires { AreRuns 1 runs.now }
    ensures agrees { IsTrue result → AgreesWith entry.now (flatten runs.now) }
    ensures opposed { IsFalse result → IsOpposed entry.now (flatten runs.now) }
{
    match find(runs, entry.number) {
        Some(there) => there.is(entry),
        None => true,
    }
}

/// If `in_order` is true, the list's numbers ascend strictly, so the list has no other record of
/// that number, and only the runs are searched.
fn agrees_in_both(runs: &[Run], list: &[Record], in_order: bool, entry: &Record) -> bool
    requires ascending { AreRuns 1 runs.now }
    requires ordered { IsTrue in_order → Ascending 1 list.now }
    requires member { IsIn entry.now list.now }
    ensures agrees { IsTrue result → AgreesWith entry.now (flatten runs.now ++ list.now) }
    ensures opposed { IsFalse result → IsOpposed entry.now (flatten runs.now ++ list.now) }
{
    agrees_at_place(runs, entry) && (in_order || agrees_in(list, entry))
}

fn is_disputed(runs: &[Run], from: u64, list: &[Record], in_order: bool, entry: &Record) -> bool
    requires ascending { AreRuns 1 runs.now }
    requires ordered { IsTrue in_order → Ascending 1 list.now }
    requires member { IsIn entry.now list.now }
    ensures opposed { IsTrue result → (from < entry.now.number)
        × IsOpposed entry.now (flatten runs.now ++ beyond from list.now) }
    ensures agrees { IsFalse result → (entry.now.number ≤ from)
        ⊎ AgreesWith entry.now (flatten runs.now ++ beyond from list.now) }
{
    entry.number > from && !agrees_in_both(runs, list, in_order, entry)
}

pub(crate) fn least_conflict(runs: &[Run], from: u64, list: &[Record]) -> Option<u64>
    requires { AreRuns 1 runs.now }
    ensures some { IfSome result (λ n.
        IsFirstConflict n (flatten runs.now ++ beyond from list.now)) }
    ensures none { IfNone result (IsConsistent (flatten runs.now ++ beyond from list.now)) }
{
    let in_order = ascends(list);
    let mut least = None;
    for entry in list {
        if is_disputed(runs, from, list, in_order, entry) {
            least = Some(lower(least, entry.number));
        }
    }
    least
}

fn lower(least: Option<u64>, number: u64) -> u64
    ensures { result ≡ lower_of least number }
{
    match least {
        Some(other) => other.min(number),
        None => number,
    }
}
