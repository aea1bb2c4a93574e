//! One try to make the next section of a job at a station.

ghost use Rattle.std.specs.Prelude.{◌≡◌, ◌≤◌, ◌++◌, ◌∷◌, [], ℕ, Bool, Err, Ok, IfErr, IfOk, OnErr, OnOk, false, length, map, true};
ghost use Rattle.mx_journal.specs.Drafted.{Drafted, fresh};
ghost use Rattle.mx_journal.specs.declared.receipts.Receipt.{Receipt as OneReceipt};
ghost use Rattle.mx_journal.specs.declared.records.Write.{Write as OneWrite};
ghost use Rattle.mx_member.specs.declared.acts.Act.TheVariants.{Leave};
ghost use Rattle.mx_member.specs.Steps.{leave_of};
ghost use Rattle.mx_nodelaws.specs.Core.{IsInside};
ghost use Rattle.mx_stations.specs.Posts.{does};
ghost use Rattle.mx_jobs.specs.Laws.{AreThere};
ghost use Rattle.mx_jobs.specs.Rounds.{ActsForJob, Serves};
ghost use Rattle.mx_jobs.specs.Sections.{CannotGoOn, Drafts, HasRead, IsSection, IsSpent, Leaves, Pends, Rests};

use crate::job::Job;
use arrayvec::ArrayVec;
use mx_journal::Write;
use mx_member::{ReadFault, WriteFault};
use mx_nodelaws::{Exclusion, Phase};
use mx_stations::Station;
use thiserror::Error;

/// Why a job cannot go on.
#[derive(Clone, Copy, Debug, PartialEq, Eq, Error)]
pub enum JobFault {
    /// The job reads or writes a register that does not exist.
    #[error("no register")]
    NoRegister,
    /// All section numbers are used.
    #[error("numbers spent")]
    NumbersSpent,
}

#[derive(Clone, Copy, Debug, PartialEq, Eq)]
pub(crate) enum Tried {
    Left,
    /// The section was made, but memory was refused when the node tried to leave it.
    Pending,
    Outside,
    /// Records of earlier sections are missing.
    Gap,
}

fn read_all<C: Exclusion>(
    station: &mut Station<C>,
    registers: &[u8],
) -> Result<ArrayVec<u64, 8>, ReadFault>
    requires few { length registers.now ≤ 8 }
    requires empty { station.old.me.member.draft ≡ fresh }
    ensures rests { Rests C.core station.old station.new }
    ensures read { IfOk result (λ values. (draft : Drafted)
        × HasRead station.old.me.member.setting.registers registers.now values.items draft
        × Drafts C.core station.old draft station.new) }
    ensures acts { ActsForJob C.core station.old station.new }
    ensures phase { station.new.me.member.core ≡ station.old.me.member.core }
    ensures lacks { result ≡ Err ReadFault.NoRegister
        → AreThere station.old.me.member.setting.registers registers.now → ⊥ }
{
    let mut values = ArrayVec::new();
    for register in registers {
        let value = station.read(*register)?;
        values.push(value);
    }
    Ok(values)
}

fn write_all<C: Exclusion>(station: &mut Station<C>, writes: &[Write]) -> Result<(), WriteFault>
    requires few { length writes.now ≤ 8 }
    requires none { station.old.me.member.draft.writes ≡ [] }
    requires inside { IsInside C.core station.old.me.member.core }
    ensures rests { Rests C.core station.old station.new }
    ensures drafts { OnOk result (Drafts C.core station.old
        (record {
          reads = station.old.me.member.draft.reads;
          writes = station.old.me.member.draft.writes ++ writes.now;
        }) station.new
        × AreThere station.old.me.member.setting.registers
        (map (λ (w : OneWrite). w.register) writes.now)) }
    ensures acts { ActsForJob C.core station.old station.new }
    ensures lacks { OnErr result (AreThere station.old.me.member.setting.registers
        (map (λ (w : OneWrite). w.register) writes.now) → ⊥) }
{
    for write in writes {
        station.write(write.register, write.value)?;
    }
    Ok(())
}

pub(crate) fn try_leave<C: Exclusion>(station: &mut Station<C>) -> bool
    ensures left { result ≡ true → (r : OneReceipt)
        × ((leave_of C.core station.old.me.member).answer ≡ Ok r)
        × (station.new ≡ does C.core Leave station.old) }
    ensures kept { result ≡ false → station.new ≡ station.old }
{
    match station.leave() {
        Ok(_) => true,
        Err(_) => false,
    }
}

/// Each try starts with an empty draft, so an earlier one that met a gap has no effect.
pub(crate) fn try_section<C: Exclusion, J: Job>(
    station: &mut Station<C>,
    job: &mut J,
    registers: &[u8],
) -> Result<Tried, JobFault>
    requires few { length registers.now ≤ 8 }
    requires asked { J.terms.asks_for job.old registers.now }
    requires ready { J.ready job.old }
    ensures ready { J.ready job.new }
    ensures left { result ≡ Ok Tried.Left → (r : OneReceipt)
        × IsSection J.terms
        station.old.me.member.setting.registers job.old r job.new
        × Leaves C.core station.old r station.new }
    ensures pending { result ≡ Ok Tried.Pending → Rests C.core station.old station.new
        × Pends J.terms C.core job.old station.new job.new }
    ensures outside { result ≡ Ok Tried.Outside
        → (job.new ≡ job.old) × (station.new ≡ station.old) }
    ensures gap { result ≡ Ok Tried.Gap → (job.new ≡ job.old)
        × Rests C.core station.old station.new
        × (station.new.me.member.core ≡ station.old.me.member.core) }
    ensures able { result ≡ Ok Tried.Left → IsSpent C.core station.new → ⊥ }
    ensures serves { OnOk result (Serves C.core station.old station.new) }
    ensures acts { result ≡ Ok Tried.Gap → ActsForJob C.core station.old station.new }
    ensures broken { OnErr result (ActsForJob C.core station.old station.new) }
    ensures fails { IfErr result (λ why. Rests C.core station.old station.new
        × CannotGoOn J.terms C.core why job.old job.new station.new) }
{
    let Phase::Inside(number) = station.phase() else {
        return Ok(Tried::Outside);
    };
    station.restart();
    match read_all(station, registers) {
        Ok(values) => {
            let writes = job.section(number, values.as_slice());
            write_all(station, writes.as_slice())?;
            let has_left = try_leave(station);
            Ok(outcome_of(has_left))
        }
        Err(ReadFault::NoRegister) => Err(JobFault::NoRegister),
        Err(_) => Ok(Tried::Gap),
    }
}

fn outcome_of(has_left: bool) -> Tried
    ensures left { result ≡ Tried.Left → has_left ≡ true }
    ensures pending { result ≡ Tried.Pending → has_left ≡ false }
    ensures inside { result ≡ Tried.Outside → ⊥ }
    ensures whole { result ≡ Tried.Gap → ⊥ }
{
    if has_left {
        Tried::Left
    } else {
        Tried::Pending
    }
}

impl From<WriteFault> for JobFault {
    ghost use Rattle.std.specs.Prelude.{◌≡◌};
    ghost use Rattle.mx_jobs.specs.declared.tries.JobFault.TheVariants.{NoRegister};

    ghost from_gives = { λ _ fault. fault ≡ NoRegister };

    fn from(_fault: WriteFault) -> JobFault {
        JobFault::NoRegister
    }
}
