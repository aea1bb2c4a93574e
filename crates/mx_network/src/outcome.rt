//! The outcomes of events, made from the results of a member's calls.

ghost use Rattle.std.specs.Prelude.{ℕ, ◌≡◌};
ghost use Rattle.mx_member.specs.declared.acts.Answer.TheVariants as answer;
ghost use Rattle.mx_network.specs.Outcome.{outcome_of};

use mx_journal::SettleFault;
use mx_member::{ReadFault, WriteFault};
use mx_nodelaws::{AskFault, CancelFault, EnterFault};
use mx_stamps::Stamp;
use mx_trace::{Cause, Outcome};

#[inline(always)]
pub(crate) fn asked(told: Result<Stamp, AskFault>) -> Outcome
    ensures { (sent : ℕ) → result ≡ outcome_of (answer.Asked told) sent }
{
    match told {
        Ok(stamp) => Outcome::Asked(stamp),
        Err(AskFault::NotIdle) => Outcome::Refused(Cause::NotIdle),
        Err(AskFault::StampsSpent) => Outcome::Refused(Cause::StampsSpent),
    }
}

#[inline(always)]
pub(crate) fn entered(told: Result<u64, EnterFault>) -> Outcome
    ensures { (sent : ℕ) → result ≡ outcome_of (answer.Entered told) sent }
{
    match told {
        Ok(number) => Outcome::Entered(number),
        Err(EnterFault::NotWaiting) => Outcome::Refused(Cause::NotWaiting),
        Err(EnterFault::NotGranted) => Outcome::Refused(Cause::NotGranted),
        Err(EnterFault::NumbersSpent) => Outcome::Refused(Cause::NumbersSpent),
    }
}

#[inline(always)]
pub(crate) fn read(told: Result<u64, ReadFault>) -> Outcome
    ensures { (sent : ℕ) → result ≡ outcome_of (answer.Read told) sent }
{
    match told {
        Ok(value) => Outcome::Value(value),
        Err(ReadFault::NotInside) => Outcome::Refused(Cause::NotInside),
        Err(ReadFault::NoRegister) => Outcome::Refused(Cause::NoRegister),
        Err(ReadFault::Gap(number)) => Outcome::Refused(Cause::Gap(number)),
        Err(ReadFault::Full) => Outcome::Refused(Cause::Full),
        // in a cluster, no section that a node is inside is settled (see `Cluster::step`)
        Err(ReadFault::Settled(upto)) => Outcome::Refused(Cause::Below(upto)),
    }
}

#[inline(always)]
pub(crate) fn written(told: Result<(), WriteFault>) -> Outcome
    ensures { (sent : ℕ) → result ≡ outcome_of (answer.Written told) sent }
{
    match told {
        Ok(()) => Outcome::Written,
        Err(WriteFault::NotInside) => Outcome::Refused(Cause::NotInside),
        Err(WriteFault::NoRegister) => Outcome::Refused(Cause::NoRegister),
        Err(WriteFault::Full) => Outcome::Refused(Cause::Full),
    }
}

#[inline(always)]
pub(crate) fn cancelled(told: Result<(), CancelFault>) -> Outcome
    ensures { (sent : ℕ) → result ≡ outcome_of (answer.Cancelled told) sent }
{
    match told {
        Ok(()) => Outcome::Cancelled,
        Err(CancelFault::NotWaiting) => Outcome::Refused(Cause::NotWaiting),
    }
}

#[inline(always)]
pub(crate) fn settled(told: Result<(), SettleFault>) -> Outcome
    ensures { (sent : ℕ) → result ≡ outcome_of (answer.Settled told) sent }
{
    match told {
        Ok(()) => Outcome::Settled,
        Err(SettleFault::Below(base)) => Outcome::Refused(Cause::Below(base)),
        Err(SettleFault::Gap(number)) => Outcome::Refused(Cause::Gap(number)),
    }
}
