ghost use Rattle.std.specs.Prelude.{◌≡◌, []};
ghost use Rattle.mx_member.specs.Acts.{IsDoable, IsPerformed};

use crate::faults::{CloseFault, ReadFault, WriteFault};
use crate::member::Member;
use crate::parcel::Parcel;
use mx_journal::{Receipt, SettleFault};
use mx_letters::Outbox;
use mx_nodelaws::{AskFault, CancelFault, EnterFault, Exclusion, LeaveFault};
use mx_stamps::{NodeId, Stamp};
use std::alloc::AllocError;

/// An act of a member: a step by itself, or the delivery of one parcel that was sent to it.
#[derive(Drop)]
pub enum Act<M> {
    Ask,
    Enter,
    /// Reads the register of this number.
    Read(u8),
    /// Writes a value, the second number, to the register of the first number.
    Write(u8, u64),
    Leave,
    /// Withdraws the request of a waiting node.
    Cancel,
    /// Replaces the records of sections 1 to this number by the registers after them.
    Settle(u64),
    /// Sends the outstanding letters again.
    Tick,
    /// Asks this node for the sections that the journal lacks.
    Want(NodeId),
    /// Takes this parcel from this sender.
    Deliver(NodeId, Parcel<M>),
    /// Restarts the node: its draft is emptied.
    Restart,
}

/// The result of an act.
#[derive(Drop)]
pub enum Answer {
    Asked(Result<Stamp, AskFault>),
    Entered(Result<u64, EnterFault>),
    Read(Result<u64, ReadFault>),
    Written(Result<(), WriteFault>),
    Left(Result<Receipt, LeaveFault>),
    Cancelled(Result<(), CancelFault>),
    Settled(Result<(), SettleFault>),
    Ticked,
    Wanted,
    Delivered,
    /// The node has restarted.
    Woken,
}

/// Performs one act of a member, and returns the result of the act. A delivered parcel must come
/// from a node of the cluster and lead to no conflict (see `DeliverFault`), so that only memory can
/// be missing.
///
/// # Errors
///
/// Returns `AllocError` if memory runs out.
pub fn perform<C: Exclusion>(
    member: &mut Member<C>,
    act: Act<C::Msg>,
    out: &mut Outbox<Parcel<C::Msg>>,
) -> Result<Answer, AllocError>
    requires empty { out.old ≡ [] }
    requires doable { IsDoable act member.old }
    ensures { IsPerformed C.core act member.old member.new out.new result }
{
    match act {
        Act::Ask => Ok(Answer::Asked(member.ask(out))),
        Act::Enter => Ok(Answer::Entered(member.enter())),
        Act::Read(register) => Ok(Answer::Read(member.read(register))),
        Act::Write(register, value) => Ok(Answer::Written(member.write(register, value))),
        Act::Leave => match member.leave(out) {
            Ok(receipt) => Ok(Answer::Left(Ok(receipt))),
            Err(CloseFault::NotInside) => Ok(Answer::Left(Err(LeaveFault::NotInside))),
            Err(CloseFault::Memory) => Err(AllocError),
        },
        Act::Cancel => Ok(Answer::Cancelled(member.cancel(out))),
        Act::Settle(upto) => Ok(Answer::Settled(member.settle(upto))),
        Act::Tick => {
            member.tick(out);
            Ok(Answer::Ticked)
        }
        Act::Want(to) => {
            member.want(to, out);
            Ok(Answer::Wanted)
        }
        Act::Deliver(from, parcel) => match member.deliver(from, parcel, out) {
            Ok(()) => Ok(Answer::Delivered),
            Err(_) => Err(AllocError),
        },
        Act::Restart => {
            member.restart();
            Ok(Answer::Woken)
        }
    }
}
