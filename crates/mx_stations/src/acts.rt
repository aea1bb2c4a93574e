//! The acts of a station on its node. Each act is one event of the node, and stores the node's
//! status word once. A refused act stores nothing.

ghost use Rattle.std.specs.Prelude.{◌≡◌, ◌<◌, ◌↔◌, ◌++◌, ℕ, [], ◌∷◌, Err, IfOk, MatchBool, Ok, OnErr, OnOk, Some};
ghost use Rattle.std.specs.Vec.{vec_capacity, vec_len};
ghost use Rattle.mx_nodelaws.specs.Core.{IsInside};
ghost use Rattle.mx_member.specs.Steps.{IsTakeable, ask_of, cancel_of, enter_of, leave_of, read_of, settle_of, write_of};
ghost use Rattle.mx_member.specs.declared.acts.Act.TheVariants.{Ask, Cancel, Enter, Leave, Read, Restart, Settle, Tick, Want, Write};
ghost use Rattle.mx_member.specs.Acts.{IsRefusal, act_of};
ghost use Rattle.mx_member.specs.declared.parcel.Parcel.{Parcel as OneParcel};
ghost use Rattle.mx_stations.specs.Posts.{DeliversAs, OnDone, OnRefusal, does, left_in};
ghost use Rattle.mx_stations.specs.Running.{IsPlain};
ghost use Rattle.mx_stations.specs.Turns.{HoldsUnknown};

use crate::answers::TakeFault;
use crate::field::act;
use crate::queue::store_up;
use crate::station::Station;
use mx_journal::{Receipt, SettleFault};
use mx_letters::Outbox;
use mx_member::{Act, Answer, CloseFault, Member, Parcel, ReadFault, WriteFault, perform};
use mx_nodelaws::{AskFault, CancelFault, EnterFault, Exclusion, Phase};
use mx_stamps::{NodeId, Stamp};

/// Ends an act that the member has made: stores the node's status word, and appends the parcels
/// that the act sent to the waiting ones. Between the member's act and this store the station's
/// invariant does not hold, so this cannot be a method.
macro_rules! tell {
    ($station:expr) => {
        act(
            &$station.field,
            &mut $station.seat,
            $station.node,
            &$station.member,
            &$station.out,
            &$station.hand,
            &$station.receipts,
        );
        store_up(&mut $station.waiting, &$station.out);
    };
}

impl<C: Exclusion> Station<C> {
    /// Asks for the next section, and returns the stamp of the request.
    ///
    /// # Errors
    ///
    /// Returns `NotIdle` if the node waits already or is inside, and `StampsSpent` if no next stamp
    /// exists.
    pub fn ask(&mut self) -> Result<Stamp, AskFault>
        ensures answer { result ≡ (ask_of C.core self.old.me.member).answer }
        ensures done { OnOk result (self.new ≡ does C.core Ask self.old) }
        ensures refused { OnErr result (self.new ≡ self.old) }
    {
        match self.does(Act::Ask) {
            Answer::Asked(stamp) => stamp,
            _ => unreachable!(),
        }
    }

    /// Withdraws the request: the node is idle again, and may ask again.
    ///
    /// # Errors
    ///
    /// Returns `NotWaiting` if the node is idle or inside.
    pub fn cancel(&mut self) -> Result<(), CancelFault>
        ensures answer { result ≡ (cancel_of C.core self.old.me.member).answer }
        ensures done { OnOk result (self.new ≡ does C.core Cancel self.old) }
        ensures refused { OnErr result (self.new ≡ self.old) }
    {
        match self.does(Act::Cancel) {
            Answer::Cancelled(done) => done,
            _ => unreachable!(),
        }
    }

    /// Enters the section with an empty draft, and returns its number.
    ///
    /// # Errors
    ///
    /// Returns `NotWaiting` if the node is idle or inside, `NotGranted` if a permission is missing,
    /// and `NumbersSpent` if the highest section number that the node knows is the limit.
    pub fn enter(&mut self) -> Result<u64, EnterFault>
        ensures answer { result ≡ (enter_of C.core self.old.me.member).answer }
        ensures done { OnOk result (self.new ≡ does C.core Enter self.old) }
        ensures refused { OnErr result (self.new ≡ self.old) }
    {
        match self.does(Act::Enter) {
            Answer::Entered(number) => number,
            _ => unreachable!(),
        }
    }

    /// Reads a register while the node is inside, and adds the read to the draft. Returns the value
    /// that this section wrote last to the register, or otherwise the value that the sections
    /// before it left.
    ///
    /// # Errors
    ///
    /// Returns the first fault, in the order of `ReadFault`, as `Member::read` does.
    pub fn read(&mut self, register: u8) -> Result<u64, ReadFault>
        ensures answer { result ≡ (read_of C.core register self.old.me.member).answer }
        ensures done { OnOk result (self.new ≡ does C.core (Read register) self.old) }
        ensures refused { OnErr result (self.new ≡ self.old) }
    {
        match self.does(Act::Read(register)) {
            Answer::Read(value) => value,
            _ => unreachable!(),
        }
    }

    /// Writes a register while the node is inside: adds the write to the draft.
    ///
    /// # Errors
    ///
    /// Returns `NotInside` if the node is not inside, `NoRegister` if there is no such register,
    /// and `Full` if the draft has eight writes already.
    pub fn write(&mut self, register: u8, value: u64) -> Result<(), WriteFault>
        ensures answer { result ≡ (write_of C.core register value self.old.me.member).answer }
        ensures done { OnOk result (self.new ≡ does C.core (Write register value) self.old) }
        ensures refused { OnErr result (self.new ≡ self.old) }
    {
        match self.does(Act::Write(register, value)) {
            Answer::Written(done) => done,
            _ => unreachable!(),
        }
    }

    /// Replaces the records of sections 1 to `upto` in the journal by the values of the registers
    /// after these sections. The core (the node of the algorithm) takes no step, nothing is sent,
    /// and no memory is allocated.
    ///
    /// # Errors
    ///
    /// Returns `Below` with the number of the base if that is above `upto`, and `Gap` with the
    /// first number up to `upto` that the journal does not cover.
    pub fn settle(&mut self, upto: u64) -> Result<(), SettleFault>
        ensures answer { result ≡ (settle_of upto self.old.me.member).answer }
        ensures done { OnOk result (self.new ≡ does C.core (Settle upto) self.old) }
        ensures refused { OnErr result (self.new ≡ self.old) }
    {
        match self.does(Act::Settle(upto)) {
            Answer::Settled(done) => done,
            _ => unreachable!(),
        }
    }

    /// Sends all outstanding letters again, since any letter may be lost.
    pub fn tick(&mut self)
        ensures { self.new ≡ does C.core Tick self.old }
    {
        let _ticked = self.does(Act::Tick);
    }

    /// Asks the node `to` for the records that the journal lacks.
    pub fn want(&mut self, to: NodeId)
        requires { to < self.old.nodes }
        ensures { self.new ≡ does C.core (Want to) self.old }
    {
        let _wanted = self.does(Act::Want(to));
    }

    /// Restarts the node: core and journal are unchanged, and the draft is emptied.
    pub fn restart(&mut self)
        ensures { self.new ≡ does C.core Restart self.old }
    {
        let _woken = self.does(Act::Restart);
    }

    /// Leaves the section, adds its record to the journal and its receipt to those of this station,
    /// and returns the receipt.
    ///
    /// # Errors
    ///
    /// Returns `NotInside` if the node is not inside, and `Memory` if memory runs out. Memory is
    /// allocated before anything changes.
    pub fn leave(&mut self) -> Result<Receipt, CloseFault>
        ensures not_inside { (result ≡ Err CloseFault.NotInside)
            ↔ (IsInside C.core self.old.me.member.core → ⊥) }
        ensures answer { IfOk result (λ receipt.
            (leave_of C.core self.old.me.member).answer ≡ Ok receipt) }
        ensures done { OnOk result (self.new ≡ does C.core Leave self.old) }
        ensures memory { result ≡ Err CloseFault.Memory → IsInside C.core self.old.me.member.core
            × (self.new ≡ self.old) }
        ensures refused { OnErr result (self.new ≡ self.old) }
    {
        let receipt = close(&mut self.member, &mut self.receipts, &mut self.out)?;
        tell!(self);
        Ok(receipt)
    }

    fn does(&mut self, act: Act<C::Msg>) -> Answer
        requires { IsPlain self.old.nodes act }
        ensures answer { result ≡ (act_of C.core act self.old.me.member).answer }
        ensures done { OnDone result (self.new ≡ does C.core act self.old) }
        ensures refused { OnRefusal result (self.new ≡ self.old) }
    {
        self.out.clear();
        let Ok(answer) = perform(&mut self.member, act, &mut self.out) else {
            unreachable!();
        };
        if is_refusal(&answer) {
            return answer;
        }
        tell!(self);
        answer
    }

    pub(crate) fn hand_over(&mut self, again: bool) -> Result<(), TakeFault>
        requires { (from : ℕ) × (p : OneParcel C.Msg) × (self.old.me.hand ≡ Some (from, p))
            × IsTakeable from p self.old.me.member }
        ensures delivered { OnOk result (DeliversAs C.core again self.old self.new) }
        ensures held { OnErr result (HoldsUnknown C.core self.old) }
        ensures memory { OnErr result (self.new ≡ self.old) }
    {
        let Some(held) = &self.hand else {
            unreachable!();
        };
        self.out.clear();
        self.member.receive(held.0, &held.1, &mut self.out)?;
        let_go(&mut self.hand, again);
        tell!(self);
        Ok(())
    }
}

fn close<C: Exclusion>(
    member: &mut Member<C>,
    receipts: &mut Vec<Receipt>,
    out: &mut Outbox<Parcel<C::Msg>>,
) -> Result<Receipt, CloseFault>
    ensures not_inside { (result ≡ Err CloseFault.NotInside)
        ↔ (IsInside C.core member.old.core → ⊥) }
    ensures memory { result ≡ Err CloseFault.Memory → IsInside C.core member.old.core }
    ensures answer { IfOk result (λ receipt. (leave_of C.core member.old).answer ≡ Ok receipt) }
    ensures state { OnOk result (member.new ≡ (leave_of C.core member.old).state) }
    ensures letters { OnOk result (out.new ≡ (leave_of C.core member.old).letters) }
    ensures receipts { IfOk result (λ receipt.
        receipts.new.items ≡ receipts.old.items ++ receipt ∷ []) }
    ensures kept { OnErr result ((member.new ≡ member.old)
        × (receipts.new.items ≡ receipts.old.items)) }
{
    let Phase::Inside(_) = member.phase() else {
        return Err(CloseFault::NotInside);
    };
    make_room(receipts)?;
    out.clear();
    let receipt = member.leave(out)?;
    receipts.push_reserved(receipt.copy());
    Ok(receipt)
}

fn is_refusal(answer: &Answer) -> bool
    ensures { MatchBool result (IsRefusal answer.now) (IsRefusal answer.now → ⊥) }
{
    match answer {
        Answer::Asked(stamp) => stamp.is_err(),
        Answer::Entered(number) => number.is_err(),
        Answer::Read(value) => value.is_err(),
        Answer::Left(receipt) => receipt.is_err(),
        Answer::Written(done) => done.is_err(),
        Answer::Cancelled(done) => done.is_err(),
        Answer::Settled(done) => done.is_err(),
        Answer::Ticked | Answer::Wanted | Answer::Delivered | Answer::Woken => false,
    }
}

fn let_go<M: Copy + Default>(hand: &mut Option<(NodeId, Parcel<M>)>, again: bool)
    ensures { hand.new ≡ left_in again hand.old }
{
    if !again {
        *hand = None;
    }
}

fn make_room(receipts: &mut Vec<Receipt>) -> Result<(), CloseFault>
    ensures same { receipts.new.items ≡ receipts.old.items }
    ensures room { OnOk result (vec_len receipts.new < vec_capacity receipts.new) }
    ensures memory { OnErr result (result ≡ Err CloseFault.Memory) }
{
    match receipts.reserve(1) {
        Ok(()) => Ok(()),
        Err(_) => Err(CloseFault::Memory),
    }
}
