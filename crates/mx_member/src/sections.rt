//! The calls of a member inside its section, and `restart` and `settle`.

ghost use Rattle.std.specs.Prelude.{ℕ, ◌≡◌, ◌≤◌, ◌<◌, ◌↔◌, [], ◌∷◌, Err, IfOk, Ok, OnErr, OnOk, length};
ghost use Rattle.mx_journal.specs.Settled.{Covers, with_list};
ghost use Rattle.mx_nodelaws.specs.Core.{IsInside};
ghost use Rattle.mx_member.specs.Member.{IsViewOf};
ghost use Rattle.mx_member.specs.Steps.{LacksItsRecord, leave_of, read_of, register_below, restart_of, settle_of, settled_fault, write_of};

use crate::faults::{CloseFault, ReadFault, WriteFault};
use crate::guards::guard_all;
use crate::member::Member;
use crate::parcel::Parcel;
use mx_journal::{Draft, Journal, Put, PutFault, Receipt, Record, SettleFault};
use mx_letters::Outbox;
use mx_nodelaws::{Exclusion, Phase};
use mx_registers::{View, view_below};

impl<C: Exclusion> Member<C> {
    /// Reads a register inside the section, and adds the read to the draft. Returns the value that
    /// this section wrote last to the register, or otherwise the value after the sections before.
    ///
    /// # Errors
    ///
    /// Returns the first fault, in the order of `ReadFault`: `NotInside` if the node is not inside,
    /// and `NoRegister` if there is no such register. `Gap` has the number of the first section
    /// before this one that the journal does not cover. `Full` means that the draft has eight reads
    /// already, and `Settled` that the journal's base covers this section.
    pub fn read(&mut self, register: u8) -> Result<u64, ReadFault>
        ensures state { self.new ≡ (read_of C.core register self.old).state }
        ensures answer { result ≡ (read_of C.core register self.old).answer }
    {
        let Phase::Inside(number) = self.core.phase() else {
            return Err(ReadFault::NotInside);
        };
        if register >= self.registers {
            return Err(ReadFault::NoRegister);
        }
        let known = self.journal.gapless_to();
        if known < number - 1 {
            return Err(ReadFault::Gap(known + 1));
        }
        if number <= self.journal.base().upto() {
            return Err(self.settled_or_full(number));
        }
        let before = self.value_below(number, register);
        let value = self.draft.last(register).unwrap_or(before);
        self.draft.read(register, value)?;
        Ok(value)
    }

    fn settled_or_full(&self, number: u64) -> ReadFault
        ensures { result ≡ settled_fault (length self.now.draft.reads) self.now.journal.base.upto }
    {
        if self.draft.close(number, self.me).reads.is_full() {
            ReadFault::Full
        } else {
            ReadFault::Settled(self.journal.base().upto())
        }
    }

    /// Writes a value to a register inside the section. The write is added to the draft, and no
    /// other node sees it before this one leaves.
    ///
    /// # Errors
    ///
    /// Returns `NotInside` if the node is not inside, `NoRegister` if there is no such register,
    /// and `Full` if the draft has eight writes already.
    pub fn write(&mut self, register: u8, value: u64) -> Result<(), WriteFault>
        ensures state { self.new ≡ (write_of C.core register value self.old).state }
        ensures answer { result ≡ (write_of C.core register value self.old).answer }
    {
        let Phase::Inside(_) = self.core.phase() else {
            return Err(WriteFault::NotInside);
        };
        if register >= self.registers {
            return Err(WriteFault::NoRegister);
        }
        self.draft.write(register, value)?;
        Ok(())
    }

    /// Leaves the section, adds its record to the journal, and returns its receipt. If a forged
    /// record or base covers the section's number already, no record is added, and no memory is
    /// needed.
    ///
    /// # Errors
    ///
    /// Returns `NotInside` if the node is not inside, and `Memory` if memory runs out. Memory is
    /// allocated before anything changes.
    pub fn leave(&mut self, out: &mut Outbox<Parcel<C::Msg>>) -> Result<Receipt, CloseFault>
        requires { out.old ≡ [] }
        ensures not_inside { (result ≡ Err CloseFault.NotInside)
            ↔ (IsInside C.core self.old.core → ⊥) }
        ensures memory { (result ≡ Err CloseFault.Memory) → LacksItsRecord C.core self.old }
        ensures state { OnOk result (self.new ≡ (leave_of C.core self.old).state) }
        ensures answer { IfOk result (λ receipt.
            (leave_of C.core self.old).answer ≡ Ok receipt) }
        ensures letters { OnOk result (out.new ≡ (leave_of C.core self.old).letters) }
        ensures err { OnErr result (self.new ≡ self.old) }
        ensures quiet { OnErr result (out.new ≡ []) }
    {
        let Phase::Inside(number) = self.core.phase() else {
            return Err(CloseFault::NotInside);
        };
        let receipt = self.draft.close(number, self.me);
        keep(&mut self.journal, &mut self.shown, &receipt.to_record())?;
        let _ = self.core.leave(&mut self.letters);
        guard_all(&mut self.letters, out);
        self.draft.clear();
        Ok(receipt)
    }

    /// Restarts the node: the draft is emptied, and core and journal are unchanged.
    pub fn restart(&mut self)
        ensures { self.new ≡ restart_of C.core self.old }
    {
        self.draft = Draft::new();
    }

    /// Replaces the records of sections 1 to `upto` by the registers after them. The core takes no
    /// step, nothing is sent, and no memory is allocated.
    ///
    /// # Errors
    ///
    /// Returns `Below` with the number of the last section that the base covers, if that is above
    /// `upto`. Returns `Gap` with the first number that the journal does not cover, if that is at
    /// most `upto`.
    pub fn settle(&mut self, upto: u64) -> Result<(), SettleFault>
        ensures state { self.new ≡ (settle_of upto self.old).state }
        ensures answer { result ≡ (settle_of upto self.old).answer }
    {
        // for the prover: the calls show the order of the journal, and that its base's sections
        // wrote the cells
        let _ = (self.journal.is_empty(), self.journal.base().upto());
        self.journal.settle(upto)
    }

    /// If the journal covers no section from `number` on, the view `shown` has the value.
    fn value_below(&self, number: u64, register: u8) -> u64
        requires { register < self.now.setting.registers }
        ensures { result ≡ (register_below register number self.now.journal).value }
    {
        if self.journal.top() < number {
            return self.shown.value(register).unwrap_or(0);
        }
        view_below(&self.journal, self.registers, number)
            .value(register)
            .unwrap_or(0)
    }
}

fn keep(journal: &mut Journal, shown: &mut View, entry: &Record) -> Result<(), CloseFault>
    requires { 0 < entry.now.number }
    ensures ok { OnOk result (journal.new ≡ with_list (entry.now ∷ []) journal.old) }
    ensures memory { OnErr result (result ≡ Err CloseFault.Memory) }
    ensures missing { OnErr result (Covers entry.now.number journal.old → ⊥) }
    ensures err { OnErr result (journal.new ≡ journal.old) }
    ensures shown { (count : ℕ) → IsViewOf count journal.old shown.old
        → IsViewOf count journal.new shown.new }
{
    // for the prover: the call shows the order of the journal
    let _ = journal.is_empty();
    match journal.put(entry.copy()) {
        Ok(Put::New) => {
            shown.take(entry);
            Ok(())
        }
        Ok(Put::Same) => Ok(()),
        Err(PutFault::Memory) => Err(CloseFault::Memory),
        // another record has the number, and remains
        Err(PutFault::Conflict(_)) => Ok(()),
        // the number of a section is above 0
        Err(PutFault::ZeroNumber) => Ok(()),
    }
}
