ghost use Rattle.std.specs.Prelude.{ℕ, ◌≡◌, ◌≤◌, List, [], ◌∷◌, ◌++◌, length};
ghost use Rattle.mx_journal.specs.declared.records.Record.{Record};
ghost use Rattle.mx_journal.specs.Agreement.{AgreesWith};
ghost use Rattle.mx_journal.specs.Bases.{AreCellsOf, BaseState};
ghost use Rattle.mx_journal.specs.Records.{Ascending, with_record};
ghost use Rattle.mx_registers.specs.Based.{registers_from};
ghost use Rattle.mx_registers.specs.Registers.{registers_of, value_in, with_taken, writer_in};

use crate::contents::{BLANK, Content, shown_cell, write_all};
use arrayvec::ArrayVec;
use mx_journal::{Base, Record};
use mx_stamps::MAX_REGISTERS;
use std::marker::Model;

const ROOM: usize = MAX_REGISTERS as usize;

/// The contents of some registers, numbered from 0, after the records that were applied. Each
/// register has the last write to it in the record of the greatest number that writes it. Records
/// may be applied in any order, and more than once.
#[derive(Drop)]
pub struct View {
    contents: ArrayVec<Content, ROOM>,
}

impl Model for View {
    ghost use Rattle.std.specs.Prelude.{List};
    ghost use Rattle.mx_registers.specs.declared.contents.Content.{Content};

    ghost Value = { List Content };

    ghost view = { λ v. v.contents.items };
}

impl View {
    /// Creates a view of `count` (1 to 32) registers, which no section has written.
    pub fn new(count: u8) -> View
        requires least { 1 ≤ count }
        requires most { count ≤ MAX_REGISTERS }
        ensures { result ≡ registers_of count [] }
    {
        let mut contents = ArrayVec::new();
        for _ in 0..count {
            contents.push(BLANK);
        }
        View { contents }
    }

    pub(crate) fn at(base: &Base, count: u8) -> View
        requires least { 1 ≤ count }
        requires most { count ≤ MAX_REGISTERS }
        ensures value { result ≡ registers_from base.now count [] }
        ensures cells { AreCellsOf base.now.upto base.now.cells }
    {
        // for the prover: the call shows that the base's sections wrote the cells
        let _ = base.upto();
        let mut contents = ArrayVec::new();
        for register in 0..count {
            contents.push(shown_cell(base.cells()[usize::from(register)]));
        }
        View { contents }
    }

    /// Applies a record: each register that the record writes takes the record's last write to it,
    /// unless a section with a greater number wrote the register. Writes to registers that do not
    /// exist are skipped.
    pub fn take(&mut self, entry: &Record)
        ensures value { self.new ≡ with_taken entry.now self.old }
        ensures more { (count : ℕ) (records : List Record)
            → self.old ≡ registers_of count records
            → self.new ≡ registers_of count (records ++ entry.now ∷ []) }
        ensures from { (base : BaseState) (count : ℕ) (records : List Record)
            → self.old ≡ registers_from base count records
            → self.new ≡ registers_from base count (records ++ entry.now ∷ []) }
        ensures map { (count : ℕ) (records : List Record) → Ascending 1 records
            → AgreesWith entry.now records → self.old ≡ registers_of count records
            → self.new ≡ registers_of count (with_record entry.now records) }
    {
        write_all(
            self.contents.as_mut_slice(),
            entry.number,
            entry.writes.as_slice(),
        );
    }

    /// Returns the value of a register, or 0 if no section wrote it. Returns `None` if there is no
    /// such register.
    pub fn value(&self, register: u8) -> Option<u64>
        ensures { result ≡ value_in register self.now }
    {
        let content = self.contents.as_slice().get(usize::from(register))?;
        Some(content.value)
    }

    /// Returns the number of the section that wrote the register. Returns `None` if no section did,
    /// or if there is no such register.
    pub fn written_by(&self, register: u8) -> Option<u64>
        ensures { result ≡ writer_in register self.now }
    {
        let content = self.contents.as_slice().get(usize::from(register))?;
        content.by
    }

    /// Returns the number of registers.
    pub fn count(&self) -> u8
        ensures value { result ≡ length self.now }
        ensures bound { result ≤ MAX_REGISTERS }
    {
        self.contents.len() as u8
    }
}
