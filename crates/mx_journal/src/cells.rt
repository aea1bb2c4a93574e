ghost use Rattle.std.specs.Prelude.{ℕ, ◌≡◌, ◌<◌, ◌↔◌, get_or, IsTrue};
ghost use Rattle.mx_journal.specs.Bases.{AreCellsOf, IsCellOf, after_section, unwritten, with_section};
ghost use Rattle.mx_journal.specs.Drafted.{last_value};
ghost use Rattle.mx_journal.specs.Written.{after_one};

use crate::records::{Record, Write};
use mx_stamps::MAX_REGISTERS;

pub(crate) const REGISTERS: usize = MAX_REGISTERS as usize;

/// The contents of a register: a value, and the number of the section that wrote it, or 0 if none
/// did.
#[derive(Clone, Copy, Debug, Default, PartialEq, Eq)]
pub struct Cell {
    /// The value, 0 if no section wrote the register.
    pub value: u64,
    /// The number of the section that wrote it, or 0 if none did.
    pub number: u64,
}

fn is_cell_of(cell: &Cell, upto: u64) -> bool
    ensures { IsTrue result ↔ IsCellOf upto cell.now }
{
    cell.number <= upto && (cell.number >= 1 || cell.value == 0)
}

pub(crate) fn are_cells_of(cells: &[Cell], upto: u64) -> bool
    ensures { IsTrue result ↔ AreCellsOf upto cells.now }
{
    for cell in cells {
        if !is_cell_of(cell, upto) {
            return false;
        }
    }
    true
}

pub(crate) fn are_same_cells(cells: &[Cell], others: &[Cell]) -> bool
    ensures { IsTrue result ↔ (cells.now ≡ others.now) }
{
    cells == others
}

pub(crate) fn take_section(cells: &mut [Cell; REGISTERS], entry: &Record)
    ensures { cells.new ≡ with_section entry.now cells.old }
{
    write_all(cells, entry.number, entry.writes.as_slice());
}

fn write_all(cells: &mut [Cell; REGISTERS], number: u64, writes: &[Write])
    ensures { (register : ℕ) → register < MAX_REGISTERS → get_or cells.new register unwritten
        ≡ after_section number (last_value register writes.now)
        (get_or cells.old register unwritten) }
{
    for write in writes {
        put(cells, number, *write);
    }
}

fn put(cells: &mut [Cell; REGISTERS], number: u64, write: Write)
    ensures { (register : ℕ) → register < MAX_REGISTERS → get_or cells.new register unwritten
        ≡ after_one (after_section number) register write (get_or cells.old register unwritten) }
{
    let at = usize::from(write.register);
    if at < REGISTERS {
        cells[at] = Cell {
            value: write.value,
            number,
        };
    }
}
