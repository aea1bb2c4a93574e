//! Bases: the registers after the first sections, which replace the records of these sections.

ghost use Rattle.std.specs.Prelude.{◌≡◌, ◌↔◌, IfSome, IsSome, IsTrue};
ghost use Rattle.mx_journal.specs.Bases.{AreCellsOf, BaseState, origin};

use crate::cells::{Cell, REGISTERS, are_cells_of, are_same_cells};
use std::marker::Model;

/// The registers after sections 1 to `upto`, which replace the records of these sections: the base
/// *covers* them. With `upto` 0 it covers no section, and no register has been written.
#[derive(Clone, Copy, Debug, PartialEq, Eq)]
pub struct Base {
    upto: u64,
    cells: [Cell; REGISTERS],
}

impl Model for Base {
    ghost use Rattle.mx_journal.specs.Bases.{AreCellsOf, BaseState};

    ghost Value = { BaseState };

    ghost view = { λ b. record { upto = b.upto; cells = b.cells } };

    ghost invariant = { λ b. AreCellsOf b.upto b.cells };

    ghost inverse = { λ s. record { upto = s.upto; cells = s.cells } };
}

impl Base {
    /// Creates the base of sections 1 to `upto`. The cells are the registers after these sections,
    /// from register 0 on. Returns `None` if a cell's number is above `upto`, or is 0 with a value
    /// other than 0.
    pub fn of(upto: u64, cells: [Cell; REGISTERS]) -> Option<Base>
        ensures some { IsSome result ↔ AreCellsOf upto cells }
        ensures value { IfSome result (λ base. base ≡ record { upto = upto; cells = cells }) }
    {
        if are_cells_of(&cells, upto) {
            Some(Base { upto, cells })
        } else {
            None
        }
    }

    pub(crate) fn origin() -> Base
        ensures { result ≡ origin }
    {
        Base {
            upto: 0,
            cells: [Cell {
                value: 0,
                number: 0,
            }; REGISTERS],
        }
    }

    pub(crate) fn with(upto: u64, cells: [Cell; REGISTERS]) -> Base
        requires { AreCellsOf upto cells }
        ensures { result ≡ record { upto = upto; cells = cells } }
    {
        Base { upto, cells }
    }

    /// Returns the number of the last section that the base covers, or 0 if it covers none.
    pub fn upto(&self) -> u64
        ensures value { result ≡ self.now.upto }
        // what holds for every base: its sections wrote each cell
        ensures cells { AreCellsOf self.now.upto self.now.cells }
    {
        self.upto
    }

    /// Returns the contents of the registers, in order, from register 0 on.
    pub fn cells(&self) -> &[Cell; REGISTERS]
        ensures { result.now ≡ self.now.cells }
    {
        &self.cells
    }

    /// Returns whether both are the same base.
    pub fn is(&self, other: &Base) -> bool
        ensures { IsTrue result ↔ (self.now ≡ other.now) }
    {
        self.upto == other.upto && are_same_cells(&self.cells, &other.cells)
    }
}
