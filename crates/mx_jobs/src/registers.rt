//! The values of the registers after the sections of a journal, as a list.

ghost use Rattle.std.specs.Prelude.{◌≡◌, ◌≤◌, get_or, map};
ghost use Rattle.mx_stamps.specs.declared.limits.TheConstants.{MAX_REGISTERS};
ghost use Rattle.mx_jobs.specs.Laws.{contents_of, values_in};

use arrayvec::ArrayVec;
use mx_journal::Journal;
use mx_registers::{View, view};
use mx_stamps::MAX_REGISTERS;

const ROOM: usize = MAX_REGISTERS as usize;

/// Returns the values of the first `count` registers after the sections of the journal, in order. A
/// register that no section wrote is 0.
pub fn contents(journal: &Journal, count: u8) -> ArrayVec<u64, ROOM>
    requires least { 1 ≤ count }
    requires most { count ≤ MAX_REGISTERS }
    ensures { result.items ≡ contents_of count journal.now }
{
    let view = view(journal, count);
    let mut contents = ArrayVec::new();
    for register in 0..count {
        contents.push(value_of(&view, register));
    }
    contents
}

fn value_of(view: &View, register: u8) -> u64
    ensures { result ≡ get_or (values_in view.now) register 0 }
{
    view.value(register).unwrap_or(0)
}
