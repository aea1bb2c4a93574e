ghost use Rattle.std.specs.Prelude.{ℕ, ◌≡◌, ◌<◌, length, get_or};
ghost use Rattle.mx_journal.specs.Drafted.{last_value};
ghost use Rattle.mx_journal.specs.Written.{after_one};
ghost use Rattle.mx_registers.specs.Based.{shown_cell};
ghost use Rattle.mx_registers.specs.Registers.{after_write, blank};

use mx_journal::{Cell, Write};

/// The contents of a register: a value, and the number of the section that wrote it. The value of a
/// register that no section wrote is 0.
#[derive(Clone, Copy, Debug, Default, PartialEq, Eq)]
pub struct Content {
    /// The value, 0 if no section wrote the register.
    pub value: u64,
    /// The number of the section that wrote the register, or `None` if none did.
    pub by: Option<u64>,
}

pub(crate) const BLANK: Content = Content { value: 0, by: None };

pub(crate) fn shown_cell(cell: Cell) -> Content
    ensures { result ≡ shown_cell cell }
{
    if cell.number == 0 {
        return BLANK;
    }
    Content {
        value: cell.value,
        by: Some(cell.number),
    }
}

pub(crate) fn write_all(contents: &mut [Content], number: u64, writes: &[Write])
    ensures { (register : ℕ) → register < length contents.old
        → get_or contents.new register blank
        ≡ after_write number (last_value register writes.now) (get_or contents.old register blank) }
{
    for write in writes {
        put(contents, number, *write);
    }
}

fn put(contents: &mut [Content], number: u64, write: Write)
    ensures { (register : ℕ) → register < length contents.old
        → get_or contents.new register blank
        ≡ after_one (after_write number) register write (get_or contents.old register blank) }
{
    let at = usize::from(write.register);
    if at >= contents.len() || number < contents[at].by.unwrap_or(0) {
        return;
    }
    contents[at] = Content {
        value: write.value,
        by: Some(number),
    };
}
