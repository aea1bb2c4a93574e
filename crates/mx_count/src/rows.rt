//! Rows: what is counted, before it is a text.

ghost use Rattle.std.specs.Prelude.{◌≡◌, ◌≢◌, ◌++◌, [], ◌∷◌, OnOk, Some};
ghost use Rattle.mx_count.specs.Rows.{mean_of, mean_text, rows_of, share_of};

use mx_stamps::NodeId;
use std::alloc::AllocError;
use std::fmt;

/// Where a row stands.
#[derive(Clone, Copy)]
pub(crate) enum Level {
    /// At the head of all rows.
    First,
    /// On a line of its own.
    Total,
    /// Below the total that it is a part of.
    Part,
    /// Below a part, as one of its kinds.
    Kind,
    /// At the head of a node's rows.
    Node(NodeId),
    /// On the line of the row before.
    Next,
}

/// A number with one decimal, rounded down.
#[derive(Clone, Copy)]
pub(crate) struct Mean {
    pub whole: u128,
    pub tenths: u128,
}

impl fmt::Display for Mean {
    ghost output = { λ m. Some (mean_text m) };

    fn fmt<W: fmt::Write>(&self, f: &mut fmt::Formatter<W>) -> fmt::Result {
        write!(f, "{}.{}", self.whole, self.tenths)
    }
}

/// What was counted.
#[derive(Clone, Copy)]
pub(crate) enum Value {
    Number(u64),
    Mean(Mean),
    /// The least, the mean and the greatest of some numbers.
    Spread(u64, Mean, u64),
    /// A mean or a spread of no numbers.
    Absent,
}

/// A row: where it stands, its name, and its value.
#[derive(Clone, Copy)]
pub(crate) struct Row<'a> {
    pub level: Level,
    pub name: &'a str,
    pub value: Value,
}

/// Adds a row after the others.
pub(crate) fn add_row<'a>(
    level: Level,
    name: &'a str,
    value: Value,
    rows: &mut Vec<Row<'a>>,
) -> Result<(), AllocError>
    ensures { OnOk result (rows_of rows.new.items
        ≡ rows_of rows.old.items ++ (level, name.now, value) ∷ []) }
{
    match rows.push(Row { level, name, value }) {
        Ok(()) => Ok(()),
        Err(_) => Err(AllocError),
    }
}

/// Divides a sum by the number of what was summed up.
pub(crate) fn mean_of(sum: u128, number: u64) -> Mean
    requires { number ≢ 0 }
    ensures { result ≡ mean_of sum number }
{
    let number = u128::from(number);
    Mean {
        whole: sum / number,
        tenths: sum % number * 10 / number,
    }
}

/// Divides letters by sections.
pub(crate) fn share_of(letters: u64, sections: u64) -> Value
    ensures { result ≡ share_of letters sections }
{
    if sections == 0 {
        return Value::Absent;
    }
    Value::Mean(mean_of(u128::from(letters), sections))
}
