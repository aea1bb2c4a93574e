ghost use Rattle.std.specs.Prelude.{◌≡◌};
ghost use Rattle.mx_explorer.specs.VerdictLines.{clause_word};

/// A rule for traces that an item can break.
#[derive(Clone, Copy, Debug, PartialEq, Eq)]
pub enum Clause {
    /// A node entered while a node, perhaps the same one, was inside; or a node left that was not
    /// inside, or was inside with another number.
    Overlap,
    /// The n-th section entered does not have the number n.
    Number,
    /// A node that was not inside read a value; or the value is not what the sections before and
    /// the node's own writes leave.
    Read,
}

impl Clause {
    /// Returns the word of the clause in a verdict.
    pub fn word(self) -> &'static str
        ensures { result.now ≡ clause_word self }
    {
        match self {
            Clause::Overlap => "overlap",
            Clause::Number => "number",
            Clause::Read => "read",
        }
    }
}

/// The verdict of a trace.
#[derive(Clone, Copy, Debug, PartialEq, Eq)]
pub enum Verdict {
    /// No clause is broken.
    Sound,
    /// The index, counted from 0, of the first item that breaks a clause, and the first clause that
    /// this item breaks.
    Broken(u64, Clause),
}
