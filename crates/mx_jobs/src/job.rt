//! What a node does in its sections.

ghost use Rattle.std.specs.Prelude.{IfNone, IfSome};

use arrayvec::ArrayVec;
use mx_journal::Write;

/// What a node does in its sections, one after another.
pub trait Job: Drop {
    ghost use Rattle.std.specs.Prelude.{IfNone, IfSome};
    ghost use Rattle.mx_jobs.specs.Laws.{KeepsLaw};
    ghost use Rattle.mx_jobs.specs.Terms.{Terms, no_terms};

    // the job may be asked for a section
    ghost ready: { Self → Type 0 } = { λ job. Unit {0} };

    // what the job promises of its sections; nothing by default
    ghost terms: { Terms Self } = { no_terms };

    /// Returns the registers that the next section reads, or `None` if the job is done.
    fn asks(&self) -> Option<ArrayVec<u8, 8>>
        ensures some { IfSome result (λ registers. terms.asks_for self.now registers.items) }
        ensures none { IfNone result (terms.finished self.now) };

    /// Runs the next section, and returns its writes. `number` is the section's number, and
    /// `values` are those of the registers that `asks` returned, in order.
    fn section(&mut self, number: u64, values: &[u64]) -> ArrayVec<Write, 8>
        requires { ready self.old }
        ensures ready { ready self.new }
        ensures made { terms.makes self.old number values.now result.items self.new }
        ensures keeps { KeepsLaw terms self.old number values.now result.items };
}
