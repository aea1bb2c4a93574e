//! A view of all nodes of a shared table, for a thread that owns none of their stations.

ghost use Rattle.std.specs.Prelude.{◌≡◌, IfOk};

use crate::field::Field;
use crate::station::Station;
use mx_nodelaws::Exclusion;
use std::alloc::{AllocError, Global};
use std::marker::Model;
use std::sync::Arc;

/// Shows the progress of all nodes of a cluster, while threads own their stations.
#[derive(Drop)]
pub struct Watch<C: Exclusion> {
    field: Arc<Field<C>, Global>,
}

impl<C: Exclusion> Model for Watch<C> {
    ghost use Rattle.std.specs.Prelude.{ℕ};
    ghost use Rattle.std.specs.Arc.{arc_value};
    ghost use Rattle.atomic_table.specs.Seated.{TableId};

    ghost Value = { TableId × ℕ };

    ghost view = { λ w. ((arc_value w.field).board.shared.table_id, (arc_value w.field).nodes) };
}

impl<C: Exclusion> Station<C> {
    /// Returns a watch over all nodes of this station's cluster.
    ///
    /// # Errors
    ///
    /// Returns `AllocError` if memory runs out.
    pub fn watch(&self) -> Result<Watch<C>, AllocError>
        ensures { IfOk result (λ watch. watch ≡ (self.now.table, self.now.nodes)) }
    {
        let field = Arc::try_clone(&self.field)?;
        Ok(Watch { field })
    }
}

impl<C: Exclusion> Watch<C> {
    /// Returns the number of sections completed so far, by the status words of all nodes. The words
    /// are read one after another, without a lock, and nothing is proved about the result.
    pub fn sections(&self) -> u64 {
        let field = &*self.field;
        let mut left = 0;
        for index in 0..field.nodes {
            let word = field.board.shared.peek(index as usize);
            left = left.max(sections_in(word));
        }
        left
    }
}

/// Returns how many sections, at least, were completed when a node had this status word: all up to
/// the node's last section, without this one if the word is odd (the node is inside).
fn sections_in(word: u64) -> u64 {
    (word / 2).saturating_sub(word % 2)
}
