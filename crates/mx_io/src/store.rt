ghost use Rattle.std.specs.Prelude.{◌≡◌, ℕ, List, [], ◌∷◌, Option, None, OnOk, OnErr};
ghost use Rattle.mx_io.specs.Stored.{Stored, Stores};

use crate::streams::Refusal;

/// A store of named bytes.
pub trait Store {
    // what was stored, if that is known
    ghost stored: { Self → Stored } = { λ _. None };

    /// Stores bytes under a name, in place of those that it had.
    ///
    /// # Errors
    ///
    /// Returns `Because` with the reason if they cannot be stored, and `Memory` if memory runs out.
    fn put(&mut self, name: &str, bytes: &[u8]) -> Result<(), Refusal>
        ensures ok { OnOk result
            (Stores (stored self.old) (stored self.new) ((name.now, bytes.now) ∷ [])) }
        ensures err { OnErr result (Stores (stored self.old) (stored self.new) []) };
}
