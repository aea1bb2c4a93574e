ghost use Rattle.std.specs.Prelude.{◌≡◌, ℕ, List, Bool, Option, Some, None, true, false, IfErr, OnOk, OnErr};
ghost use Rattle.std.specs.Io.KnownBytes.{Appends, Keeps};
ghost use Rattle.mx_io.specs.Outputs.{refused_by};

use std::alloc::{AllocError, Global};
use thiserror::Error;

/// Why an output refuses a text.
#[derive(Clone, Copy, Debug, PartialEq, Eq, Error)]
pub enum OutputFault {
    /// The output does not take the text.
    #[error("the output refuses the text")]
    Refused,
    /// Memory ran out.
    #[error("out of memory")]
    Memory,
}

impl From<AllocError> for OutputFault {
    ghost use Rattle.std.specs.Prelude.{◌≡◌};
    ghost use Rattle.mx_io.specs.declared.output.OutputFault.TheVariants.{Memory};

    ghost from_gives = { λ _ fault. fault ≡ Memory };

    fn from(_e: AllocError) -> OutputFault {
        OutputFault::Memory
    }
}

/// An output of texts.
pub trait Output {
    // the bytes that it holds, if they are known
    ghost written: { Self → Option (List ℕ) } = { λ _. None };

    // whether it takes all bytes, unless memory runs out
    ghost takes_all: { Self → Bool } = { λ _. false };

    // whether it has refused something, or nothing is known of that
    ghost has_refused: { Self → Bool } = { λ _. true };

    // whether it has taken bytes that it has not passed on yet, or nothing is known of that
    ghost keeps_back: { Self → Bool } = { λ _. true };

    /// Writes a text: all of it, or nothing.
    ///
    /// # Errors
    ///
    /// Returns `Refused` if the output does not take the text, and `Memory` if memory runs out.
    fn put(&mut self, text: &[u8]) -> Result<(), OutputFault>
        ensures ok { OnOk result (Appends (written self.old) (written self.new) text.now) }
        ensures err { OnErr result (Keeps (written self.old) (written self.new)) }
        ensures refused { has_refused self.new ≡ refused_by result (has_refused self.old) }
        ensures takes { IfErr result (λ fault.
            takes_all self.old ≡ true → fault ≡ OutputFault.Memory) }
        ensures stays { takes_all self.new ≡ takes_all self.old };

    /// Passes on all bytes that the output has taken.
    ///
    /// # Errors
    ///
    /// Returns `Refused` if the output does not pass them on, and `Memory` if memory runs out.
    fn flush(&mut self) -> Result<(), OutputFault>
        ensures same { Keeps (written self.old) (written self.new) }
        ensures passed { OnOk result (keeps_back self.new ≡ false) }
        ensures refused { has_refused self.new ≡ refused_by result (has_refused self.old) }
        ensures takes { IfErr result (λ fault.
            takes_all self.old ≡ true → fault ≡ OutputFault.Memory) }
        ensures stays { takes_all self.new ≡ takes_all self.old };
}

impl Output for Vec<u8> {
    ghost written = { λ v. Some v.items };

    ghost takes_all = { λ _. true };

    ghost has_refused = { λ _. false };

    ghost keeps_back = { λ _. false };

    fn put(&mut self, text: &[u8]) -> Result<(), OutputFault> {
        Ok(self.extend_from_slice(text)?)
    }

    fn flush(&mut self) -> Result<(), OutputFault> {
        Ok(())
    }
}
