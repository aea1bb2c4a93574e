ghost use Rattle.std.specs.Prelude.{◌≡◌, ℕ, List, [], ◌∷◌, Option, Some, None, IfSome};
ghost use Rattle.mx_io.specs.Told.{Asks, Telling, Tells, bytes_of, entries_of};

use crate::streams::Refusal;
use std::alloc::{AllocError, Global};
use thiserror::Error;

/// Why a source returns no bytes.
#[derive(Clone, Copy, Debug, PartialEq, Eq, Error)]
pub enum SourceFault {
    /// No such name exists, or it cannot be read.
    #[error("the name cannot be read")]
    Unreadable,
    /// Memory ran out.
    #[error("out of memory")]
    Memory,
}

/// A source of named bytes.
pub trait Source {
    // what it holds under a name, if that is known: its bytes, or that it cannot be read
    ghost told: { Self → List ℕ → Option Telling } = { λ _ _. None };

    // the names that were read, in order, if they are known
    ghost asked: { Self → Option (List (List ℕ)) } = { λ _. None };

    /// Returns the bytes that the source has under a name. The name `-` is standard input.
    ///
    /// # Errors
    ///
    /// Returns `Unreadable` if the name does not exist or cannot be read, and `Memory` if memory
    /// runs out.
    fn bytes(&mut self, alloc: Global, name: &str) -> Result<Vec<u8>, SourceFault>
        ensures tells { IfSome (told self.old name.now) (λ telling. Tells telling result) }
        ensures asks { Asks (asked self.old) (asked self.new) (name.now ∷ []) }
        ensures stays { told self.new ≡ told self.old };

    /// Returns the same bytes, perhaps of an earlier read, or why they cannot be read.
    ///
    /// # Errors
    ///
    /// Returns `Because` with the reason, and `Memory` if memory runs out.
    fn fetched(&mut self, alloc: Global, name: &str) -> Result<Vec<u8>, Refusal> {
        match self.bytes(alloc, name) {
            Ok(bytes) => Ok(bytes),
            Err(SourceFault::Unreadable) => Err(Refusal::Because("no reason is known")),
            Err(SourceFault::Memory) => Err(Refusal::Memory),
        }
    }
}

/// Named bytes in memory. If two entries have the same name, the first counts.
#[derive(Clone, Copy)]
pub struct Table<'a> {
    /// The names, each with its bytes.
    pub entries: &'a [(&'a str, &'a [u8])],
}

impl Source for Table<'_> {
    ghost told = { λ s name. Some (bytes_of (entries_of s.entries.now) name) };

    fn bytes(&mut self, alloc: Global, name: &str) -> Result<Vec<u8>, SourceFault> {
        for (key, bytes) in self.entries {
            if *key == name {
                return match Vec::from_slice(alloc, bytes) {
                    Ok(bytes) => Ok(bytes),
                    Err(AllocError) => Err(SourceFault::Memory),
                };
            }
        }
        Err(SourceFault::Unreadable)
    }
}
