//! The files of the system and the standard input of the process, as a source; the files as a store.

ghost use Rattle.std.specs.Prelude.{◌≡◌, ◌≤◌, length, IfOk, IfSome};

use crate::counted::Counted;
use crate::source::{Source, SourceFault};
use crate::store::Store;
use std::alloc::Global;
use std::io::{ErrorKind, Read};
use std::rt::Files;
use std::{fs, io};

/// The greatest length, in bytes, of a file or of standard input.
pub const MAX_BYTES: u64 = 268_435_456;

/// Why a name cannot be read or written.
#[derive(Clone, Copy)]
pub enum Refusal {
    /// It cannot be read or written, for this reason.
    Because(&'static str),
    /// Memory ran out.
    Memory,
}

impl Refusal {
    /// Returns the refusal as the fault of a source, without its reason.
    pub fn fault(self) -> SourceFault {
        match self {
            Refusal::Because(_) => SourceFault::Unreadable,
            Refusal::Memory => SourceFault::Memory,
        }
    }
}

/// A source and a store of files, by their paths; and of standard input, by the name `-`, a source.
#[derive(Drop)]
pub struct Streams<'a, R: Files + Input> {
    /// The runtime that opens files and reads standard input.
    pub rt: &'a R,
}

impl<R: Files + Input> Source for Streams<'_, R> {
    fn bytes(&mut self, alloc: Global, name: &str) -> Result<Vec<u8>, SourceFault> {
        match read_name(self.rt, alloc, name) {
            Ok(bytes) => Ok(bytes),
            Err(refusal) => Err(refusal.fault()),
        }
    }

    fn fetched(&mut self, alloc: Global, name: &str) -> Result<Vec<u8>, Refusal> {
        read_name(self.rt, alloc, name)
    }
}

impl<R: Files + Input> Store for Streams<'_, R> {
    fn put(&mut self, name: &str, bytes: &[u8]) -> Result<(), Refusal> {
        match fs::write(self.rt, name, bytes) {
            Ok(()) => Ok(()),
            Err(e) => Err(unwritten_for(&e)),
        }
    }
}

/// Reads a file, or standard input if the name is `-`.
///
/// # Errors
///
/// Returns `Because` with the reason if it cannot be read, and `Memory` if memory runs out.
pub fn read_name<R: Files + Input>(rt: &R, alloc: Global, name: &str) -> Result<Vec<u8>, Refusal> {
    if name == "-" {
        return read_all(alloc, rt.reader());
    }
    match fs::open(rt, name) {
        Ok(file) => read_all(alloc, file),
        Err(e) => Err(refused_for(&e)),
    }
}

/// Reads all bytes of a reader. Returns an error if there are more than 268,435,456, and never a
/// part of them.
fn read_all<R: Read + Drop>(alloc: Global, reader: R) -> Result<Vec<u8>, Refusal>
    ensures all { IfOk result (λ bytes. IfSome (R.remaining reader) (λ all. bytes.items ≡ all)) }
    ensures within { IfOk result (λ bytes. length bytes.items ≤ MAX_BYTES) }
{
    let mut bytes = Vec::new(alloc);
    let mut counted = Counted::new(reader.take(MAX_BYTES + 1));
    match counted.read_to_end(&mut bytes) {
        Ok(_) if bytes.len() as u64 > MAX_BYTES => {
            Err(Refusal::Because("it has more than 268435456 bytes"))
        }
        Ok(_) => Ok(bytes),
        Err(e) => Err(refused_for(&e)),
    }
}

fn refused_for(e: &io::Error) -> Refusal {
    match e.kind() {
        ErrorKind::OutOfMemory => Refusal::Memory,
        ErrorKind::NotFound => Refusal::Because("there is no file of this name"),
        ErrorKind::PermissionDenied => Refusal::Because("who runs mx may not read it"),
        ErrorKind::IsADirectory => Refusal::Because("it is a folder"),
        ErrorKind::NotADirectory => Refusal::Because("a part of its path is no folder"),
        ErrorKind::TimedOut => Refusal::Because("it takes more than 268435456 reads"),
        _ => Refusal::Because("the system fails to read it"),
    }
}

fn unwritten_for(e: &io::Error) -> Refusal {
    match e.kind() {
        ErrorKind::OutOfMemory => Refusal::Memory,
        ErrorKind::NotFound => Refusal::Because("there is no folder of this path"),
        ErrorKind::PermissionDenied => Refusal::Because("who runs mx may not write it"),
        ErrorKind::IsADirectory => Refusal::Because("it is a folder"),
        ErrorKind::NotADirectory => Refusal::Because("a part of its path is no folder"),
        ErrorKind::StorageFull => Refusal::Because("no space is left"),
        _ => Refusal::Because("the system fails to write it"),
    }
}
