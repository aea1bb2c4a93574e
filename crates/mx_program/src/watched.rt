//! The files of the process, as they are read.

use mx_io::{Refusal, Source, SourceFault, Streams};
use std::alloc::Global;
use std::rt::Files;

/// The files and the standard input of the process, and whether what was read last has a JSON
/// object.
#[derive(Drop)]
pub(crate) struct Watched<'a, R: Files + Input> {
    streams: Streams<'a, R>,
    lacks_objects: bool,
}

impl<'a, R: Files + Input> Watched<'a, R> {
    pub(crate) fn new(rt: &'a R) -> Self {
        Watched {
            streams: Streams { rt },
            lacks_objects: false,
        }
    }

    /// Whether something was read, and what was read last has no JSON object.
    pub(crate) fn lacks_objects(&self) -> bool {
        self.lacks_objects
    }
}

impl<R: Files + Input> Source for Watched<'_, R> {
    fn bytes(&mut self, alloc: Global, name: &str) -> Result<Vec<u8>, SourceFault> {
        let bytes = self.streams.bytes(alloc, name)?;
        self.lacks_objects = !bytes.as_slice().contains(&b'{');
        Ok(bytes)
    }

    fn fetched(&mut self, alloc: Global, name: &str) -> Result<Vec<u8>, Refusal> {
        self.streams.fetched(alloc, name)
    }
}
