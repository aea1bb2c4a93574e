//! A source that keeps what it has read.

ghost use Rattle.std.specs.Prelude.{◌<◌, IfSome, length};

use mx_io::{Refusal, Source, SourceFault};
use std::alloc::{AllocError, Global};

#[derive(Drop)]
pub(crate) struct CachedFile {
    name: String,
    bytes: Vec<u8>,
}

#[derive(Drop)]
pub(crate) struct CachedSource<'s, S: Source> {
    pub(crate) source: &'s mut S,
    pub(crate) files: Vec<CachedFile>,
}

impl<'s, S: Source> Source for CachedSource<'s, S> {
    ghost told = { λ c. S.told c.source.now };

    ghost asked = { λ c. S.asked c.source.now };

    fn bytes(&mut self, alloc: Global, name: &str) -> Result<Vec<u8>, SourceFault> {
        let bytes = match self.source.bytes(alloc, name) {
            Ok(bytes) => bytes,
            Err(fault) => return Err(fault),
        };
        match keep(alloc, &mut self.files, name, bytes.as_slice()) {
            Ok(()) => Ok(bytes),
            Err(_) => Err(SourceFault::Memory),
        }
    }

    fn fetched(&mut self, alloc: Global, name: &str) -> Result<Vec<u8>, Refusal> {
        match index_of(self.files.as_slice(), name) {
            Some(index) => Ok(self.files.swap_remove(index).bytes),
            None => self.source.fetched(alloc, name),
        }
    }
}

fn keep(
    alloc: Global,
    files: &mut Vec<CachedFile>,
    name: &str,
    bytes: &[u8],
) -> Result<(), AllocError> {
    let name = String::from_str(alloc, name)?;
    let bytes = Vec::from_slice(alloc, bytes)?;
    files.push(CachedFile { name, bytes })?;
    Ok(())
}

fn index_of(files: &[CachedFile], name: &str) -> Option<usize>
    ensures within { IfSome result (λ index. index < length files.now) }
{
    files.iter().position(|file| file.name.as_str() == name)
}
