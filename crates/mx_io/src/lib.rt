//! The sources, stores and outputs of the commands, and the arguments, files and streams of the process.
#![tactic(auto)]

mod counted;
mod given;
mod output;
mod source;
mod store;
mod stream;
mod streams;

pub use counted::Counted;
pub use given::{as_slices, given_words, status_of};
pub use output::{Output, OutputFault};
pub use source::{Source, SourceFault, Table};
pub use store::Store;
pub use stream::Stream;
pub use streams::{MAX_BYTES, Refusal, Streams, read_name};
