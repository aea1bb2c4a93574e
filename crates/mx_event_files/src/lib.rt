//! `mx script`: a file of the events that the lines of a script ask for. A file of events is read back
//! as these events.
#![tactic(auto)]

mod files;
mod happening;
mod on_script;
mod script_command;
mod script_file;
mod texts;

pub use files::reads_back;
pub use happening::Happening;
pub use on_script::OnScript;
pub use script_command::{Script, file_of_bytes, run_script};
pub use texts::text_in;
