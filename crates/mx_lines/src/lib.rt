//! The lines of scripts, and of sessions, which `play` runs: what a line asks for, or which of its
//! words is wrong, and what was expected there.
#![tactic(auto)]

mod commands;
mod edits;
mod errors;
mod escapes;
mod line;
mod messages;
mod names;
mod numbers;
mod orders;
mod sides;
mod verbs;
mod words;

pub use commands::{SessionCommand, read_command};
pub use edits::nearest;
pub use errors::{Expected, LineError, LineFault, OwnWord};
pub use escapes::{Escaped, add_escaped_text};
pub use line::{Line, ScriptLine, first_error, read_line};
pub use messages::{
    FirstWords, Listed, Meant, Nearest, Quoted, meant_by, message, message_of_line,
    message_of_unknown_node,
};
pub use names::KnownNames;
pub use numbers::number_of;
pub use orders::{LinkChange, Order, Scope};
pub use sides::{Side, Sides};
pub use verbs::Verb;
pub use words::{place_of_word, words_in};
