//! The registers that sections share: their contents after the writes of closed sections.
#![tactic(auto)]

mod contents;
mod registers;
mod views;

pub use contents::Content;
pub use registers::View;
pub use views::{view, view_below, view_of};
