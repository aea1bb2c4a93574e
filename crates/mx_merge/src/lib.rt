//! Journals together: whether they agree, their join, the sections that a journal lacks, and its
//! reply to another node that lacks records.
#![tactic(auto)]

mod agreement;
mod answers;
mod gaps;
mod join;

pub use agreement::agree;
pub use answers::answer;
pub use gaps::missing;
pub use join::{MergeFault, merge};
