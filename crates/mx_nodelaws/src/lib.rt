//! The interface of an exclusion algorithm: its calls, and the laws that it proves. The theorem of
//! the cluster holds for every implementation of `Exclusion`.
#![tactic(auto)]

mod exclusion;
mod faults;
mod phase;

pub use exclusion::Exclusion;
pub use faults::{AskFault, CancelFault, EnterFault, LeaveFault};
pub use phase::Phase;
