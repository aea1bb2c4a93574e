//! What every command does before and after its own work. One reader turns words into a request, by
//! one table of all commands. One frame reads the plan and the text that comes with it, lets a
//! command print, flushes, and writes the line of a fault. A command sees no words, no source and no
//! standard error.
#![tactic(auto)]

mod arguments;
mod command;
mod examples;
mod faults;
mod files;
mod frame;
mod help;
mod line;
mod planning;
mod reader;
mod report;
mod request;
mod stop;
mod table;

pub use command::{Command, print};
pub use faults::{Fault, FaultLine, Named};
pub use files::{Files, fetch_files};
pub use frame::{close, front, run_files, stop_for};
pub use planning::{PlanAndText, are_dashes, fetch, fetch_both, fetch_plan, plan_in, split_line};
pub use reader::parse;
pub use report::{refuse, report_fault, report_memory, report_misfit, write_line};
pub use request::{
    Conditions, FileNames, LiveOptions, Misfit, PicturePart, RandomRun, Request, Task, ViewOptions,
};
pub use stop::{Stop, stop_with};
