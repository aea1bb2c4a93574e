//! `mx picture`: the outcomes of events, or a trace, as a picture, a static SVG in which time runs
//! down.
#![tactic(auto)]

mod arrows;
mod bars;
mod columns;
mod command;
mod drawing;
mod fates;
mod labels;
mod legend;
mod letters;
mod losses;
mod marked;
mod open_arrows;
mod opening;
mod page;
mod part;
mod rows;
mod segment;
mod sent;
mod shapes;
mod sheet;
mod text;
mod trace_command;
mod trace_drawing;

pub use command::{Picture, PictureScript};
pub use trace_command::TracePicture;
