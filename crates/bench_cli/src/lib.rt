//! The top call of the station.
//!
//! [`bench`] does what the words ask, over the sources of two files and of the input, a sink, a disk, a clock, a door and
//! memory. Its promises are the fields of `IsRun` (specs/Promises.antt), over the words, the bytes that the sources had left, what
//! the sink got, what is known of the disk, the clock and the door before and after, the status and the rig that is handed out:
//!
//! - the frame, over any command: words that are none, files that are refused or of other numbers of points, reads that fail,
//!   want of memory, what is left alone, and when the rig is handed out;
//! - `obeyed`: what the command that was asked for promises, in a file of its own: `continuity` (specs/Checking.antt), `learn`
//!   (specs/Learning.antt), `run` (specs/Scripting.antt, with the headline), `import` (specs/Importing.antt), `serve`
//!   (specs/Serving.antt), `report`, `unit` and `export` (specs/Reporting.antt), `soak` (specs/Soaking.antt).
//!
//! A new command has a line in each function of specs/Commands.antt and specs/Works.antt, a file for its promise, an arm of
//! `obey`, and an equation in proofs/Framing.antt and proofs/IsRunFacts.antt.
//!
//! [`check_unit`] and [`learn_unit`] do the part from the seat to the text over any rig.
#![tactic(auto)]

mod check;
mod closing;
mod files;
mod learning;
mod printing;
mod scripting;
mod serial_import;
mod service;
mod soaking;
mod taking;
mod top;
mod unit;
mod wires;

pub use check::check_unit;
pub use learning::learn_unit;
pub use script::{RunEnd, run_script};
pub use serving::serve_all;
pub use top::{Ended, bench};
pub use unit::UnitEnded;

#[cfg(test)]
mod tests;
