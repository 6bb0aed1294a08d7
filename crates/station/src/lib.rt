//! One command of the station, on a rig and a disk.
//!
//! - [`load`] opens the journal on a disk and finds its records. [`Station::mount`] does the same for a rig and a program.
//! - [`Station::apply`] is the machine's step. By the decision of the records it answers `Same` or `No`, stores the command's record,
//!   or tests the unit and stores the record of what was found. Its contract says which reply and which records may come of which
//!   command; what was done to the rig for each answer; and what a crash may leave on the disk: at any moment the records before, or
//!   these and the new one, and after the answer just those behind it.
//! - At every exit the trail is in the order of high voltage and ended at zero, or three zero calls failed and the stop says so.
//! - [`answer_line`] is the line that an answer prints.
//! - [`laws`] says that a command whose id some record has leaves the records as they are.
#![tactic(auto)]

mod answer;
pub mod laws;
mod line;
mod making;
mod moments;
mod station;
mod stops;

pub use answer::{Answer, Refused};
pub use ledger::{Loaded, MountStop, load};
pub use line::answer_line;
pub use station::{Station, StepDone};
pub use stops::StepStop;
