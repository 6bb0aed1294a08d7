//! The pair of units that a soak runs.
//!
//! - [`soak_program`] gives the program of a number of points: a net for each two of them, and a test of withstand. It is one
//!   that a wirelist can give.
//! - [`soak_rig`] gives the simulator of the harness with the units GOOD 1, wired as the program says, and BAD 1, which differs
//!   by an open, a swap and a short in every 32 points (specs/Pair.antt).
//! - [`soak_text`] gives the line of two verdicts.
#![tactic(auto)]

mod line;
mod program;
mod units;

pub use line::soak_text;
pub use program::soak_program;
pub use units::soak_rig;
