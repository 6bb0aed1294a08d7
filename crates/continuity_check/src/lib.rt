//! The check of a unit's continuity, as it is printed.
//!
//! [`check_nets`] reads each point of each named net against the net's head, in order, and makes the text of what it found: a
//! line `open NET POINT` for each point that does not conduct with its head, then `PASS`, or `FAIL n` with their number.
//!
//! - The readings that it adds to the trail are exactly these, each with the answer that the text states. So points of
//!   nets alone are read, and none that is not judged.
//! - Where the rig is honest and tells the unit, each answer is that of the unit's joins.
//! - A refusal leaves the readings made so far; `Failed` comes only where the rig's faults rose, and then the call that
//!   failed is the last one.
#![tactic(auto)]

mod check;
mod sheet;

pub use check::check_nets;
pub use sheet::Sheet;
