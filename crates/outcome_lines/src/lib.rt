//! What a report says of the outcome of a unit's test.
//!
//! - [`write_verdict`] appends a verdict, as `WIRING opens=1 shorts=0 miswires=0`.
//! - [`write_decimal`] appends a number.
//! - [`write_outcome`] appends a line for each thing that an outcome names: opens, shorts and miswires, faulty components,
//!   clusters that leak, or the step at which the withstand test ended. [`wiring_lines`] gives those of a difference alone.
//! - The lines name nets, components and clusters by their labels under the program of the test (specs/Labels.antt): a net by
//!   its name, or `pt` and the point where it is a judged point of no named net; a cluster as its first net. What the program
//!   does not have, or has no program, is `#` and the number.
//! - Every call is a function of the outcome and the program, also where the two do not belong together. Want of memory is the
//!   only refusal.
#![tactic(auto)]

mod decimal;
mod details;
mod faults;
mod firsts;
mod labels;
mod verdict;
mod wiring;

pub use decimal::write_decimal;
pub use details::write_outcome;
pub use verdict::write_verdict;
pub use wiring::wiring_lines;
