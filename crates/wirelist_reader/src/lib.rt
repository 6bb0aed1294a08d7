//! The wirelist, read: records of `csv` in, a program out.
//!
//! - [`read`] gives the program that a file says, or refuses the file for its first fault. `refusals` of specs/Refusals.antt
//!   lists all faults of a file in order: of each row below those before it, then of the whole. `program_of` of
//!   specs/Rows.antt is what the rows say, and `IsProgram` is what a wirelist can give.
//! - [`laws`] says that the canonical text of a program is read as that program.
#![tactic(auto)]

mod build;
mod check;
mod field;
mod kind;
pub mod laws;
mod parts;
mod reading;
mod seen;

pub use kind::{Kind, Shape};
pub use reading::read;

#[cfg(test)]
mod tests;
