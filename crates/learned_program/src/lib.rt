//! The program that is learned of a unit.
//!
//! [`program_of`] gives the program whose nets are the learned classes of two points or more, in order of least point, with
//! the names N1, N2 and so on. Its part is `LEARNED`, its revision 1, it has no component and no test at high voltage, and
//! a unit of it has 3 attempts. All of its points are judged. [`laws`] says that its nets have the learned classes as partition.
#![tactic(auto)]

mod classes;
pub mod laws;
mod names;
mod program;
mod text;

pub use program::program_of;
pub use text::text_of;

#[cfg(test)]
mod tests;
