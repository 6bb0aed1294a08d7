//! The harness file of the simulator: its points, its units, and the calls that fail.
//!
//! - [`Harness::read`] takes a file in form (specs/Harness.antt, `IsHarness`) and gives what its rows say (`IsOfRows`): the
//!   number of points, the numbers of the calls that fail and of the interlock readings that are open, and the units with
//!   their rows. All rows of a unit lie between two different points of the harness, and their values are in the ranges of
//!   the format (`IsSound`). Every other file is refused for the first cause in the order of the format, with its line
//!   (`IsRefused`); want of memory alone has no cause in the file.
//! - [`laws`]: a file has one list of rows or one refusal, and never both.
//! - [`join`] gives the classes of the points that a unit's rows join. Reading takes time about proportional to the file.
#![tactic(auto)]

mod above;
mod file;
mod forest;
pub mod laws;
mod list;
mod numbers;
mod refusal;
mod row;
mod second;
mod units;

pub use file::Harness;
pub use forest::join;
pub use numbers::CallNumbers;
pub use refusal::HarnessRefusal;
pub use row::HarnessRow;

#[cfg(test)]
mod tests;
