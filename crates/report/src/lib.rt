//! The reports of the records of a station.
//!
//! - [`unit_report`] tells what became of one unit: its status, and a line for each of its records, with the lines of what a
//!   test found. It is None exactly where the serial is not enrolled.
//! - [`lot_report`] counts serials and tests.
//! - [`results_csv`] has a row for each test, written by `csv`.
//! - [`wiring_lines`] gives the lines of a difference alone.
//!
//! Each is a function of the plain list of records, which specs/ states (UnitText, LotText, ResultText), also for lists that
//! the station's rules never made. The program of a test, by whose names its lines call nets, components and clusters, is the
//! last one adopted before it. Want of memory is the only refusal.
#![tactic(auto)]

mod counts;
mod dates;
mod lot;
mod programs;
mod results;
mod rows;
mod unit;

pub use lot::lot_report;
pub use outcome_lines::wiring_lines;
pub use rows::results_csv;
pub use unit::unit_report;

#[cfg(test)]
mod tests;
