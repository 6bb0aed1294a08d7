//! What the test of a unit finds, and what it leaves of a rig: the words in which the test itself and all above it speak.
//!
//! - specs/Defined.antt has the outcome of a program and a unit: the first of wiring, components, insulation, withstand and pass that
//!   applies, and the volts that outlast the discharge of a charged unit. It knows no calls.
//! - specs/Enough.antt says what the tally of a seating has to count for an outcome.
//! - specs/Tested.antt says what a whole test leaves, whatever it answers.
//! - [`UnitRun`] and [`UnitStop`] are its answers.
//! - [`laws`] says that the two tests at high voltage give just the defined outcome.
#![tactic(auto)]

pub mod laws;
mod run;

pub use run::{UnitRun, UnitStop};
