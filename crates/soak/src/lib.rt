//! The soak: two units of known wiring are tested after each other on one simulator.
//!
//! [`run_pair`] tests the units GOOD 1 and BAD 1 of `soak_pair`. Their outcomes are the defined ones, each seating has a tally that
//! counts enough for its outcome, and the trail is that of BAD 1 (specs/Soaked.antt). It stops only where memory ran out or the rig
//! counted a fault; the source is then at zero, or three zero calls failed and the answer says so.
#![tactic(auto)]

mod run;

pub use run::{SoakStop, Soaked, run_pair};
