//! The program of a harness, and the outcome of a unit's test.
//!
//! - [`Program`] is what a wirelist gives: nets with their names, components with their windows, the tests at high voltage.
//! - [`print`] gives a program's one canonical text, whose rows specs/Canonical.antt lists.
//! - [`clusters`] gives the partition of the judged points by cluster; [`laws`] says that two of them are in one cluster
//!   exactly where a walk of components leads from the net of the one to that of the other. A point that is not judged is
//!   in no cluster.
//! - [`Outcome`] is what the test of a unit found, and its verdict has the lengths of its lists. specs/Ranges.antt says in
//!   which ranges records keep outcomes.
//! - [`ranges`] has the range of each number of a wirelist, as specs/Numbers.antt defines it.
//! - [`WireRefusal`] names the ways in which a wirelist is refused.
#![tactic(auto)]

mod cluster;
mod faults;
pub mod laws;
mod outcome;
mod parts;
mod printing;
mod program;
pub mod ranges;
mod refusal;
#[cfg(test)]
mod tests;

pub use cluster::{cluster_count, clusters};
pub use faults::{LeakFault, LeakFaults, PartFault, PartFaultKind, PartFaults};
pub use outcome::{Outcome, Verdict};
pub use parts::{Diode, Diodes, Names, Resistor, Resistors};
pub use printing::print;
pub use program::{Insulation, Program, Withstand};
pub use refusal::WireRefusal;
