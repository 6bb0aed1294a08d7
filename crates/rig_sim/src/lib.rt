//! Rigs without a device: the simulator, which reads as its file, and a rig that may lie.
//!
//! - [`SimRig::read`] takes a harness file. A file in form gives the rig of its rows: its points, its units with their rows, the
//!   calls that fail and the interlock readings that are open (specs/SimRig.antt, `IsNew`). Every other file is refused as
//!   [`harness::Harness::read`] says. [`SimRig::of_harness`] takes a harness that was made otherwise.
//! - [`SimRig`] is a [`rig::Rig`] that is honest and tells its units, the seated unit's rows, the trail and the tallies. Its
//!   k-th call, counted from the reading of the file, fails exactly where the file has a `fault` row with k or where the call
//!   finds its own count at the last value (`Counts`). Its k-th interlock reading that did not fail is open exactly where the
//!   file has a `door` row with k (`CountsDoor`). A call that is refused for memory is not counted, and changes nothing but that
//!   a seat leaves no unit seated.
//! - The readings are those of the seated unit's rows: which groups are joined, the resistor and the diode between two points,
//!   the leak between the groups of the route at the volts that stand, and the volts that a charge leaves. Every conductance
//!   fits 64 bits (`HasSmallConductance`).
//! - The classes of joined points are made for a unit when it is seated, and for no other. A command to zero takes no memory:
//!   its event goes into the room that a route or a raise has set aside.
//! - [`ListRig`] is a [`rig::Rig`] that may lie, for tests of what is found of any rig. It has at least one point and at least one
//!   answer, and tells the trail and the tallies alone. Every unit is there. Its k-th group reading gives the k-th answer of its
//!   list, and after the last they begin anew; one that is refused for memory is not counted. No component, no leak and no charge
//!   is found, and the interlock is closed (specs/ListRig.antt). A call fails only where a group reading or a seat finds its own
//!   count at the last value.
#![tactic(auto)]

mod counter;
mod fixture;
mod list_rig;
mod log;
mod meter;
mod sim_rig;

pub use harness::HarnessRefusal;
pub use list_rig::{Flags, ListRig};
pub use sim_rig::SimRig;

#[cfg(test)]
mod tests;
