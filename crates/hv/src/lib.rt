//! The two tests at high voltage of a proven unit: insulation resistance and dielectric withstand.
//!
//! Everything here holds for every rig, also for one that lies or fails.
//!
//! - [`insulation`] measures each cluster of the program in order of first net against all other judged points: one application
//!   of the test's voltage for its ticks, with one leak read after these, which decides the cluster. The faults are those that
//!   a unit's conductances and arcs give, where an honest rig tells the unit.
//! - [`withstand`] applies the test's voltage for its ticks, bit by bit, between the clusters in whose number the bit is 0 and
//!   those in which it is 1, with a leak read before each tick. It ends at the first bit and in it the first step of 50 volts
//!   at which the leak is an arc or above the limit; for an honest rig that is the first that the unit has.
//! - With one cluster neither test does anything. With more, an honest rig's unit whose charge lasts gets no answer but
//!   [`HvStop::NotDischarged`] with its volts, if nothing else stops the test.
//! - At every exit the trail is in the order of high voltage, and the source is at zero, or the answer is [`HvStop::NotZero`]
//!   after three zero calls that failed. No reading and no probe is made.
//! - [`HvStop`] says why a test was stopped and hands back what is left.
#![tactic(auto)]

mod insulating;
mod routes;
mod stated;
mod withstanding;

pub use applications::HvStop;
pub use insulating::{InsulationDone, insulation};
pub use withstanding::{WithstandDone, WithstandFault, withstand};
