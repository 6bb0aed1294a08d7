//! Applications of high voltage between pairs of groups of points of a proven unit.
//!
//! Everything here holds for every rig, also for one that lies or fails.
//!
//! - [`measure`] applies a voltage for some ticks, reads the leak once, brings the source to zero and waits for the discharge;
//!   [`measure_each`] does so for each pair of groups in order.
//! - [`stand`] applies a voltage with a reading of the leak before each tick, and ends at the first that is an arc or above the
//!   limit; [`stand_each`] does so for each pair of groups in order, up to the first that breaks down.
//! - Whatever call fails, whatever the interlock reads and wherever memory runs out, the events that were added are in the
//!   order of high voltage (a new interlock reading before each raise and each tick, steps of 50 volts, no raise and no tick
//!   after an open interlock), and the source is at zero, or the answer is [`HvStop::NotZero`] after three zero calls that
//!   failed.
//! - [`HvStop`] says why a test was stopped and hands back what is left; specs/Measuring.antt says when each of its cases comes.
//! - Where an honest rig tells the unit, a leak is that of the unit between the two groups, and the first breakdown is the
//!   first that the unit has; the volts of a unit that was not discharged are those of its charge, and where an application
//!   was made to its end, no charge lasts (specs/Charge.antt).
#![tactic(auto)]

mod endurance;
mod enduring;
mod holding;
mod measuring;
mod measuring_each;
mod sides;
mod standing;
mod standing_each;
mod stop;

pub use endurance::{Breakdown, Endurance};
pub use measuring::{Measured, measure};
pub use measuring_each::{MeasuredEach, measure_each};
pub use sides::Sides;
pub use standing::{Applied, stand};
pub use standing_each::{PairBreakdown, StoodEach, stand_each};
pub use stop::HvStop;
