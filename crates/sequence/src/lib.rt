//! One unit's whole test.
//!
//! [`run_unit`] seats a unit and reads its wiring. Where the nets are not just as programmed it finds by what they differ; else it checks
//! the components, and where none is faulty it tests insulation and withstand, as the program has them. What it promises of every
//! rig, also of one that lies or fails, is `RunsUnit` of the crate `unit_outcome`:
//!
//! - The outcome is in the ranges of records, the readings determine the partition that it states, the trail shows the rest of it, and
//!   the tally of this seating counts enough for it. Of an honest rig it is the defined outcome of the seated unit.
//! - A unit whose wiring is as programmed takes exactly `(n-k) + digits(k-1)` group readings, and one with a wiring fault no more than a
//!   diagnosis takes after them.
//! - At every exit the trail is in the order of high voltage, and the source is at zero, or the answer is `NotZero`.
//! - Each stop has its cause.
#![tactic(auto)]

mod components;
mod unit;
mod voltage;
mod wiring;

pub use unit::run_unit;
pub use unit_outcome::{UnitRun, UnitStop};
