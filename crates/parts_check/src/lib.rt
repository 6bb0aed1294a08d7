//! Whether the components of a proven unit are in their windows.
//!
//! [`check_parts`] reads each resistor of a program once and each diode both ways, in order, and gives the faulty ones with the
//! reading that shows it: exactly those of the rule (specs/PartRule.antt) for the readings that were made, whatever the rig, and for
//! an honest rig those of the unit. The trail shows them (specs/PartsRead.antt). A refusal hands the proven unit back.
#![tactic(auto)]

mod check;
mod rule;

pub use check::{Checked, PartsStop, check_parts};
