//! The answers of the test of a unit.

use rig::{Rig, Stuck};
use wirelist::Outcome;

/// A unit that was tested.
pub struct UnitRun<R: Rig> {
    /// The rig, with the unit seated and the source at zero.
    pub rig: R,
    /// What the test found.
    pub outcome: Outcome,
}

/// Why a unit has no outcome. Each hands the rig back, and only in `NotZero` may the source stand at a voltage.
pub enum UnitStop<R: Rig> {
    /// The fixture has no such unit.
    Empty(R),
    /// The interlock was open.
    InterlockOpen(R),
    /// So many volts, above 30, stood after 100 ticks.
    NotDischarged(R, u16),
    /// The rig failed.
    RigFault(R),
    /// Three zero calls failed.
    NotZero(Stuck<R>),
    /// Memory ran out.
    Memory(R),
}
