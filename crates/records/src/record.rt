//! What the station keeps of each command that it accepted.

use base::Items;
use partition::Name;
use wirelist::{Outcome, Program};

/// Who made a test, and where.
#[derive(Clone, Copy, Debug)]
pub struct Staff {
    pub operator: Name,
    pub fixture: Name,
}

/// What a record keeps beside its id and its moment.
#[derive(Debug, Drop)]
pub enum Body {
    /// The program that units are tested against from here on.
    Adopt(Program),
    /// The serial of a unit that was enrolled.
    Enrol(Name),
    /// The last day of the calibration, from 1970-01-01.
    Calibrate(u32),
    /// The serial of a unit that was tested, the number of its test, from 1, who made it and where, and what was found.
    Tested {
        serial: Name,
        attempt: u8,
        staff: Option<Staff>,
        outcome: Outcome,
    },
    /// The serial of a unit that was reworked.
    Rework(Name),
    /// The serial of a unit that was released.
    Release(Name),
    /// The serial of a unit that was scrapped.
    Scrap(Name),
    /// From here on a test names who made it and where.
    Mark,
}

/// A record of the journal. `moment` counts seconds from the beginning of 1970.
#[derive(Debug, Drop)]
pub struct StationRecord {
    pub id: Name,
    pub moment: u64,
    pub body: Body,
}

/// Records in order. The station numbers them from 1; a place in the list counts from 0.
pub type RecordList = Items<StationRecord>;
