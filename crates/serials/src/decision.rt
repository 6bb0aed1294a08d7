//! What is to be done with a command.

use partition::Name;

/// Why a command is refused. Records are numbered from 1, days from 1970-01-01.
#[derive(Clone, Copy, Debug, PartialEq, Eq)]
pub enum Rule {
    /// E13: the first record with the id is of another command. It has this number.
    IdTaken(u32),
    /// E18: this revision of this part is adopted, and the program is no newer one of it.
    NotNewer(Name, u32),
    /// E19: the station is calibrated until this day, which is not before the command's.
    NotLater(u32),
    /// E25: there is a mark. The first has this number.
    MarkedAlready(u32),
    /// E02: no program is adopted.
    NoWirelist,
    /// E03: another program is adopted.
    Differs,
    /// E04: the calibration ended on the first day, and it is the second.
    CalibrationOver(u32, u32),
    /// E24: there is no mark, and the test names who made it.
    NotMarked,
    /// E23: there is a mark, and the test does not name who made it.
    StaffMissing,
    /// E22: the serial is enrolled. Its first enrolment has this number.
    EnrolledAlready(u32),
    /// E05: the serial is not enrolled.
    NotEnrolled,
    /// E06: the unit is released.
    Released,
    /// E07: the unit is scrapped.
    Scrapped,
    /// E08: the unit's last test is a pass.
    PassedAlready,
    /// E09: the unit's last test is no pass, and the unit was not reworked after it.
    ReworkOwed,
    /// E10: the unit was tested as often as the program allows.
    AttemptsUsed(u8),
    /// E11: the unit has no test, or its last is a pass, or it was reworked after it.
    NoReworkDue,
    /// E12: the unit has no test, or its last is no pass.
    NotPassed,
}

/// What is to be done with a command.
#[derive(Clone, Copy, Debug, PartialEq, Eq)]
pub enum Decision {
    /// A record of it is to be kept.
    Keep,
    /// The unit is to be tested; it is its test with this number.
    Test { attempt: u8 },
    /// The command was given before. Its record has this number.
    Same(u32),
    /// A rule is against it.
    No(Rule),
}
