//! What two groups are to withstand, and where they do not.

use rig::Leak;

/// What two groups are to withstand: so many volts (50 to 2,000, a multiple of 50) for so many ticks, with at most so many nanoamps.
#[derive(Clone, Copy, Debug, PartialEq, Eq)]
pub struct Endurance {
    pub volts: u16,
    pub ticks: u16,
    pub nanoamps: u32,
}

/// A leak that is an arc or above the limit, and the volts at which it was read.
#[derive(Clone, Copy, Debug, PartialEq, Eq)]
pub struct Breakdown {
    pub volts: u16,
    pub leak: Leak,
}
