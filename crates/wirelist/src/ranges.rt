//! The ranges of a wirelist's numbers, each in one place.

/// The least and the greatest number of a range.
#[derive(Clone, Copy, Debug, PartialEq, Eq)]
pub struct NumberRange {
    pub low: u64,
    pub most: u64,
}

/// How many points a harness has.
pub const POINTS: NumberRange = NumberRange {
    low: 1,
    most: 4_096,
};

/// A point as a word; whether the harness has it is asked later.
pub const POINT_WORDS: NumberRange = NumberRange {
    low: 0,
    most: 65_535,
};

/// The revision of a part.
pub const REVISIONS: NumberRange = NumberRange {
    low: 1,
    most: 999_999,
};

/// The window of a resistor, in milliohms: above what a joined pair reads.
pub const MILLIOHMS: NumberRange = NumberRange {
    low: 10_001,
    most: 1_000_000_000_000,
};

/// The window of a diode, in millivolts.
pub const MILLIVOLTS: NumberRange = NumberRange {
    low: 1,
    most: 5_000,
};

/// The voltage of the test of insulation, a multiple of 50.
pub const INSULATION_VOLTS: NumberRange = NumberRange {
    low: 50,
    most: 1_000,
};

/// How many ticks the test of insulation holds its voltage.
pub const INSULATION_TICKS: NumberRange = NumberRange {
    low: 1,
    most: 1_200,
};

/// The least resistance of insulation, in megohms.
pub const MEGOHMS: NumberRange = NumberRange {
    low: 1,
    most: 100_000,
};

/// The voltage of the test of withstand, a multiple of 50.
pub const WITHSTAND_VOLTS: NumberRange = NumberRange {
    low: 50,
    most: 2_000,
};

/// How many ticks the test of withstand holds its voltage.
pub const WITHSTAND_TICKS: NumberRange = NumberRange { low: 1, most: 600 };

/// The greatest leak of the test of withstand, in nanoamperes.
pub const NANOAMPS: NumberRange = NumberRange {
    low: 1,
    most: 10_000_000,
};

/// How often a unit may be tested.
pub const ATTEMPTS: NumberRange = NumberRange { low: 1, most: 9 };

/// The greatest number of components.
pub const MOST_PARTS: usize = 512;

/// The greatest number of clusters whose insulation is tested.
pub const MOST_CLUSTERS: u32 = 256;
