//! Why a harness file is refused.

use base::Memory;

/// Why a harness file is refused. Lines are numbered from 1.
#[derive(Clone, Copy, Debug, PartialEq, Eq)]
pub enum HarnessRefusal {
    /// The line is no row, stands in a wrong place, or has a value out of its range.
    BadLine(u32),
    /// A point of the line is not below the number of points, or its two points are equal.
    PointRange(u32),
    /// The line is a diode or a resistor above 10,000 milliohms between two classes of joined points that an earlier one of its unit lies between too.
    SecondElement(u32),
    /// An earlier unit has the serial and the attempt of the line.
    SameUnit(u32),
    /// There is no `end` row.
    NoEnd,
    /// The line is one too many.
    TooMany(u32),
    /// The file has too many bytes.
    TooLong,
    /// Memory ran out.
    Memory,
}

impl From<Memory> for HarnessRefusal {
    ghost use Rattle.std.specs.Prelude.{◌≡◌};
    ghost use Rattle.harness.specs.declared.refusal.HarnessRefusal.TheVariants.{Memory as NoMemory};

    ghost from_gives = { λ _ e. e ≡ NoMemory };

    fn from(_: Memory) -> Self {
        HarnessRefusal::Memory
    }
}

impl HarnessRefusal {
    ghost use Rattle.std.specs.Prelude.{◌≡◌};
    ghost use Rattle.harness.specs.Refusals.{number_of, line_of};

    /// The number that is printed for the refusal; none for want of memory.
    pub fn number(self) -> Option<u8>
        ensures { result ≡ number_of self }
    {
        match self {
            HarnessRefusal::BadLine(_) => Some(1),
            HarnessRefusal::PointRange(_) => Some(2),
            HarnessRefusal::SecondElement(_) => Some(3),
            HarnessRefusal::SameUnit(_) => Some(4),
            HarnessRefusal::NoEnd => Some(5),
            HarnessRefusal::TooMany(_) => Some(6),
            HarnessRefusal::TooLong => Some(7),
            HarnessRefusal::Memory => None,
        }
    }

    /// The line that is refused, if it is one.
    pub fn line(self) -> Option<u32>
        ensures { result ≡ line_of self }
    {
        match self {
            HarnessRefusal::BadLine(line)
            | HarnessRefusal::PointRange(line)
            | HarnessRefusal::SecondElement(line)
            | HarnessRefusal::SameUnit(line)
            | HarnessRefusal::TooMany(line) => Some(line),
            HarnessRefusal::NoEnd | HarnessRefusal::TooLong | HarnessRefusal::Memory => None,
        }
    }
}
