//! Why a wirelist is refused.

use base::Memory;
use partition::NetsRefusal;
use std::alloc::{AllocError, AllocFailed};

/// Why a wirelist is refused. Most carry the number of a record, counted from 1.
#[derive(Clone, Copy, Debug, PartialEq, Eq)]
pub enum WireRefusal {
    /// A field has a byte that is no printable ASCII.
    NotText(u32),
    /// The first field is the name of no row.
    UnknownKind(u32),
    /// The field of this number is missing, surplus, no name or no number of its range.
    BadField(u32, u32),
    /// There is no `part` or no `points` row.
    NoPart,
    /// The row stands a second time.
    SecondRow(u32),
    /// So many points are too many.
    TooManyPoints(u32),
    /// The nets are no nets.
    Nets(NetsRefusal),
    /// The name was given to an earlier net or component.
    SameName(u32),
    /// The least value is above the greatest.
    BadWindow(u32),
    /// Both ends of the component lie in one net.
    PartInsideNet(u32),
    /// Insulation is to be tested between so many clusters of judged points.
    TooManyClusters(u32),
    /// The text has so many bytes.
    TooLong(u32),
    /// The component has an end at no point that is judged.
    PartPoint(u32),
    /// An earlier component lies between the same two nets.
    SecondPart(u32),
    /// The component is one too many.
    TooManyParts(u32),
    /// Memory ran out.
    Memory,
}

impl From<Memory> for WireRefusal {
    ghost use Rattle.std.specs.Prelude.{◌≡◌};
    ghost use Rattle.wirelist.specs.declared.refusal.WireRefusal.{WireRefusal};

    ghost from_gives = { λ x y. y ≡ WireRefusal.Memory };

    fn from(_: Memory) -> Self {
        WireRefusal::Memory
    }
}

impl From<AllocError> for WireRefusal {
    ghost use Rattle.std.specs.Prelude.{◌≡◌};
    ghost use Rattle.wirelist.specs.declared.refusal.WireRefusal.{WireRefusal};

    ghost from_gives = { λ x y. y ≡ WireRefusal.Memory };

    fn from(_: AllocError) -> Self {
        WireRefusal::Memory
    }
}

impl<T: Drop> From<AllocFailed<T>> for WireRefusal {
    ghost use Rattle.std.specs.Prelude.{◌≡◌};
    ghost use Rattle.wirelist.specs.declared.refusal.WireRefusal.{WireRefusal};

    ghost from_gives = { λ x y. y ≡ WireRefusal.Memory };

    fn from(_: AllocFailed<T>) -> Self {
        WireRefusal::Memory
    }
}
