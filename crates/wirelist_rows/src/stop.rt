//! Why reading stops.

use csv::Error;
use std::alloc::{AllocError, AllocFailed};

/// Why reading a text stopped.
#[derive(Debug, Drop)]
pub enum RowsStop {
    /// `csv` refused.
    Csv(Error),
    /// Memory ran out.
    Memory,
}

impl From<Error> for RowsStop {
    ghost use Rattle.std.specs.Prelude.{◌≡◌};
    ghost use Rattle.wirelist_rows.specs.declared.stop.RowsStop.TheVariants.{Csv};

    ghost from_gives = { λ error stop. stop ≡ Csv error };

    fn from(error: Error) -> Self {
        RowsStop::Csv(error)
    }
}

impl<T: Drop> From<AllocFailed<T>> for RowsStop {
    ghost use Rattle.std.specs.Prelude.{◌≡◌};
    ghost use Rattle.wirelist_rows.specs.declared.stop.RowsStop.TheVariants.{Memory};

    ghost from_gives = { λ _ stop. stop ≡ Memory };

    fn from(_: AllocFailed<T>) -> Self {
        RowsStop::Memory
    }
}

impl From<AllocError> for RowsStop {
    ghost use Rattle.std.specs.Prelude.{◌≡◌};
    ghost use Rattle.wirelist_rows.specs.declared.stop.RowsStop.TheVariants.{Memory};

    ghost from_gives = { λ _ stop. stop ≡ Memory };

    fn from(_: AllocError) -> Self {
        RowsStop::Memory
    }
}
