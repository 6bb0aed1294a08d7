//! Why bytes give no record.

use base::Memory;
use std::alloc::{AllocError, AllocFailed};

/// Why bytes give no record.
#[derive(Clone, Copy, Debug, PartialEq, Eq)]
pub enum DecodeStop {
    /// They are the spelling of no record.
    NotARecord,
    /// Memory ran out.
    Memory,
}

impl From<Memory> for DecodeStop {
    ghost use Rattle.std.specs.Prelude.{◌≡◌};
    ghost use Rattle.records.specs.declared.stop.DecodeStop.{DecodeStop};

    ghost from_gives = { λ _ e. e ≡ DecodeStop.Memory };

    fn from(_: Memory) -> Self {
        DecodeStop::Memory
    }
}

impl From<AllocError> for DecodeStop {
    ghost use Rattle.std.specs.Prelude.{◌≡◌};
    ghost use Rattle.records.specs.declared.stop.DecodeStop.{DecodeStop};

    ghost from_gives = { λ _ e. e ≡ DecodeStop.Memory };

    fn from(_: AllocError) -> Self {
        DecodeStop::Memory
    }
}

impl<T: Drop> From<AllocFailed<T>> for DecodeStop {
    ghost use Rattle.std.specs.Prelude.{◌≡◌};
    ghost use Rattle.records.specs.declared.stop.DecodeStop.{DecodeStop};

    ghost from_gives = { λ _ e. e ≡ DecodeStop.Memory };

    fn from(_: AllocFailed<T>) -> Self {
        DecodeStop::Memory
    }
}
