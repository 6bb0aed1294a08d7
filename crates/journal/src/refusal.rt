//! Why an opening is refused.
ghost use Rattle.std.specs.Prelude.{◌≡◌};
ghost use Rattle.journal.specs.Refusal.{refusal_of};
ghost use Rattle.journal.specs.declared.refusal.Refusal.TheVariants.{Memory, Failed};

use disk_edge::DiskStop;
use std::alloc::{AllocError, AllocFailed};

/// Why a file is not opened: what is wrong with it, or that the disk failed or memory ran out.
#[derive(Drop)]
pub enum Refusal {
    NotJournal([u8; 8]),
    BadEntry(u32, u64),
    TooLong(u64),
    Failed,
    Memory,
}

impl From<DiskStop> for Refusal {
    ghost from_gives = { λ stop refusal. refusal ≡ refusal_of stop };

    fn from(stop: DiskStop) -> Self {
        match stop {
            DiskStop::Failed => Refusal::Failed,
            DiskStop::Memory => Refusal::Memory,
        }
    }
}

impl From<AllocError> for Refusal {
    ghost from_gives = { λ _ refusal. refusal ≡ Memory };

    fn from(_: AllocError) -> Self {
        Refusal::Memory
    }
}

impl<T: Drop> From<AllocFailed<T>> for Refusal {
    ghost from_gives = { λ _ refusal. refusal ≡ Memory };

    fn from(_: AllocFailed<T>) -> Self {
        Refusal::Memory
    }
}

/// Why a file is not mounted. Each refusal hands the disk back.
#[derive(Drop)]
pub enum OpenStop<D> {
    /// It has more than 9 bytes, and its first 8 bytes, which are given, are not the magic.
    NotJournal(D, [u8; 8]),
    /// An open gate stands over less than a whole entry: the entry's number, counted from 1, and the place of its gate.
    BadEntry(D, u32, u64),
    /// It is longer than [`crate::LONGEST_FILE`]: its length.
    TooLong(D, u64),
    /// The disk failed.
    Disk(D),
    /// Memory ran out.
    Memory(D),
}

impl<D> OpenStop<D> {
    ghost use Rattle.std.specs.Prelude.{◌≡◌};
    ghost use Rattle.journal.specs.Mount.{disk_of_stop, why_of};

    pub(crate) fn new(refusal: Refusal, disk: D) -> Self
        ensures disk { disk_of_stop result ≡ disk }
        ensures why { why_of result ≡ refusal }
    {
        match refusal {
            Refusal::NotJournal(first) => OpenStop::NotJournal(disk, first),
            Refusal::BadEntry(number, place) => OpenStop::BadEntry(disk, number, place),
            Refusal::TooLong(len) => OpenStop::TooLong(disk, len),
            Refusal::Failed => OpenStop::Disk(disk),
            Refusal::Memory => OpenStop::Memory(disk),
        }
    }
}
