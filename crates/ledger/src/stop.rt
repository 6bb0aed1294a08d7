//! Why the records of a disk are not found.

use journal::OpenStop;

/// Why the records of a disk are not found. Each refusal hands the disk back.
#[derive(Drop)]
pub enum MountStop<D> {
    /// The file has more than 9 bytes, and its first 8 bytes, which are given, are not the journal's.
    NotJournal(D, [u8; 8]),
    /// An open gate stands over less than a whole entry: the entry's number, counted from 1, and the place of its gate.
    BadEntry(D, u32, u64),
    /// The file is longer than a journal may be: its length.
    TooLong(D, u64),
    /// An entry is no record: the number of the first such entry, counted from 1, and the place of its gate.
    BadRecord(D, u32, u64),
    /// The disk failed.
    Disk(D),
    /// Memory ran out.
    Memory(D),
}

impl<D> MountStop<D> {
    ghost use Rattle.std.specs.Prelude.{◌≡◌};
    ghost use Rattle.ledger.specs.Opening.{mount_stop_of};

    // What the journal refuses.
    pub(crate) fn of_journal(stop: OpenStop<D>) -> Self
        ensures { result ≡ mount_stop_of stop }
    {
        match stop {
            OpenStop::NotJournal(disk, first) => MountStop::NotJournal(disk, first),
            OpenStop::BadEntry(disk, number, place) => MountStop::BadEntry(disk, number, place),
            OpenStop::TooLong(disk, len) => MountStop::TooLong(disk, len),
            OpenStop::Disk(disk) => MountStop::Disk(disk),
            OpenStop::Memory(disk) => MountStop::Memory(disk),
        }
    }
}
