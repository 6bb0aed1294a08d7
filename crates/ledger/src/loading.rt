//! The records of a journal, read entry by entry.

ghost use Rattle.std.specs.Prelude.{◌≡◌, ◌≤◌, ◌<◌, ◌^◌, List, ℕ, length, IfOk, IfErr};
ghost use Rattle.disk_edge.specs.Disk.{IsAsBefore};
ghost use Rattle.journal.specs.Append.{state_of, gates_of, count_of};
ghost use Rattle.journal.specs.Journal.{TellsEntries};
ghost use Rattle.ledger.specs.Kept.{AreRecords, spellings};
ghost use Rattle.ledger.specs.Opening.{Opens};
ghost use Rattle.ledger.specs.Reading.{ReadCause, IsWrongEntry};
ghost use Rattle.ledger.specs.Loaded.{IsLoaded, state_loaded, opening_loaded};

use crate::MountStop;
use base::Memory;
use disk_edge::{Disk, DiskStop};
use journal::Journal;
use records::{DecodeStop, RecordList, decode};
use std::alloc::Global;

/// A journal that is open, and the records that its entries spell.
#[derive(Drop)]
pub struct Loaded<D: Disk> {
    pub journal: Journal<D>,
    pub records: RecordList,
}

/// Why the records were not read.
#[derive(Drop)]
pub(crate) enum ReadStop {
    /// The entry with this number is no record; its gate stands at this place.
    NoRecord(u32, u64),
    Disk,
    Memory,
}

impl From<Memory> for ReadStop {
    ghost use Rattle.std.specs.Prelude.{◌≡◌};
    ghost use Rattle.ledger.specs.declared.loading.ReadStop.TheVariants as read;

    ghost from_gives = { λ _ e. e ≡ read.Memory };

    fn from(_: Memory) -> Self {
        ReadStop::Memory
    }
}

impl From<DiskStop> for ReadStop {
    ghost use Rattle.std.specs.Prelude.{◌≡◌};
    ghost use Rattle.ledger.specs.Reading.{read_stop_of};

    ghost from_gives = { λ stop e. e ≡ read_stop_of stop };

    fn from(stop: DiskStop) -> Self {
        match stop {
            DiskStop::Failed => ReadStop::Disk,
            DiskStop::Memory => ReadStop::Memory,
        }
    }
}

/// Opens the journal on a disk and reads its records, one entry at a time.
pub fn load<D: Disk>(alloc: Global, disk: D) -> Result<Loaded<D>, MountStop<D>>
    ensures opens { Opens (D.state disk) (state_loaded result) (opening_loaded result) }
    ensures loaded { IfOk result IsLoaded }
{
    let mut journal = match Journal::mount(alloc, disk) {
        Ok(journal) => journal,
        Err(stop) => return Err(MountStop::of_journal(stop)),
    };
    match read_records(alloc, &mut journal) {
        Ok(records) => Ok(Loaded { journal, records }),
        Err(ReadStop::NoRecord(number, place)) => {
            Err(MountStop::BadRecord(journal.into_disk(), number, place))
        }
        Err(ReadStop::Disk) => Err(MountStop::Disk(journal.into_disk())),
        Err(ReadStop::Memory) => Err(MountStop::Memory(journal.into_disk())),
    }
}

// Reads all records.
fn read_records<D: Disk>(alloc: Global, journal: &mut Journal<D>) -> Result<RecordList, ReadStop>
    ensures spelled { IfOk result (λ records. (bodies : List (List ℕ)) → TellsEntries (state_of journal.old) bodies → spellings records ≡ bodies) }
    ensures in_range { IfOk result AreRecords }
    ensures counted { IfOk result (λ records. length records ≡ count_of journal.old) }
    ensures few { IfOk result (λ records. length records < 2 ^ 32) }
    ensures same { IsAsBefore (state_of journal.old) (state_of journal.new) }
    ensures gates { gates_of journal.new ≡ gates_of journal.old }
    ensures later { (state_of journal.old).faults ≤ (state_of journal.new).faults }
    ensures wrong { IfErr result (λ stop. (bodies : List (List ℕ)) → TellsEntries (state_of journal.old) bodies → IsWrongEntry bodies stop) }
    ensures cause { IfErr result (ReadCause (state_of journal.old).faults (state_of journal.new).faults) }
{
    let mut records = RecordList::new(alloc);
    let count = journal.count();
    let mut place: u64 = 8;
    for index in 0..count {
        let body = journal.entry(index + 1)?;
        match decode(alloc, body.as_slice()) {
            Ok(r) => records.push(r)?,
            Err(DecodeStop::NotARecord) => return Err(ReadStop::NoRecord(index + 1, place)),
            Err(DecodeStop::Memory) => return Err(ReadStop::Memory),
        }
        place = place.saturating_add(5).saturating_add(body.len() as u64);
    }
    Ok(records)
}
