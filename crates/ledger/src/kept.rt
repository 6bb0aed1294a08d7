//! The records, each of them on the disk before it is acknowledged.

use crate::{MountStop, load};
use disk_edge::Disk;
use journal::{AppendStop, Journal};
use records::{RecordList, StationRecord, encode};
use serials::Book;
use std::alloc::Global;
use std::marker::Model;

/// The records and the journal that has them. Contracts see its disk and the records.
#[derive(Drop)]
pub struct Ledger<D: Disk> {
    alloc: Global,
    journal: Journal<D>,
    book: Book,
}

impl<D: Disk> Model for Ledger<D> {
    ghost use Rattle.journal.specs.Append.{state_of, count_of, end_of};
    ghost use Rattle.ledger.specs.Ledger.{LedgerState, IsBooked, is_full_at};

    ghost Value = { LedgerState };

    ghost view = { λ l. record { disk = state_of l.journal; records = l.book; full = is_full_at (end_of l.journal) } };

    ghost invariant = { λ l. IsBooked (state_of l.journal) (count_of l.journal) l.book };
}

/// Why a record was not added.
#[derive(Drop)]
pub enum AddStop<D: Disk> {
    /// There is no room. The ledger is as it was.
    Full(Ledger<D>),
    /// The disk failed. It is to be mounted again.
    Disk(D),
    /// Memory ran out. The disk is to be mounted again.
    Memory(D),
}

impl<D: Disk> Ledger<D> {
    ghost use Rattle.std.specs.Prelude.{◌≡◌, ◌≤◌, ◌++◌, ◌∷◌, [], length, IfOk, IfErr};
    ghost use Rattle.disk_edge.specs.Disk.{LeavesOnly, EachImage};
    ghost use Rattle.records.specs.RecordRanges.{IsRecord};
    ghost use Rattle.journal.specs.Journal.{KeepsLimit};
    ghost use Rattle.ledger.specs.Kept.{IsImageOf, IsImageOfEither, is_full};
    ghost use Rattle.ledger.specs.Ledger.{IsStored, Tells};
    ghost use Rattle.ledger.specs.Opening.{Opens};
    ghost use Rattle.ledger.specs.Mounted.{state_mounted, opening_mounted};
    ghost use Rattle.ledger.specs.Adding.{state_after, HadRoom, StopsAdding};

    /// Opens the journal on a disk, and finds its records.
    pub fn mount(alloc: Global, disk: D) -> Result<Ledger<D>, MountStop<D>>
        ensures opens { Opens (D.state disk) (state_mounted D.state result) (opening_mounted result) }
    {
        let loaded = match load(alloc, disk) {
            Ok(loaded) => loaded,
            Err(stop) => return Err(stop),
        };
        match Book::of(alloc, loaded.records) {
            Ok(book) => Ok(Ledger {
                alloc,
                journal: loaded.journal,
                book,
            }),
            Err(_) => Err(MountStop::Memory(loaded.journal.into_disk())),
        }
    }

    /// The book of the records.
    pub fn book(&self) -> &Book
        ensures records { result.now ≡ self.now.records }
        ensures stored { IsStored self.now }
    {
        let _count = self.journal.count();
        let _full = self.journal.full();
        &self.book
    }

    /// The records, the first one first.
    pub fn records(&self) -> &RecordList
        ensures records { result.now ≡ self.now.records }
        ensures stored { IsStored self.now }
    {
        self.book().records()
    }

    /// Whether there is no room for a longest record.
    pub fn full(&self) -> bool
        ensures full { result ≡ self.now.full }
        ensures told { Tells self.now.disk → result ≡ is_full self.now.records }
    {
        self.journal.full()
    }

    /// How many records there are.
    pub fn count(&self) -> u32
        ensures { result ≡ length self.now.records }
    {
        self.journal.count()
    }

    /// The disk, as it is.
    pub fn into_disk(self) -> D
        ensures disk { D.state result ≡ self.disk }
        ensures images { EachImage (D.state result) (IsImageOf self.records) }
    {
        let Ledger {
            alloc: _,
            journal,
            book: _,
        } = self;
        journal.into_disk()
    }

    /// Adds a record behind the others.
    pub fn add(self, r: StationRecord) -> Result<Ledger<D>, AddStop<D>>
        requires { IsRecord r }
        ensures added { IfOk result (λ ledger. ledger.records ≡ self.records ++ r ∷ []) }
        ensures room { IfOk result (λ ledger. HadRoom self) }

        // Whatever it answers, a crash at any moment leaves the records before, or these and the new one.
        ensures any_moment { LeavesOnly self.disk (state_after D.state result) (IsImageOfEither self.records (self.records ++ r ∷ [])) }
        ensures limit { LeavesOnly self.disk (state_after D.state result) (KeepsLimit self.disk) }

        ensures stop { IfErr result (StopsAdding D.state self) }
        ensures later { self.disk.faults ≤ (state_after D.state result).faults }
    {
        let Ledger {
            alloc,
            journal,
            mut book,
        } = self;
        let Ok(bytes) = encode(alloc, &r) else {
            return Err(AddStop::Memory(journal.into_disk()));
        };
        match journal.append(bytes.as_slice()) {
            Ok(journal) => {
                let _count = journal.count();
                match book.add(r) {
                    Ok(()) => Ok(Ledger {
                        alloc,
                        journal,
                        book,
                    }),
                    Err(_) => Err(AddStop::Memory(journal.into_disk())),
                }
            }
            Err(AppendStop::Full(journal)) => Err(AddStop::Full(Ledger {
                alloc,
                journal,
                book,
            })),
            Err(AppendStop::Disk(disk)) => Err(AddStop::Disk(disk)),
            Err(AppendStop::DiskMemory(disk)) => Err(AddStop::Memory(disk)),
            Err(AppendStop::Memory(journal)) => Err(AddStop::Memory(journal.into_disk())),
        }
    }
}
