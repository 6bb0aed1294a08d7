//! A journal that keeps the places of its gates, and no body.
ghost use Rattle.std.specs.Prelude.{◌≡◌, ℕ, ◌+◌, ◌-◌, ◌<◌, ◌≤◌, List, [], ◌∷◌, ◌++◌, length, IsTrue, ◌↔◌, IfOk, Result};
ghost use Rattle.base.specs.Causes.{Rose};
ghost use Rattle.journal.specs.Format.{IsFull};
ghost use Rattle.journal.specs.Gates.{AreInOrder, IsKept, last_gate};

use crate::entry::{entry_bytes, put_entry};
use crate::opening::open;
use crate::refusal::OpenStop;
use crate::{LONGEST_BODY, LONGEST_FILE};
use base::Bytes;
use disk_edge::{Disk, DiskStop};
use std::alloc::Global;

/// A journal on a disk. It keeps the places of its gates, and no body.
#[derive(Drop)]
pub struct Journal<D: Disk> {
    alloc: Global,
    disk: D,
    gates: Vec<u64>,
    ghost in_order: { AreInOrder gates.items },
    pub ghost kept: { IsKept (D.state disk) gates.items },
}

/// Why an entry was not added.
#[derive(Drop)]
pub enum AppendStop<D: Disk> {
    /// There is no room for a longest entry. The journal is as it was.
    Full(Journal<D>),
    /// The disk failed. The file is to be mounted again.
    Disk(D),
    /// The disk had no memory. The file is to be mounted again.
    DiskMemory(D),
    /// Memory ran out before the first write. The journal is as it was.
    Memory(Journal<D>),
}

impl<D: Disk> Journal<D> {
    ghost use Rattle.std.specs.Prelude.{◌≡◌, ℕ, ◌+◌, ◌-◌, ◌<◌, ◌≤◌, Some, List, [], ◌∷◌, ◌++◌, length, slice_get, IsTrue, ◌↔◌, IfOk, IfErr, OnOk, OnErr};
    ghost use Rattle.std.specs.Option.{ForSome};
    ghost use Rattle.std.specs.Result.{result_err};
    ghost use Rattle.base.specs.Causes.{HasCause};
    ghost use Rattle.disk_edge.specs.Disk.{LeavesOnly, IsAsBefore, EachImage};
    ghost use Rattle.journal.specs.Format.{Holds, IsBeforeOrAfter, AtRest, IsSound, IsFull, end_after};
    ghost use Rattle.journal.specs.Journal.{HasEntries, TellsEntries, KeepsLimit};
    ghost use Rattle.journal.specs.Opening.{IsJournal, MayOpen};
    ghost use Rattle.journal.specs.Refusal.{IsRefused, IsWrong, IsOfTheFile, IsUntouched};
    ghost use Rattle.journal.specs.Mount.{disk_of_stop, why_of, state_after_mount};
    ghost use Rattle.journal.specs.Append.{state_of, disk_of, gates_of, end_of, count_of, state_after, IsAnswered, is_full};
    ghost use Rattle.journal.specs.declared.refusal.Refusal.{Refusal};

    /// Finds the entries of a file, and closes their end. A file of at most 9 bytes becomes a journal without an entry.
    pub fn mount(alloc: Global, mut disk: D) -> Result<Journal<D>, OpenStop<D>>
        // Ok comes only where the file is a journal, and each refusal for a cause.
        ensures found { OnOk result (ForSome (D.state disk).reads_as IsJournal) }
        ensures stop { IfErr result (λ stop. IsRefused (D.state disk) (D.state (disk_of_stop stop)) (why_of stop)) }

        // A journal, and a file with something wrong, are answered so, but where the disk fails or memory runs out.
        ensures opens { ForSome (D.state disk).reads_as (λ file. IsJournal file → IfErr result (λ stop. IsOfTheFile (why_of stop) → ⊥)) }
        ensures exact { ForSome (D.state disk).reads_as (λ file. (why : Refusal) → IsWrong file why
            → OnOk result ⊥ × IfErr result (λ stop. IsOfTheFile (why_of stop) → why_of stop ≡ why)) }

        ensures entries { IfOk result (λ journal. ForSome (D.state disk).reads_as (λ file. (bodies : List (List ℕ)) → Holds file bodies
            → HasEntries (state_of journal) bodies)) }
        ensures each_image { IfOk result (λ journal. (bodies : List (List ℕ)) → HasEntries (state_of journal) bodies
            → EachImage (state_of journal) (λ image. AtRest image bodies)) }

        // Whatever it answers, a crash at any moment leaves what might have been left before, or what an opening may make of a sound file.
        ensures any_moment { LeavesOnly (D.state disk) (state_after_mount result) (MayOpen (D.state disk)) }
        ensures limit { LeavesOnly (D.state disk) (state_after_mount result) (λ image. ForSome (D.state disk).reads_as IsSound
            → KeepsLimit (D.state disk) image) }

        ensures untouched { IfErr result (λ stop. IsOfTheFile (why_of stop) → IsUntouched (D.state disk) (D.state (disk_of_stop stop))) }
        ensures later { (D.state disk).faults ≤ (state_after_mount result).faults }
    {
        match open(alloc, &mut disk) {
            Ok(gates) => Ok(Journal { alloc, disk, gates }),
            Err(refusal) => Err(OpenStop::new(refusal, disk)),
        }
    }

    /// The body of an entry, numbered from 1.
    pub fn entry(&mut self, number: u32) -> Result<Bytes, DiskStop>
        requires from_one { 1 ≤ number }
        requires within { number ≤ count_of self.old }
        ensures body { IfOk result (λ body. (bodies : List (List ℕ)) → TellsEntries (state_of self.old) bodies
            → slice_get bodies (number - 1) ≡ Some body) }
        ensures same { IsAsBefore (state_of self.old) (state_of self.new) }
        ensures gates { gates_of self.new ≡ gates_of self.old }
        ensures cause { HasCause (state_of self.old).faults (state_of self.new).faults (result_err result) DiskStop.Failed }
    {
        let index = number as usize;
        let next = self.gates[index];
        let from = self.gates[index - 1] + 5;
        let mut body = vec![in self.alloc; 0; (next - from) as usize]?;
        self.disk.read_at(from, &mut body)?;
        Ok(Bytes::from_vec(body))
    }

    // The place of the closed gate.
    fn end(&self) -> u64
        ensures { result ≡ end_of self.now }
    {
        self.gates[self.gates.len() - 1]
    }

    /// Whether there is no room for a longest entry.
    pub fn full(&self) -> bool
        ensures end { IsTrue result ↔ IsFull (end_of self.now) }
        ensures told { (bodies : List (List ℕ)) → TellsEntries (state_of self.now) bodies → IsTrue result ↔ IsFull (end_after bodies) }
    {
        has_no_room(self.end())
    }

    /// How many entries there are.
    pub fn count(&self) -> u32
        ensures count { result ≡ count_of self.now }
        ensures told { (bodies : List (List ℕ)) → TellsEntries (state_of self.now) bodies → result ≡ length bodies }
    {
        (self.gates.len() - 1) as u32
    }

    /// The disk, as it is.
    pub fn into_disk(self) -> D
        ensures { result ≡ disk_of self }
    {
        let Journal {
            alloc: _,
            disk,
            gates: _,
        } = self;
        disk
    }

    /// Adds an entry.
    pub fn append(self, body: &[u8]) -> Result<Journal<D>, AppendStop<D>>
        requires { length body.now ≤ LONGEST_BODY }

        ensures entries { IfOk result (λ journal. (bodies : List (List ℕ)) → HasEntries (state_of self) bodies
            → HasEntries (state_of journal) (bodies ++ body.now ∷ [])) }
        ensures count { IfOk result (λ journal. count_of journal ≡ count_of self + 1) }
        ensures each_image { IfOk result (λ journal. (bodies : List (List ℕ)) → HasEntries (state_of self) bodies
            → EachImage (state_of journal) (λ image. AtRest image (bodies ++ body.now ∷ []))) }

        // Whatever it answers, a crash at any moment leaves the old entries, or these and the new one.
        ensures any_moment { (bodies : List (List ℕ)) → HasEntries (state_of self) bodies
            → LeavesOnly (state_of self) (state_after result) (IsBeforeOrAfter bodies body.now) }
        ensures limit { LeavesOnly (state_of self) (state_after result) (KeepsLimit (state_of self)) }

        ensures full { IsTrue (is_full result) ↔ IsFull (end_of self) }
        ensures full_told { (bodies : List (List ℕ)) → TellsEntries (state_of self) bodies
            → IsTrue (is_full result) ↔ IsFull (end_after bodies) }
        ensures stop { IfErr result (IsAnswered self) }
        ensures later { (state_of self).faults ≤ (state_after result).faults }
    {
        if self.full() {
            return Err(AppendStop::Full(self));
        }
        let Ok(bytes) = entry_bytes(self.alloc, body) else {
            return Err(AppendStop::Memory(self));
        };
        let end = self.end();
        let Journal {
            alloc,
            mut disk,
            mut gates,
        } = self;
        if gates.push(end + 5 + body.len() as u64).is_err() {
            return Err(AppendStop::Memory(Journal { alloc, disk, gates }));
        }
        match put_entry(&mut disk, end, &bytes) {
            Ok(()) => Ok(Journal { alloc, disk, gates }),
            Err(DiskStop::Failed) => Err(AppendStop::Disk(disk)),
            Err(DiskStop::Memory) => Err(AppendStop::DiskMemory(disk)),
        }
    }
}

// Whether there is no room for a longest entry behind a gate at this place.
fn has_no_room(end: u64) -> bool
    requires { end ≤ LONGEST_FILE }
    ensures { IsTrue result ↔ IsFull end }
{
    end + 262_144 > LONGEST_FILE
}
