//! How a journal is opened.
ghost use Rattle.std.specs.Prelude.{◌≡◌, ◌≢◌, ◌+◌, ◌<◌, ◌≤◌, ◌^◌, List, ℕ, [], ◌∷◌, ◌++◌, length, take, drop, slice_index, OnOk, IfOk, IfErr};
ghost use Rattle.std.specs.Prelude.{IsErrOf, IsTrue, ◌↔◌};
ghost use Rattle.std.specs.Option.{ForSome};
ghost use Rattle.std.specs.Result.{result_err};
ghost use Rattle.base.specs.Causes.{Rose, HasCause};
ghost use Rattle.disk_edge.specs.Disk.{LeavesOnly, IsDurable, IsAsBefore};
ghost use Rattle.journal.specs.Format.{magic, Holds};
ghost use Rattle.journal.specs.Journal.{HasEntries};
ghost use Rattle.journal.specs.Limits.{IsSize};
ghost use Rattle.journal.specs.Gates.{AreInOrder, IsKept, last_gate};
ghost use Rattle.journal.specs.Opening.{AreRead, IsOpen, IsShut, EndsAt, IsJournal, MayClose, MayOpen};
ghost use Rattle.journal.specs.Refusal.{IsRefused, IsOfTheFile, IsUntouched};

use crate::put::put;
use crate::refusal::Refusal;
use crate::{LONGEST_BODY, LONGEST_FILE};
use disk_edge::{Disk, DiskStop};
use std::alloc::{AllocError, AllocFailed, Global};

const MAGIC: [u8; 8] = *b"WHTSJRN1";

/// What stands at a gate: an end, a whole entry with the place of the next gate behind it, or less than an entry.
pub enum Behind {
    Closed,
    Whole(u64),
    Cut,
}

impl Behind {
    ghost use Rattle.std.specs.Prelude.{◌≡◌, ◌+◌, ◌<◌, ◌≤◌, drop, length, slice_index, IfOk, OnOk};
    ghost use Rattle.std.specs.Option.{ForSome};
    ghost use Rattle.std.specs.Result.{result_err};
    ghost use Rattle.base.specs.Causes.{HasCause};
    ghost use Rattle.disk_edge.specs.Disk.{IsAsBefore};
    ghost use Rattle.journal.specs.Opening.{Stands};
    ghost use Rattle.journal.specs.Limits.{IsWithin};

    /// What stands at a gate of a file of this length.
    pub fn read<D: Disk>(disk: &mut D, gate: u64, len: u64) -> Result<Behind, DiskStop>
        requires told { ForSome (D.state disk.old).reads_as (λ file. len ≡ length file) }
        requires within { gate ≤ len }
        requires limit { len ≤ LONGEST_FILE }
        ensures stands { IfOk result (λ behind. ForSome (D.state disk.old).reads_as (λ file. Stands (drop gate file) gate behind)) }
        ensures limits { IfOk result (IsWithin gate len) }
        ensures same { IsAsBefore (D.state disk.old) (D.state disk.new) }
        ensures cause { HasCause (D.state disk.old).faults (D.state disk.new).faults (result_err result) DiskStop.Failed }
    {
        let is_open = is_open(disk, gate, len)?;
        if !is_open {
            return Ok(Behind::Closed);
        }
        if len - gate < 5 {
            return Ok(Behind::Cut);
        }
        let size = size_at(disk, gate + 1)?;
        if size > LONGEST_BODY || len - gate - 5 < size {
            return Ok(Behind::Cut);
        }
        Ok(Behind::Whole(gate + 5 + size))
    }
}

// The byte at that place.
fn byte_at<D: Disk>(disk: &mut D, at: u64) -> Result<u8, DiskStop>
    requires { ForSome (D.state disk.old).reads_as (λ file. at < length file) }
    ensures value { IfOk result (λ byte. ForSome (D.state disk.old).reads_as (λ file. byte ≡ slice_index file at)) }
    ensures same { IsAsBefore (D.state disk.old) (D.state disk.new) }
    ensures cause { HasCause (D.state disk.old).faults (D.state disk.new).faults (result_err result) DiskStop.Failed }
{
    let mut buf = [0];
    disk.read_at(at, &mut buf)?;
    Ok(buf[0])
}

// Whether an open gate stands there.
fn is_open<D: Disk>(disk: &mut D, gate: u64, len: u64) -> Result<bool, DiskStop>
    requires { ForSome (D.state disk.old).reads_as (λ file. len ≡ length file) }
    ensures gate { IfOk result (λ answer. ForSome (D.state disk.old).reads_as (λ file. IsTrue answer ↔ IsOpen file gate)) }
    ensures within { IfOk result (λ answer. IsTrue answer → gate < len) }
    ensures same { IsAsBefore (D.state disk.old) (D.state disk.new) }
    ensures cause { HasCause (D.state disk.old).faults (D.state disk.new).faults (result_err result) DiskStop.Failed }
{
    if gate < len {
        Ok(byte_at(disk, gate)? == 1)
    } else {
        Ok(false)
    }
}

// The number that four bytes are.
fn size_of(field: &[u8; 4]) -> u64
    ensures { IsSize result field.now }
{
    u64::from(u32::from_be_bytes(*field))
}

// The number in the four bytes at that place.
fn size_at<D: Disk>(disk: &mut D, at: u64) -> Result<u64, DiskStop>
    requires { ForSome (D.state disk.old).reads_as (λ file. at + 4 ≤ length file) }
    ensures value { IfOk result (λ size. ForSome (D.state disk.old).reads_as (λ file. IsSize size (take 4 (drop at file)))) }
    ensures same { IsAsBefore (D.state disk.old) (D.state disk.new) }
    ensures cause { HasCause (D.state disk.old).faults (D.state disk.new).faults (result_err result) DiskStop.Failed }
{
    let mut field = [0; 4];
    disk.read_at(at, &mut field)?;
    Ok(size_of(&field))
}

/// Makes a journal without an entry of a file of at most 9 bytes.
pub fn create<D: Disk>(alloc: Global, disk: &mut D) -> Result<Vec<u64>, DiskStop>
    requires { ForSome (D.state disk.old).reads_as (λ file. length file ≤ 9) }
    ensures gates { IfOk result (λ gates. gates.items ≡ 8 ∷ []) }
    ensures entries { OnOk result (HasEntries (D.state disk.new) []) }
    ensures durable { OnOk result (IsDurable (D.state disk.new)) }
    ensures any_moment { LeavesOnly (D.state disk.old) (D.state disk.new)
        (λ image. IsDurable (D.state disk.old) → ForSome (D.state disk.old).reads_as (λ _. length image ≤ 9)) }
    ensures cause { HasCause (D.state disk.old).faults (D.state disk.new).faults (result_err result) DiskStop.Failed }
{
    let mut gates = Vec::with_capacity(alloc, 1)?;
    gates.push(8)?;
    put(disk, 0, &[0; 9])?;
    put(disk, 0, &MAGIC)?;
    Ok(gates)
}

/// Reads the gates of a file that begins with the magic.
pub fn read_gates<D: Disk>(alloc: Global, disk: &mut D, len: u64) -> Result<Vec<u64>, Refusal>
    requires told { ForSome (D.state disk.old).reads_as (λ file. (len ≡ length file) × (take 8 file ≡ magic)) }
    requires long { 9 < len }
    requires limit { len ≤ LONGEST_FILE }
    ensures in_order { IfOk result (λ gates. AreInOrder gates.items × (last_gate gates.items ≤ len)) }
    ensures gates { IfOk result (λ gates. ForSome (D.state disk.old).reads_as (λ file. AreRead file gates.items)) }
    ensures refused { IfErr result (IsRefused (D.state disk.old) (D.state disk.new)) }
    ensures same { IsAsBefore (D.state disk.old) (D.state disk.new) }
    ensures later { (D.state disk.old).faults ≤ (D.state disk.new).faults }
{
    let mut gates = Vec::new(alloc);
    let mut gate = 8;
    'gates: loop {
        gates.push(gate)?;
        match Behind::read(disk, gate, len)? {
            Behind::Closed => return Ok(gates),
            Behind::Whole(next) => gate = next,
            Behind::Cut => return Err(Refusal::BadEntry(gates.len() as u32, gate)),
        }
    }
}

// Whether a gate of 0 stands at the end.
fn is_shut<D: Disk>(disk: &mut D, end: u64, len: u64) -> Result<bool, DiskStop>
    requires { ForSome (D.state disk.old).reads_as (λ file. len ≡ length file) }
    ensures shut { IfOk result (λ shut. ForSome (D.state disk.old).reads_as (λ file. IsTrue shut ↔ IsShut file end)) }
    ensures same { IsAsBefore (D.state disk.old) (D.state disk.new) }
    ensures cause { HasCause (D.state disk.old).faults (D.state disk.new).faults (result_err result) DiskStop.Failed }
{
    if end < len {
        Ok(byte_at(disk, end)? == 0)
    } else {
        Ok(false)
    }
}

/// Writes a gate of 0 at the end, where none stands.
pub fn close<D: Disk>(disk: &mut D, end: u64, len: u64) -> Result<(), DiskStop>
    requires told { ForSome (D.state disk.old).reads_as (λ file. len ≡ length file) }
    requires within { end ≤ len }
    requires long { 9 < len }
    ensures entries { OnOk result (ForSome (D.state disk.old).reads_as (λ file. EndsAt file end (HasEntries (D.state disk.new)))) }
    ensures durable { OnOk result (IsDurable (D.state disk.old) → IsDurable (D.state disk.new)) }
    ensures any_moment { LeavesOnly (D.state disk.old) (D.state disk.new) (MayClose (D.state disk.old) end) }
    ensures cause { HasCause (D.state disk.old).faults (D.state disk.new).faults (result_err result) DiskStop.Failed }
{
    if is_shut(disk, end, len)? {
        return Ok(());
    }
    put(disk, end, &[0])
}

// Reads the first bytes of a file of this length.
fn read_magic<D: Disk>(disk: &mut D, len: u64) -> Result<(), Refusal>
    requires told { ForSome (D.state disk.old).reads_as (λ file. len ≡ length file) }
    requires long { 9 < len }
    requires limit { len ≤ LONGEST_FILE }
    ensures magic { OnOk result (ForSome (D.state disk.old).reads_as (λ file. take 8 file ≡ magic)) }
    ensures refused { IfErr result (IsRefused (D.state disk.old) (D.state disk.new)) }
    ensures same { IsAsBefore (D.state disk.old) (D.state disk.new) }
    ensures later { (D.state disk.old).faults ≤ (D.state disk.new).faults }
{
    let mut first = [0; 8];
    disk.read_at(0, &mut first)?;
    if first != MAGIC {
        return Err(Refusal::NotJournal(first));
    }
    Ok(())
}

/// What a file holds: no entry in at most 9 bytes, or entries with the places of their gates.
pub enum Found {
    Empty,
    Entries { gates: Vec<u64>, len: u64 },
}

impl Found {
    ghost use Rattle.std.specs.Prelude.{◌≡◌, ◌≤◌, IfOk, IfErr};
    ghost use Rattle.std.specs.Option.{ForSome};
    ghost use Rattle.std.specs.Result.{result_err};
    ghost use Rattle.disk_edge.specs.Disk.{IsAsBefore};
    ghost use Rattle.journal.specs.Refusal.{IsRefused};
    ghost use Rattle.journal.specs.Found.{IsFound, IsOrderly};

    /// Reads the gates of a file. It writes nothing.
    pub fn read<D: Disk>(alloc: Global, disk: &mut D) -> Result<Found, Refusal>
        ensures found { IfOk result (λ found. ForSome (D.state disk.old).reads_as (λ file. IsFound file found)) }
        ensures orderly { IfOk result IsOrderly }
        ensures refused { IfErr result (IsRefused (D.state disk.old) (D.state disk.new)) }
        ensures same { IsAsBefore (D.state disk.old) (D.state disk.new) }
        ensures later { (D.state disk.old).faults ≤ (D.state disk.new).faults }
    {
        let len = disk.len()?;
        if len > LONGEST_FILE {
            return Err(Refusal::TooLong(len));
        }
        if len <= 9 {
            return Ok(Found::Empty);
        }
        read_magic(disk, len)?;
        let gates = read_gates(alloc, disk, len)?;
        Ok(Found::Entries { gates, len })
    }
}

/// Opens a journal: finds the places of its gates, and closes its end.
pub fn open<D: Disk>(alloc: Global, disk: &mut D) -> Result<Vec<u64>, Refusal>
    ensures in_order { IfOk result (λ gates. AreInOrder gates.items) }
    ensures kept { IfOk result (λ gates. IsKept (D.state disk.new) gates.items) }
    ensures found { OnOk result (ForSome (D.state disk.old).reads_as IsJournal) }
    ensures entries { OnOk result (ForSome (D.state disk.old).reads_as (λ file. (bodies : List (List ℕ)) → Holds file bodies
        → HasEntries (D.state disk.new) bodies)) }
    ensures refused { IfErr result (IsRefused (D.state disk.old) (D.state disk.new)) }
    ensures untouched { IfErr result (λ refusal. IsOfTheFile refusal → IsUntouched (D.state disk.old) (D.state disk.new)) }
    ensures any_moment { LeavesOnly (D.state disk.old) (D.state disk.new) (MayOpen (D.state disk.old)) }
    ensures later { (D.state disk.old).faults ≤ (D.state disk.new).faults }
{
    disk.sync()?;
    match Found::read(alloc, disk)? {
        Found::Empty => Ok(create(alloc, disk)?),
        Found::Entries { gates, len } => {
            close(disk, gates[gates.len() - 1], len)?;
            Ok(gates)
        }
    }
}
