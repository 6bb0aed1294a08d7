//! A disk in memory, which keeps all its calls.
ghost use Rattle.std.specs.Prelude.{◌≡◌, ℕ, ◌+◌, ◌<◌, ◌≤◌, [], ◌∷◌, ◌++◌, length, take, ◌⊎◌, slice_index, OnOk, OnErr, IfOk, max, vec_len, vec_capacity};
ghost use Rattle.disk_edge.specs.Disk.{overwritten};
ghost use Rattle.disk_edge.specs.Image.{IsMarked};
ghost use Rattle.disk_edge.specs.MemDisk.{after_calls, state_of, longest_read_of};
ghost use Rattle.disk_edge.specs.MemDiskLaws.{image_law};
ghost use Rattle.disk_edge.specs.Since.{IsLastSync};

use crate::{Disk, DiskStop};
use base::{Bytes, Counts, Memory};
use std::alloc::{AllocError, Global};

/// A call that was made, with what it was to do and whether it was done.
#[derive(Drop)]
pub enum Call {
    Length,
    Read { at: u64, length: usize },
    Write { at: u64, bytes: Bytes, done: bool },
    Sync { done: bool },
}

/// A disk in memory. It is honest and tells its bytes, and its calls fail exactly at the numbers that it was given.
#[derive(Drop)]
pub struct MemDisk {
    alloc: Global,
    first: Bytes,
    bytes: Vec<u8>,
    calls: Vec<Call>,
    failing: Counts,
    faults: u64,
    ghost current: { bytes.items ≡ (after_calls first calls.items).bytes },
}

impl MemDisk {
    ghost use Rattle.std.specs.Prelude.{◌≡◌, ◌↔◌, [], Some, IfOk, IsTrue, Contains};
    ghost use Rattle.disk_edge.specs.Disk.{may_leave};
    ghost use Rattle.disk_edge.specs.Image.{IsPicked};
    ghost use Rattle.disk_edge.specs.MemDisk.{fresh, state_of, longest_read_of};
    ghost use Rattle.disk_edge.specs.MemDiskState.{mem_state, calls_of, failing_of, next_number};

    /// A disk of these bytes, which count as synced. The calls with these numbers, counted from 1, fail.
    pub fn new(alloc: Global, bytes: Bytes, failing: Counts) -> Result<Self, Memory>
        ensures state { IfOk result (λ disk. mem_state disk ≡ state_of (fresh bytes) 0) }
        ensures calls { IfOk result (λ disk. calls_of disk ≡ []) }
        ensures failing { IfOk result (λ disk. failing_of disk ≡ failing) }
    {
        let copy = bytes.as_slice().to_vec(alloc)?;
        Ok(MemDisk {
            alloc,
            first: bytes,
            bytes: copy,
            calls: Vec::new(alloc),
            failing,
            faults: 0,
        })
    }

    /// The bytes as it reads.
    pub fn bytes(&self) -> &[u8]
        ensures { (mem_state self.now).reads_as ≡ Some result.now }
    {
        self.bytes.as_slice()
    }

    /// Bytes that a crash now may leave. Pick 0 is the bytes as last synced. Picks 2 and 3 are the bytes as it reads, with 1 and 255 in
    /// each place that a write since the last sync reached or tried to reach. Each other pick is the bytes as it reads.
    pub fn image(&self, pick: u8) -> Result<Bytes, Memory>
        ensures left { IfOk result (λ image. may_leave (mem_state self.now) image) }
        ensures picked { IfOk result (λ image. IsPicked (mem_state self.now) pick image) }
    {
        let items = match pick {
            0 => self.synced()?,
            2 => self.marked(1)?,
            3 => self.marked(255)?,
            _ => self.copied()?,
        };
        Ok(Bytes::from_vec(items))
    }

    /// The greatest length of a buffer that `read_at` was to fill so far, 0 where there was none.
    pub fn longest_read(&self) -> u64
        ensures { result ≡ longest_read_of (calls_of self.now) }
    {
        let mut longest = 0;
        for call in &self.calls {
            if let Call::Read { at: _, length } = call {
                longest = longest.max(*length as u64);
            }
        }
        longest
    }

    // Whether the next call is one that fails.
    fn is_failing(&self) -> bool
        ensures { IsTrue result ↔ Contains (failing_of self.now) (next_number self.now) }
    {
        let number = self.calls.len() as u64 + 1;
        self.failing.contains(number)
    }

    // How many calls there are up to and with the last sync that was done.
    fn last_sync(&self) -> usize
        ensures { IsLastSync self.now.first self.now.calls.items result }
    {
        let mut number = 0;
        for (i, call) in self.calls.iter().enumerate() {
            if call.is_done_sync() {
                number = i + 1;
            }
        }
        number
    }

    // The bytes as last synced.
    fn synced(&self) -> Result<Vec<u8>, Memory>
        ensures { IfOk result (λ bytes. bytes.items ≡ (after_calls self.now.first self.now.calls.items).present.synced) }
    {
        replay(
            self.alloc,
            self.first.as_slice(),
            &self.calls[..self.last_sync()],
        )
    }

    // The bytes as it reads.
    fn copied(&self) -> Result<Vec<u8>, Memory>
        ensures { IfOk result (λ copy. copy.items ≡ self.now.bytes.items) }
    {
        Ok(self.bytes.as_slice().to_vec(self.alloc)?)
    }

    // The bytes as it reads, with this mark where a write since the last sync reached or tried to reach.
    fn marked(&self, mark: u8) -> Result<Vec<u8>, Memory>
        ensures { IfOk result (λ image. IsMarked mark (after_calls self.now.first self.now.calls.items).present.written self.now.bytes.items image.items) }
    {
        let from = self.last_sync();
        let mut image = self.copied()?;
        for call in &self.calls[from..] {
            if let Call::Write { at, bytes, done: _ } = call {
                fill(&mut image, *at as usize, bytes.len(), mark);
            }
        }
        Ok(image)
    }
}

impl Call {
    ghost use Rattle.std.specs.Prelude.{◌≡◌, ◌↔◌, IsTrue, true};
    ghost use Rattle.disk_edge.specs.declared.mem_disk.Call.TheVariants.{Sync};

    fn is_done_sync(&self) -> bool
        ensures { IsTrue result ↔ (self.now ≡ Sync true) }
    {
        matches!(self, Call::Sync { done: true })
    }
}

// What the bytes become by these calls.
fn replay(alloc: Global, first: &[u8], calls: &[Call]) -> Result<Vec<u8>, Memory>
    ensures { IfOk result (λ bytes. bytes.items ≡ (after_calls first.now calls.now).bytes) }
{
    let mut all = first.to_vec(alloc)?;
    for call in calls {
        if let Call::Write {
            at,
            bytes,
            done: true,
        } = call
        {
            let at = all.len().min(*at as usize);
            overwrite(&mut all, at, bytes.as_slice())?;
        }
    }
    Ok(all)
}

// Writes a mark into n bytes from that place on, as far as there are so many.
fn fill(all: &mut Vec<u8>, at: usize, n: usize, mark: u8)
    ensures long { length all.new.items ≡ length all.old.items }
    ensures outside { (place : ℕ) → (place < at) ⊎ (at + n ≤ place) → slice_index all.new.items place ≡ slice_index all.old.items place }
    ensures inside { (place : ℕ) → place < length all.old.items → at ≤ place → place < at + n → slice_index all.new.items place ≡ mark }
{
    let from = at.min(all.len());
    let to = at.saturating_add(n).min(all.len());
    for byte in all[from..to].iter_mut() {
        *byte = mark;
    }
}

// Puts the bytes at that place, over what is there and past the end.
fn overwrite(all: &mut Vec<u8>, at: usize, bytes: &[u8]) -> Result<(), AllocError>
    requires { at ≤ vec_len all.old }
    ensures ok { OnOk result (all.new.items ≡ overwritten all.old.items at bytes.now) }
    ensures err { OnErr result (all.new.items ≡ all.old.items) }
{
    let over = bytes.len().min(all.len() - at);
    all.extend_from_slice(&bytes[over..])?;
    all[at..at + over].copy_from_slice(&bytes[..over]);
    Ok(())
}

impl Disk for MemDisk {
    ghost use Rattle.std.specs.Prelude.{◌≡◌, ◌+◌, ◌≤◌, Some, length, slice_range, IfOk, IfSome, OnOk, OnErr};
    ghost use Rattle.std.specs.Option.{ForSome};
    ghost use Rattle.std.specs.Result.{result_err};
    ghost use Rattle.base.specs.Causes.{HasCause};
    ghost use Rattle.disk_edge.specs.Disk.{IsImage, IsAsBefore, Becomes, LeavesOnly, IsTorn, may_leave, overwritten, settled, touched};
    ghost use Rattle.disk_edge.specs.MemDiskState.{mem_state, MakesCall};
    ghost use Rattle.disk_edge.specs.declared.mem_disk.Call.TheVariants as call;

    ghost state = { λ disk. state_of (after_calls disk.first disk.calls.items) disk.faults };

    ghost reads_an_image = { λ disk all honest told. image_law disk.first disk.calls.items all told };

    fn len(&mut self) -> Result<u64, DiskStop>
        ensures length { IfOk result (λ n. ForSome (mem_state self.old).reads_as (λ all. n ≡ length all)) }
        ensures same { IsAsBefore (mem_state self.old) (mem_state self.new) }
        ensures cause { HasCause (mem_state self.old).faults (mem_state self.new).faults (result_err result) DiskStop.Failed }
        ensures call { MakesCall (λ _. call.Length) self.old self.new result }
    {
        let fails = self.is_failing();
        self.calls.push(Call::Length)?;
        if fails {
            self.faults = self.faults.saturating_add(1);
            return Err(DiskStop::Failed);
        }
        Ok(self.bytes.len() as u64)
    }

    fn read_at(&mut self, at: u64, buf: &mut [u8]) -> Result<(), DiskStop>
        requires { ForSome (mem_state self.old).reads_as (λ all. at + length buf.old ≤ length all) }
        ensures filled { OnOk result (ForSome (mem_state self.old).reads_as (λ all. buf.new ≡ slice_range all at (at + length buf.old))) }
        ensures same { IsAsBefore (mem_state self.old) (mem_state self.new) }
        ensures cause { HasCause (mem_state self.old).faults (mem_state self.new).faults (result_err result) DiskStop.Failed }
        ensures call { MakesCall (λ _. call.Read at (length buf.old)) self.old self.new result }
    {
        let fails = self.is_failing();
        self.calls.push(Call::Read {
            at,
            length: buf.len(),
        })?;
        if fails {
            self.faults = self.faults.saturating_add(1);
            return Err(DiskStop::Failed);
        }
        let from = at as usize;
        buf.copy_from_slice(&self.bytes[from..from + buf.len()]);
        Ok(())
    }

    fn write_at(&mut self, at: u64, bytes: &[u8]) -> Result<(), DiskStop>
        requires { ForSome (mem_state self.old).reads_as (λ all. at ≤ length all) }
        ensures written { OnOk result (ForSome (mem_state self.old).reads_as (λ all. (mem_state self.new).reads_as ≡ Some (overwritten all at bytes.now))) }
        ensures torn { OnErr result (ForSome (mem_state self.old).reads_as (λ all. IfSome (mem_state self.new).reads_as (IsTorn at (length bytes.now) all))) }
        ensures content { Becomes (mem_state self.old) result (touched (mem_state self.old).present at (length bytes.now)) (mem_state self.new) }
        ensures crash { LeavesOnly (mem_state self.old) (mem_state self.new) (IsImage (touched (mem_state self.old).present at (length bytes.now))) }
        ensures cause { HasCause (mem_state self.old).faults (mem_state self.new).faults (result_err result) DiskStop.Failed }
        ensures call { MakesCall (call.Write at bytes.now) self.old self.new result }
    {
        let done = !self.is_failing();
        let copy = Bytes::from_slice(self.alloc, bytes)?;
        self.calls.reserve(1)?;
        if done {
            overwrite(&mut self.bytes, at as usize, bytes)?;
        }
        self.calls
            .push(Call::Write {
                at,
                bytes: copy,
                done,
            })
            .unwrap();
        if done {
            return Ok(());
        }
        self.faults = self.faults.saturating_add(1);
        Err(DiskStop::Failed)
    }

    fn sync(&mut self) -> Result<(), DiskStop>
        ensures same { OnOk result ((mem_state self.new).reads_as ≡ (mem_state self.old).reads_as) }
        ensures content { ForSome (mem_state self.old).reads_as (λ all. Becomes (mem_state self.old) result (settled all) (mem_state self.new)) }
        ensures crash { LeavesOnly (mem_state self.old) (mem_state self.new) (may_leave (mem_state self.old)) }
        ensures cause { HasCause (mem_state self.old).faults (mem_state self.new).faults (result_err result) DiskStop.Failed }
        ensures call { MakesCall call.Sync self.old self.new result }
    {
        let done = !self.is_failing();
        self.calls.push(Call::Sync { done })?;
        if done {
            return Ok(());
        }
        self.faults = self.faults.saturating_add(1);
        Err(DiskStop::Failed)
    }
}
