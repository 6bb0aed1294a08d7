//! A disk as a journal sees it.
ghost use Rattle.std.specs.Prelude.{◌≡◌, ◌+◌, ◌≤◌, Some, List, ℕ, length, slice_range, IfOk, IfSome, OnOk, OnErr, IsTrue};
ghost use Rattle.std.specs.Option.{ForSome};
ghost use Rattle.std.specs.Result.{result_err};
ghost use Rattle.disk_edge.specs.declared.disk.DiskStop.TheVariants.{Memory};
ghost use Rattle.base.specs.Causes.{HasCause};
ghost use Rattle.disk_edge.specs.Disk.{DiskState, IsImage, IsAsBefore, Becomes, LeavesOnly, IsTorn, may_leave, overwritten, settled, touched};

use base::Memory;
use std::alloc::{AllocError, AllocFailed};
use thiserror::Error;

/// Why a call of a disk was refused.
#[derive(Clone, Copy, Debug, PartialEq, Eq, Error)]
pub enum DiskStop {
    /// The disk failed. Its count of faults rose.
    #[error("the disk failed")]
    Failed,
    /// Memory ran out.
    #[error("out of memory")]
    Memory,
}

impl From<Memory> for DiskStop {
    ghost from_gives = { λ _ e. e ≡ Memory };

    fn from(_: Memory) -> Self {
        DiskStop::Memory
    }
}

impl From<AllocError> for DiskStop {
    ghost from_gives = { λ _ e. e ≡ Memory };

    fn from(_: AllocError) -> Self {
        DiskStop::Memory
    }
}

impl<T: Drop> From<AllocFailed<T>> for DiskStop {
    ghost from_gives = { λ _ e. e ≡ Memory };

    fn from(_: AllocFailed<T>) -> Self {
        DiskStop::Memory
    }
}

/// A disk of one file, seen as what is known of it: what it reads as where it tells, what a crash may leave now and might have left
/// earlier, whether it is honest, and how many faults it counted. A call that fails counts a fault.
pub trait Disk {
    ghost state: { Self → DiskState };

    /// The length in bytes.
    fn len(&mut self) -> Result<u64, DiskStop>
        ensures length { IfOk result (λ n. ForSome (state self.old).reads_as (λ all. n ≡ length all)) }
        ensures same { IsAsBefore (state self.old) (state self.new) }
        ensures cause { HasCause (state self.old).faults (state self.new).faults (result_err result) DiskStop.Failed };

    /// Fills the buffer with the bytes from that place on.
    fn read_at(&mut self, at: u64, buf: &mut [u8]) -> Result<(), DiskStop>
        requires { ForSome (state self.old).reads_as (λ all. at + length buf.old ≤ length all) }
        ensures filled { OnOk result (ForSome (state self.old).reads_as (λ all. buf.new ≡ slice_range all at (at + length buf.old))) }
        ensures same { IsAsBefore (state self.old) (state self.new) }
        ensures cause { HasCause (state self.old).faults (state self.new).faults (result_err result) DiskStop.Failed };

    /// Writes over what is there, and past the end. After a refusal any bytes may stand in the range. Until a sync, a crash may leave any bytes in the range.
    fn write_at(&mut self, at: u64, bytes: &[u8]) -> Result<(), DiskStop>
        requires { ForSome (state self.old).reads_as (λ all. at ≤ length all) }
        ensures written { OnOk result (ForSome (state self.old).reads_as (λ all. (state self.new).reads_as ≡ Some (overwritten all at bytes.now))) }
        ensures torn { OnErr result (ForSome (state self.old).reads_as (λ all. IfSome (state self.new).reads_as (IsTorn at (length bytes.now) all))) }
        ensures content { Becomes (state self.old) result (touched (state self.old).present at (length bytes.now)) (state self.new) }
        ensures crash { LeavesOnly (state self.old) (state self.new) (IsImage (touched (state self.old).present at (length bytes.now))) }
        ensures cause { HasCause (state self.old).faults (state self.new).faults (result_err result) DiskStop.Failed };

    /// After it, a crash leaves what a read gives.
    fn sync(&mut self) -> Result<(), DiskStop>
        ensures same { OnOk result ((state self.new).reads_as ≡ (state self.old).reads_as) }
        ensures content { ForSome (state self.old).reads_as (λ all. Becomes (state self.old) result (settled all) (state self.new)) }
        ensures crash { LeavesOnly (state self.old) (state self.new) (may_leave (state self.old)) }
        ensures cause { HasCause (state self.old).faults (state self.new).faults (result_err result) DiskStop.Failed };

    /// What it reads as is one of its images.
    ghost reads_an_image: { (disk : Self) (all : List ℕ) → IsTrue (state disk).honest → (state disk).reads_as ≡ Some all → IsImage (state disk).present all };
}
