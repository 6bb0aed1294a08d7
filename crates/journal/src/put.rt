//! A write that is made sure of.
ghost use Rattle.std.specs.Prelude.{◌≡◌, ◌≤◌, Some, List, ℕ, length, OnOk};
ghost use Rattle.std.specs.Option.{ForSome};
ghost use Rattle.std.specs.Result.{result_err};
ghost use Rattle.base.specs.Causes.{HasCause};
ghost use Rattle.disk_edge.specs.Disk.{LeavesOnly, IsDurable, overwritten};
ghost use Rattle.journal.specs.Journal.{IsTornFrom};

use disk_edge::{Disk, DiskStop};

/// What was there stays but for the range, wherever it is stopped.
pub fn put<D: Disk>(disk: &mut D, at: u64, bytes: &[u8]) -> Result<(), DiskStop>
    requires { ForSome (D.state disk.old).reads_as (λ file. at ≤ length file) }
    ensures written { OnOk result (ForSome (D.state disk.old).reads_as (λ file. (D.state disk.new).reads_as ≡ Some (overwritten file at bytes.now))) }
    ensures durable { OnOk result (IsDurable (D.state disk.new)) }
    ensures any_moment { LeavesOnly (D.state disk.old) (D.state disk.new) (IsTornFrom (D.state disk.old) at (length bytes.now)) }
    ensures cause { HasCause (D.state disk.old).faults (D.state disk.new).faults (result_err result) DiskStop.Failed }
{
    disk.write_at(at, bytes)?;
    disk.sync()
}
