//! An entry, and how it is put on a disk.
ghost use Rattle.std.specs.Prelude.{◌≡◌, ◌+◌, ◌<◌, ◌≤◌, ◌^◌, List, ℕ, [], ◌∷◌, ◌++◌, length, is_some, OnOk, IfOk};
ghost use Rattle.std.specs.Option.{ForSome};
ghost use Rattle.std.specs.Result.{result_err};
ghost use Rattle.base.specs.Causes.{HasCause};
ghost use Rattle.disk_edge.specs.Disk.{LeavesOnly, IsDurable};
ghost use Rattle.journal.specs.Format.{entry, sized, IsBeforeOrAfter};
ghost use Rattle.journal.specs.Journal.{HasEntries, IsNext, ReachesTo};

use crate::LONGEST_BODY;
use crate::put::put;
use base::Memory;
use disk_edge::{Disk, DiskStop};
use std::alloc::Global;

// An open gate, the length, the body and a closed gate.
#[tactic(auto, unfolding(crate::specs::Format::sized))]
pub fn entry_bytes(alloc: Global, body: &[u8]) -> Result<Vec<u8>, Memory>
    requires { length body.now ≤ LONGEST_BODY }
    ensures { IfOk result (λ bytes. bytes.items ≡ entry body.now ++ 0 ∷ []) }
{
    let mut bytes = Vec::with_capacity(alloc, body.len() + 6)?;
    bytes.push(1)?;
    bytes.extend_from_slice(&(body.len() as u32).to_be_bytes())?;
    bytes.extend_from_slice(body)?;
    bytes.push(0)?;
    Ok(bytes)
}

// Puts an entry behind the closed gate at this end, and then opens the gate.
pub fn put_entry<D: Disk>(disk: &mut D, end: u64, bytes: &[u8]) -> Result<(), DiskStop>
    requires room { end < 2 ^ 63 }
    requires gate { 1 ≤ length bytes.now }
    requires within { ForSome (D.state disk.old).reads_as (λ file. end < length file) }
    ensures ok { (bodies : List (List ℕ)) (body : List ℕ) → IsNext (D.state disk.old) end bytes.now bodies body
        → OnOk result (HasEntries (D.state disk.new) (bodies ++ body ∷ [])) }
    ensures durable { OnOk result (IsDurable (D.state disk.new)) }
    ensures any_moment { (bodies : List (List ℕ)) (body : List ℕ) → IsNext (D.state disk.old) end bytes.now bodies body
        → LeavesOnly (D.state disk.old) (D.state disk.new) (IsBeforeOrAfter bodies body) }
    ensures reach { LeavesOnly (D.state disk.old) (D.state disk.new) (ReachesTo (D.state disk.old) (end + length bytes.now)) }
    ensures tells { is_some (D.state disk.new).reads_as ≡ is_some (D.state disk.old).reads_as }
    ensures cause { HasCause (D.state disk.old).faults (D.state disk.new).faults (result_err result) DiskStop.Failed }
{
    let (gate, rest) = bytes.split_at(1);
    put(disk, end + 1, rest)?;
    put(disk, end, gate)
}
