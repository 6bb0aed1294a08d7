//! Reads to an end and writes of all, over any source and sink.

ghost use Rattle.std.specs.Prelude.{◌≤◌, length, IfOk, OnOk, OnErr};
ghost use Rattle.std.specs.Result.{result_err};
ghost use Rattle.std.specs.Io.KnownBytes.{Appends};
ghost use Rattle.base.specs.Causes.{HasCause};
ghost use Rattle.bench_edge.specs.Streams.{SameOtherHalf, CountsFailure};
ghost use Rattle.bench_edge.specs.Whole.{TookFirst, LostFront, WroteFront, WrotePart};

use crate::stream::{EdgeStop, Sink, Source};
use base::Bytes;
use std::alloc::Global;

/// Reads until the end, or until `most` bytes were taken.
///
/// Failed comes only where the source's count of failed reads rose, and want of memory counts no failure. After a refusal what was read is lost.
pub fn read_upto<S: Source>(alloc: Global, source: &mut S, most: usize) -> Result<Bytes, EdgeStop>
    ensures bound { IfOk result (λ bytes. length bytes ≤ most) }
    ensures bytes { IfOk result (λ bytes. TookFirst (S.left source.old) (S.left source.new) most bytes) }
    ensures refused { OnErr result (LostFront (S.left source.old) (S.left source.new) most) }
    ensures cause { HasCause (S.read_faults source.old) (S.read_faults source.new) (result_err result) EdgeStop.Failed }
    ensures counted { CountsFailure (S.read_faults source.old) (S.read_faults source.new) result }
    ensures apart { SameOtherHalf (S.got source.old) (S.got source.new) (S.write_faults source.old) (S.write_faults source.new) }
{
    let mut taken = Bytes::new(alloc);
    let mut chunk = [0u8; 4096];
    while taken.len() < most {
        let room = (most - taken.len()).min(4096);
        let count = source.read(&mut chunk[..room])?;
        if count == 0 {
            break;
        }
        taken.append(&chunk[..count])?;
    }
    Ok(taken)
}

/// Writes all of these bytes.
///
/// Failed comes only where the sink's count of failed writes rose, and want of memory counts no failure.
/// After a refusal a front of the bytes was written, and not all of them.
pub fn write_all<O: Sink>(out: &mut O, bytes: &[u8]) -> Result<(), EdgeStop>
    ensures ok { OnOk result (Appends (O.got out.old) (O.got out.new) bytes.now) }
    ensures refused { OnErr result (WroteFront (O.got out.old) (O.got out.new) bytes.now) }
    ensures part { OnErr result (WrotePart (O.got out.old) (O.got out.new) bytes.now) }
    ensures cause { HasCause (O.write_faults out.old) (O.write_faults out.new) (result_err result) EdgeStop.Failed }
    ensures counted { CountsFailure (O.write_faults out.old) (O.write_faults out.new) result }
    ensures apart { SameOtherHalf (O.left out.old) (O.left out.new) (O.read_faults out.old) (O.read_faults out.new) }
{
    let mut at = 0;
    while at < bytes.len() {
        at += out.write(&bytes[at..])?;
    }
    Ok(())
}
