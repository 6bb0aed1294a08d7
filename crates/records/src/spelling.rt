//! Records to bytes and back.

ghost use Rattle.std.specs.Prelude.{◌≡◌, ◌≤◌, length, IfOk};
ghost use Rattle.records.specs.declared.record.StationRecord.{StationRecord};
ghost use Rattle.records.specs.Reading.{Gives, header_at};
ghost use Rattle.records.specs.RecordBytes.{record_bytes};
ghost use Rattle.records.specs.RecordRanges.{IsRecord, Spells, Only, most_bytes};

use crate::body::{body_of, kind_byte, write_body, write_name};
use crate::numbers::{name_at, u8_at, u64_at};
use crate::{DecodeStop, StationRecord};
use base::{Bytes, Memory};
use partition::Name;
use std::alloc::Global;

/// The last moment, the last second of 9999-12-31, in seconds from the beginning of 1970.
const LAST_MOMENT: u64 = 253_402_300_799;

/// The spelling of a record in range, at most 262,138 bytes.
pub fn encode(alloc: Global, r: &StationRecord) -> Result<Bytes, Memory>
    requires { IsRecord r.now }
    ensures spelling { IfOk result (λ bytes. bytes ≡ record_bytes r.now) }
    ensures short { IfOk result (λ bytes. length bytes ≤ most_bytes) }
{
    let mut out = Bytes::new(alloc);
    out.push(kind_byte(&r.body))?;
    out.append(&r.moment.to_be_bytes())?;
    write_name(&r.id, &mut out)?;
    write_body(alloc, &r.body, &mut out)?;
    Ok(out)
}

/// The record that the bytes spell, all of them.
///
/// # Errors
///
/// [`DecodeStop::NotARecord`] exactly where no record in range has this spelling, [`DecodeStop::Memory`] where memory ran out.
pub fn decode(alloc: Global, bytes: &[u8]) -> Result<StationRecord, DecodeStop>
    // What is decoded is in range and spelled so.
    ensures found { IfOk result (λ r. Spells bytes.now r) }
    // What is in range and spelled so is decoded, unless memory runs out.
    ensures only { (r : StationRecord) → Spells bytes.now r → Only result r }
{
    let ((kind, moment, id), fields) = match header_of(bytes) {
        Ok(found) => found,
        Err(stop) => return Err(stop),
    };
    if moment > LAST_MOMENT {
        return Err(DecodeStop::NotARecord);
    }
    let body = body_of(alloc, kind, fields)?;
    Ok(StationRecord { id, moment, body })
}

/// The kind, the moment and the id at the front, and what follows them.
#[tactic(auto, unfolding(crate::specs::Reading::header_at))]
fn header_of(bytes: &[u8]) -> Result<((u8, u64, Name), &[u8]), DecodeStop>
    ensures { Gives (λ x. (x.0, x.1.now)) result (header_at bytes.now) }
{
    let (kind, rest) = u8_at(bytes)?;
    let (moment, rest) = u64_at(rest)?;
    let (id, rest) = match name_at(rest) {
        Ok(found) => found,
        Err(stop) => return Err(stop),
    };
    Ok(((kind, moment, id), rest))
}
