//! The fields of each kind of record.

ghost use Rattle.std.specs.Prelude.{◌≡◌, ◌↔◌, ◌++◌, IsTrue, OnOk, if◌then◌else◌};
ghost use Rattle.partition.specs.Names.{IsName};
ghost use Rattle.wirelist.specs.Numbers.{IsWithin};
ghost use Rattle.wirelist.specs.Ranges.{OutcomeInRange};
ghost use Rattle.records.specs.Reading.{Gives, staff_at, tested_at};
ghost use Rattle.records.specs.RecordBytes.{kind_of, test_kind, name_bytes, four_bytes, staff_bytes, tested_bytes, body_bytes};
ghost use Rattle.records.specs.RecordRanges.{Decodes, IsDay, IsTestedAs, IsBody, IsBodyOf, most_attempts};

use crate::adopted::{program_of, write_program};
use crate::numbers::{name_at, u8_at, u32_at};
use crate::outcome::{is_in_range, outcome_of, write_outcome};
use crate::{Body, DecodeStop, Staff};
use base::{Bytes, Memory};
use partition::Name;
use std::alloc::Global;
use wirelist::Outcome;

// The first byte of each kind of record.
const ADOPT: u8 = 1;

const ENROL: u8 = 2;

const CALIBRATE: u8 = 3;

const TESTED: u8 = 4;

const REWORK: u8 = 5;

const RELEASE: u8 = 6;

const SCRAP: u8 = 7;

const MARK: u8 = 8;

const TESTED_BY_STAFF: u8 = 9;

/// The number of the last day, 9999-12-31, from 1970-01-01.
const LAST_DAY: u32 = 2_932_896;

/// A unit is tested at most so many times.
const MOST_ATTEMPTS: u8 = 9;

/// What the fields of a record of this kind say; they are all of the bytes.
pub(crate) fn body_of(alloc: Global, kind: u8, fields: &[u8]) -> Result<Body, DecodeStop>
    ensures { Decodes (IsBodyOf kind) body_bytes fields.now result }
{
    match kind {
        ADOPT => Ok(Body::Adopt(program_of(alloc, fields)?)),
        ENROL => Ok(Body::Enrol(serial_of(fields)?)),
        CALIBRATE => Ok(Body::Calibrate(day_of(fields)?)),
        TESTED => test_of(alloc, false, fields),
        REWORK => Ok(Body::Rework(serial_of(fields)?)),
        RELEASE => Ok(Body::Release(serial_of(fields)?)),
        SCRAP => Ok(Body::Scrap(serial_of(fields)?)),
        MARK => mark_of(fields),
        TESTED_BY_STAFF => test_of(alloc, true, fields),
        _ => Err(DecodeStop::NotARecord),
    }
}

/// The serial that is all of the bytes.
fn serial_of(fields: &[u8]) -> Result<Name, DecodeStop>
    ensures { Decodes IsName name_bytes fields.now result }
{
    let (serial, rest) = match name_at(fields) {
        Ok(found) => found,
        Err(stop) => return Err(stop),
    };
    if !rest.is_empty() {
        return Err(DecodeStop::NotARecord);
    }
    Ok(serial)
}

/// The day that is all of the bytes.
fn day_of(fields: &[u8]) -> Result<u32, DecodeStop>
    ensures { Decodes IsDay four_bytes fields.now result }
{
    let (day, rest) = u32_at(fields)?;
    if !rest.is_empty() {
        return Err(DecodeStop::NotARecord);
    }
    if day > LAST_DAY {
        return Err(DecodeStop::NotARecord);
    }
    Ok(day)
}

/// A mark, which has no fields.
fn mark_of(fields: &[u8]) -> Result<Body, DecodeStop>
    ensures { Decodes (IsBodyOf MARK) body_bytes fields.now result }
{
    if !fields.is_empty() {
        return Err(DecodeStop::NotARecord);
    }
    Ok(Body::Mark)
}

/// The test that is all of the bytes; `has_staff` tells whether it names who made it and where.
fn test_of(alloc: Global, has_staff: bool, fields: &[u8]) -> Result<Body, DecodeStop>
    ensures { Decodes (IsBodyOf (if has_staff then TESTED_BY_STAFF else TESTED)) body_bytes fields.now result }
{
    let (serial, attempt, staff, outcome) = tested_of(alloc, has_staff, fields)?;
    Ok(Body::Tested {
        serial,
        attempt,
        staff,
        outcome,
    })
}

/// The serial, the number of the test, who made it and where, and the outcome that are all of the bytes.
fn tested_of(
    alloc: Global,
    has_staff: bool,
    fields: &[u8],
) -> Result<(Name, u8, Option<Staff>, Outcome), DecodeStop>
    ensures { Decodes (IsTestedAs has_staff) tested_bytes fields.now result }
{
    let (tested, rest) = match tested_at(alloc, has_staff, fields) {
        Ok(found) => found,
        Err(stop) => return Err(stop),
    };
    if !rest.is_empty() {
        return Err(DecodeStop::NotARecord);
    }
    let (_, attempt, _, outcome) = &tested;
    if !is_test(*attempt, outcome) {
        return Err(DecodeStop::NotARecord);
    }
    Ok(tested)
}

/// Whether the number of a test and its outcome are in range.
fn is_test(attempt: u8, outcome: &Outcome) -> bool
    ensures { IsTrue result ↔ (IsWithin 1 most_attempts attempt × OutcomeInRange outcome.now) }
{
    if attempt < 1 || attempt > MOST_ATTEMPTS {
        return false;
    }
    is_in_range(outcome)
}

/// A serial, the number of a test, who made it and where, and an outcome at the front, whatever their ranges, and what follows
/// them.
#[tactic(auto, unfolding(crate::specs::Reading::tested_at))]
fn tested_at(
    alloc: Global,
    has_staff: bool,
    bytes: &[u8],
) -> Result<((Name, u8, Option<Staff>, Outcome), &[u8]), DecodeStop>
    ensures { Gives (λ x. (x.0, x.1.now)) result (tested_at has_staff bytes.now) }
{
    let (serial, rest) = match name_at(bytes) {
        Ok(found) => found,
        Err(stop) => return Err(stop),
    };
    let (attempt, rest) = u8_at(rest)?;
    let (staff, rest) = match staff_at(has_staff, rest) {
        Ok(found) => found,
        Err(stop) => return Err(stop),
    };
    let (outcome, rest) = outcome_of(alloc, rest)?;
    Ok(((serial, attempt, staff, outcome), rest))
}

/// Who made a test and where, at the front where the test names it, and what follows.
#[tactic(auto, unfolding(crate::specs::Reading::staff_at))]
fn staff_at(has_staff: bool, bytes: &[u8]) -> Result<(Option<Staff>, &[u8]), DecodeStop>
    ensures { Gives (λ x. (x.0, x.1.now)) result (staff_at has_staff bytes.now) }
{
    if !has_staff {
        return Ok((None, bytes));
    }
    let (operator, rest) = match name_at(bytes) {
        Ok(found) => found,
        Err(stop) => return Err(stop),
    };
    let (fixture, rest) = match name_at(rest) {
        Ok(found) => found,
        Err(stop) => return Err(stop),
    };
    Ok((Some(Staff { operator, fixture }), rest))
}

/// The first byte of a record.
pub(crate) fn kind_byte(body: &Body) -> u8
    ensures { result ≡ kind_of body.now }
{
    match body {
        Body::Adopt(_) => ADOPT,
        Body::Enrol(_) => ENROL,
        Body::Calibrate(_) => CALIBRATE,
        Body::Tested { staff, .. } => test_kind(staff),
        Body::Rework(_) => REWORK,
        Body::Release(_) => RELEASE,
        Body::Scrap(_) => SCRAP,
        Body::Mark => MARK,
    }
}

/// The first byte of a test's record.
fn test_kind(staff: &Option<Staff>) -> u8
    ensures { result ≡ test_kind staff.now }
{
    match staff {
        Some(_) => TESTED_BY_STAFF,
        None => TESTED,
    }
}

/// Appends the fields of a record.
pub(crate) fn write_body(alloc: Global, body: &Body, out: &mut Bytes) -> Result<(), Memory>
    requires { IsBody body.now }
    ensures { OnOk result (out.new ≡ out.old ++ body_bytes body.now) }
{
    match body {
        Body::Adopt(program) => write_program(alloc, program, out),
        Body::Enrol(serial) => write_name(serial, out),
        Body::Calibrate(day) => out.append(&day.to_be_bytes()),
        Body::Tested {
            serial,
            attempt,
            staff,
            outcome,
        } => {
            write_name(serial, out)?;
            out.push(*attempt)?;
            write_staff(staff, out)?;
            write_outcome(outcome, out)
        }
        Body::Rework(serial) => write_name(serial, out),
        Body::Release(serial) => write_name(serial, out),
        Body::Scrap(serial) => write_name(serial, out),
        Body::Mark => Ok(()),
    }
}

/// Appends who made a test and where, where it is named.
fn write_staff(staff: &Option<Staff>, out: &mut Bytes) -> Result<(), Memory>
    ensures { OnOk result (out.new ≡ out.old ++ staff_bytes staff.now) }
{
    match staff {
        Some(staff) => {
            write_name(&staff.operator, out)?;
            write_name(&staff.fixture, out)
        }
        None => Ok(()),
    }
}

/// Appends a byte of length, and the name.
pub(crate) fn write_name(name: &Name, out: &mut Bytes) -> Result<(), Memory>
    ensures { OnOk result (out.new ≡ out.old ++ name_bytes name.now) }
{
    let bytes = name.bytes();
    out.push(bytes.len() as u8)?;
    out.append(bytes)
}
