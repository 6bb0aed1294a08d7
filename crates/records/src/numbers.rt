//! Numbers and names at the front of bytes.

ghost use Rattle.std.specs.Int.{w16, w32, w64};
ghost use Rattle.records.specs.Reading.{Gives, byte_at, number_at, name_at};

use crate::DecodeStop;
use partition::Name;

/// The byte at the front, and what follows it.
pub(crate) fn u8_at(bytes: &[u8]) -> Result<(u8, &[u8]), DecodeStop>
    ensures { Gives (λ x. (x.0, x.1.now)) result (byte_at bytes.now) }
{
    match bytes {
        [] => Err(DecodeStop::NotARecord),
        [byte, rest @ ..] => Ok((*byte, rest)),
    }
}

/// The number of 16 bits at the front, and what follows it.
#[tactic(auto, unfolding(crate::specs::Reading::number_at))]
pub(crate) fn u16_at(bytes: &[u8]) -> Result<(u16, &[u8]), DecodeStop>
    ensures { Gives (λ x. (x.0, x.1.now)) result (number_at w16 bytes.now) }
{
    if bytes.len() < 2 {
        return Err(DecodeStop::NotARecord);
    }
    let (front, rest) = bytes.split_at(2);
    Ok((u16::from_be_bytes([front[0], front[1]]), rest))
}

/// The number of 32 bits at the front, and what follows it.
#[tactic(auto, unfolding(crate::specs::Reading::number_at))]
pub(crate) fn u32_at(bytes: &[u8]) -> Result<(u32, &[u8]), DecodeStop>
    ensures { Gives (λ x. (x.0, x.1.now)) result (number_at w32 bytes.now) }
{
    if bytes.len() < 4 {
        return Err(DecodeStop::NotARecord);
    }
    let (front, rest) = bytes.split_at(4);
    let number = u32::from_be_bytes([front[0], front[1], front[2], front[3]]);
    Ok((number, rest))
}

/// The number of 64 bits at the front, and what follows it.
#[tactic(auto, unfolding(crate::specs::Reading::number_at))]
pub(crate) fn u64_at(bytes: &[u8]) -> Result<(u64, &[u8]), DecodeStop>
    ensures { Gives (λ x. (x.0, x.1.now)) result (number_at w64 bytes.now) }
{
    if bytes.len() < 8 {
        return Err(DecodeStop::NotARecord);
    }
    let (front, rest) = bytes.split_at(8);
    let number = u64::from_be_bytes([
        front[0], front[1], front[2], front[3], front[4], front[5], front[6], front[7],
    ]);
    Ok((number, rest))
}

/// The name at the front, behind a byte of its length, and what follows it.
#[tactic(auto, unfolding(crate::specs::Reading::name_at, crate::specs::Reading::bytes_at))]
pub(crate) fn name_at(bytes: &[u8]) -> Result<(Name, &[u8]), DecodeStop>
    ensures { Gives (λ x. (x.0, x.1.now)) result (name_at bytes.now) }
{
    let (len, rest) = u8_at(bytes)?;
    let len = len as usize;
    if rest.len() < len {
        return Err(DecodeStop::NotARecord);
    }
    let (front, rest) = rest.split_at(len);
    match Name::read(front) {
        Some(name) => Ok((name, rest)),
        None => Err(DecodeStop::NotARecord),
    }
}
