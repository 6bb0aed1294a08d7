//! Dates, read and printed by `jiff`.

ghost use Rattle.std.specs.Prelude.{◌≡◌, ◌≢◌, ◌<◌, ◌≤◌, ◌∷◌, [], ℕ, pos, IfOk, IfNone, IfSome};
ghost use Rattle.jiff.specs.Words.{epoch_day};
ghost use Rattle.records.specs.RecordRanges.{last_day};
ghost use Rattle.serials.specs.Dates.{Civil, civil, civil_text, day_text, read_date, two_digits, IsWritten};

use base::{Memory, Text};
use jiff::ToSpan;
use jiff::civil::{Date, date};
use std::alloc::Global;

/// How many bytes a date has.
const DATE_LEN: usize = 10;

/// The date of a day, counted from 1970-01-01, at most 2,932,896: `2024-05-01` for 19,844.
pub fn date_text(alloc: Global, day: u32) -> Result<Text, Memory>
    requires { day ≤ last_day }
    ensures { IfOk result (λ text. text ≡ day_text day) }
{
    let text = date_of(day).to_string(alloc)?;
    Ok(Text::from_string(text))
}

/// The date of a day.
fn date_of(day: u32) -> Date
    requires { day ≤ last_day }
    ensures { epoch_day result ≡ pos day }
{
    date(1970, 1, 1) + i64::from(day).days()
}

/// The day whose date the bytes are, None where they are none.
pub(crate) fn read_date(bytes: &[u8]) -> Option<u32>
    ensures { result ≡ read_date bytes.now }
{
    day_of(bytes)
}

/// The same, by the texts of all days.
fn day_of(bytes: &[u8]) -> Option<u32>
    ensures none { IfNone result ((n : ℕ) → n ≤ last_day → day_text n ≢ bytes.now) }
    ensures some { IfSome result (λ n. (n ≤ last_day) × (day_text n ≡ bytes.now)) }
{
    let Some((year, month, day)) = parts(bytes) else {
        return None;
    };
    let Ok(found) = Date::new(year as i16, month as i8, day as i8) else {
        return None;
    };
    match u32::try_from(found.to_plain().to_unix_epoch_day()) {
        Ok(number) => Some(number),
        Err(_) => None,
    }
}

/// The year, the month and the day that the bytes write: four digits, a dash, two digits, a dash and two digits.
fn parts(bytes: &[u8]) -> Option<(u16, u8, u8)>
    ensures none { IfNone result ((c : Civil) → IsWritten c → civil_text c ≢ bytes.now) }
    ensures some { IfSome result (λ p. IsWritten (civil p.0 p.1 p.2) × (civil_text (civil p.0 p.1 p.2) ≡ bytes.now)) }
{
    if bytes.len() != DATE_LEN || bytes[4] != b'-' || bytes[7] != b'-' {
        return None;
    }
    let Some(century) = two(bytes[0], bytes[1]) else {
        return None;
    };
    let Some(year) = two(bytes[2], bytes[3]) else {
        return None;
    };
    let Some(month) = two(bytes[5], bytes[6]) else {
        return None;
    };
    let Some(day) = two(bytes[8], bytes[9]) else {
        return None;
    };
    Some((u16::from(century) * 100 + u16::from(year), month, day))
}

/// The number that two digits write.
fn two(a: u8, b: u8) -> Option<u8>
    ensures none { IfNone result ((n : ℕ) → n < 100 → two_digits n ≢ a ∷ b ∷ []) }
    ensures some { IfSome result (λ n. (n < 100) × (two_digits n ≡ a ∷ b ∷ [])) }
{
    if a.is_ascii_digit() && b.is_ascii_digit() {
        Some((a - b'0') * 10 + (b - b'0'))
    } else {
        None
    }
}
