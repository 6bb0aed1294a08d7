//! The closing lines.

ghost use Rattle.std.specs.Prelude.{◌≡◌, ◌++◌, ◌<◌, ◌∷◌, [], IfOk, OnOk, codes, decimal};
ghost use Rattle.unopened.specs.Refused.{entry_text, hex_digit, hex_text, file_line, refused_line};
ghost use Rattle.journal.specs.declared.refusal.Refusal.TheVariants as why;
ghost use Rattle.ledger.specs.Opening.{bad_record};

use base::{Bytes, Memory};
use std::alloc::Global;

/// The line of a file that is no journal, by its first bytes.
pub(crate) fn foreign_line(alloc: Global, first: &[u8; 8]) -> Result<Bytes, Memory>
    ensures { IfOk result (λ line. line ≡ file_line (why.NotJournal first.now)) }
{
    let mut line = Bytes::from_slice(alloc, b"journal refused 1 ")?;
    append_hex(&mut line, first)?;
    line.append(b"\n")?;
    Ok(line)
}

/// The line of an entry that is cut.
pub(crate) fn cut_line(alloc: Global, number: u32, place: u64) -> Result<Bytes, Memory>
    ensures { IfOk result (λ line. line ≡ file_line (why.BadEntry number place)) }
{
    let mut line = Bytes::from_slice(alloc, b"journal refused 2")?;
    append_entry(alloc, &mut line, number, place)?;
    line.append(b"\n")?;
    Ok(line)
}

/// The line of a file that is too long.
pub(crate) fn long_line(alloc: Global, len: u64) -> Result<Bytes, Memory>
    ensures { IfOk result (λ line. line ≡ file_line (why.TooLong len)) }
{
    let mut line = Bytes::from_slice(alloc, b"journal refused 3 length ")?;
    append_decimal(alloc, &mut line, len)?;
    line.append(b"\n")?;
    Ok(line)
}

/// The line of an entry that is no record.
pub(crate) fn wrong_line(alloc: Global, number: u32, place: u64) -> Result<Bytes, Memory>
    ensures { IfOk result (λ line. line ≡ refused_line (bad_record number place)) }
{
    let mut line = Bytes::from_slice(alloc, b"journal refused 4")?;
    append_entry(alloc, &mut line, number, place)?;
    line.append(b"\n")?;
    Ok(line)
}

/// Appends the number of an entry and the place of its gate.
fn append_entry(alloc: Global, line: &mut Bytes, number: u32, place: u64) -> Result<(), Memory>
    ensures { OnOk result (line.new ≡ line.old ++ entry_text number place) }
{
    line.append(b" record ")?;
    append_decimal(alloc, line, number as u64)?;
    line.append(b" at ")?;
    append_decimal(alloc, line, place)
}

/// Appends a number.
fn append_decimal(alloc: Global, line: &mut Bytes, number: u64) -> Result<(), Memory>
    ensures { OnOk result (line.new ≡ line.old ++ decimal number) }
{
    let digits = format!(in alloc; "{number}")?;
    line.append(digits.as_bytes())
}

/// Appends two digits to the base of 16 for each byte.
fn append_hex(line: &mut Bytes, bytes: &[u8]) -> Result<(), Memory>
    ensures { OnOk result (line.new ≡ line.old ++ hex_text bytes.now) }
{
    for byte in bytes {
        line.append(&[hex_digit(*byte / 16), hex_digit(*byte % 16)])?;
    }
    Ok(())
}

/// A digit to the base of 16.
fn hex_digit(digit: u8) -> u8
    requires { digit < 16 }
    ensures { result ≡ hex_digit digit }
{
    if digit < 10 {
        b'0' + digit
    } else {
        b'a' - 10 + digit
    }
}
