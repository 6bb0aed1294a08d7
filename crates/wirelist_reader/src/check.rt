//! What is wrong with a row, below the rows before it.

ghost use Rattle.std.specs.Prelude.{◌≡◌, ◌<◌, ◌+◌, ◌-◌, ◌^◌, length, take, All, OnOk, Some};
ghost use Rattle.std.specs.List.{list_all, list_any};
ghost use Rattle.wirelist_reader.specs.Kinds.{kind_of, is_number};
ghost use Rattle.wirelist_reader.specs.Rows.{field_at, is_kind};
ghost use Rattle.wirelist_reader.specs.Refusals.{Finds, FindsOrMemory, is_text, all_row_faults, row_faults, bad_field};
ghost use Rattle.wirelist_reader.specs.Reading.{IsFit, alone_faults};
ghost use Rattle.wirelist_reader.specs.Seen.{IsSeen};

use crate::field::{bad_place, is_number};
use crate::kind::{Kind, is_kind, is_single, kind_of};
use crate::seen::Seen;
use lines::read_number;
use std::alloc::Global;
use wirelist::WireRefusal;
use wirelist::ranges::POINTS;
use wirelist_rows::Row;

/// Finds the first fault of the rows, each below those before it.
pub(crate) fn check_rows(alloc: Global, rows: &[Row]) -> Result<(), WireRefusal>
    requires few { length rows.now < 2 ^ 32 - 1 }
    requires short { All (λ row. length row < 2 ^ 32 - 1) rows.now }
    ensures { FindsOrMemory (all_row_faults rows.now) result }
{
    let mut seen = Seen::new(alloc);
    for i in 0..rows.len() {
        if let Err(refusal) = check_row(alloc, &mut seen, rows, i) {
            return Err(refusal);
        }
    }
    Ok(())
}

/// Finds the first fault of a row.
fn check_row(alloc: Global, seen: &mut Seen, rows: &[Row], i: usize) -> Result<(), WireRefusal>
    requires few { length rows.now < 2 ^ 32 - 1 }
    requires short { All (λ row. length row < 2 ^ 32 - 1) rows.now }
    requires inside { i < length rows.now }
    requires seen { IsSeen (take i rows.now) seen.old.names seen.old.components }
    ensures finds { FindsOrMemory (row_faults rows.now i) result }
    ensures seen { OnOk result (IsSeen (take (i + 1) rows.now) seen.new.names seen.new.components) }
{
    let row = &rows[i];
    if row.is_empty() {
        return Ok(());
    }
    let number = i as u32 + 1;
    match check_alone(row, &rows[..i], number) {
        Ok(()) => seen.add(alloc, row, number),
        refused => refused,
    }
}

/// Finds the first fault of a row that no name and no count of others makes.
fn check_alone(row: &Row, before: &[Row], number: u32) -> Result<(), WireRefusal>
    requires some { 0 < length row.now }
    requires short { length row.now < 2 ^ 32 - 1 }
    ensures finds { Finds (alone_faults before.now row.now number) result }
    ensures fit { OnOk result (IsFit row.now) }
{
    if !is_text_row(row) {
        return Err(WireRefusal::NotText(number));
    }
    let Some(kind) = kind_of(row.field(0)) else {
        return Err(WireRefusal::UnknownKind(number));
    };
    if is_single(kind) && has_kind(before, kind) {
        return Err(WireRefusal::SecondRow(number));
    }
    match bad_place(kind, row) {
        Some(place) => Err(bad_field(row, number, place)),
        None => Ok(()),
    }
}

/// Whether all fields are printable ASCII.
fn is_text_row(row: &Row) -> bool
    ensures { result ≡ list_all is_text row.now }
{
    for place in 0..row.len() {
        if !is_text(row.field(place)) {
            return false;
        }
    }
    true
}

/// Whether a field is printable ASCII.
fn is_text(field: &[u8]) -> bool
    ensures { result ≡ is_text field.now }
{
    field.iter().all(|byte| 32 <= *byte && *byte <= 126)
}

/// Whether there is a row of this kind.
pub(crate) fn has_kind(rows: &[Row], kind: Kind) -> bool
    ensures { result ≡ list_any (is_kind kind) rows.now }
{
    rows.iter().any(|row| is_kind(row, kind))
}

/// How a bad field is told.
fn bad_field(row: &Row, number: u32, place: usize) -> WireRefusal
    requires { place < 2 ^ 32 - 1 }
    ensures { result ≡ bad_field row.now number place }
{
    if place == 1 && is_kind(row, Kind::Points) {
        if let Some(points) = read_number(row.field(1), POINTS.most + 1, 4_294_967_295) {
            return WireRefusal::TooManyPoints(points as u32);
        }
    }
    WireRefusal::BadField(number, place as u32 + 1)
}
