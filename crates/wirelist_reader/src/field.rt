//! The fields of a row.

ghost use Rattle.std.specs.Prelude.{◌≡◌, ◌≤◌, ◌<◌, ◌^◌, ◌+◌, ◌-◌, ◌%◌, ◌==◌, ◌&&◌, length, IsTrue, IfSome, option_map, slice_get};
ghost use Rattle.partition.specs.Names.{IsName};
ghost use Rattle.wirelist.specs.Numbers.{point_words};
ghost use Rattle.wirelist_reader.specs.Kinds.{number, is_number, fits as fits_shape, bad_fields};
ghost use Rattle.wirelist_reader.specs.Rows.{field_at, number_at};

use crate::kind::{Kind, Shape, shape_at};
use lines::read_number;
use partition::{Name, Point};
use wirelist::ranges::{NumberRange, POINT_WORDS};
use wirelist_rows::Row;

/// The first place of a field that is missing, surplus, or not what it may be.
pub(crate) fn bad_place(kind: Kind, row: &Row) -> Option<usize>
    requires { length row.now < 2 ^ 64 - 1 }
    ensures first { result ≡ slice_get (bad_fields kind row.now) 0 }
    ensures inside { IfSome result (λ place. place ≤ length row.now) }
{
    for i in 0..row.len() {
        let place = i + 1;
        if !fits(shape_at(kind, place), row.get(place)) {
            return Some(place);
        }
    }
    None
}

/// Whether a field, or the row's end, is what may stand there.
fn fits(shape: Shape, field: Option<&[u8]>) -> bool
    ensures { result ≡ fits_shape shape (option_map (λ f. f.now) field.entry) }
{
    match (shape, field) {
        (Shape::Name, Some(field)) => Name::read(field).is_some(),
        (Shape::Number(range), Some(field)) => is_number(field, range.low, range.most),
        (Shape::Volts(range), Some(field)) => are_volts(field, range.low, range.most),
        (Shape::MorePoints, Some(field)) => is_number(field, POINT_WORDS.low, POINT_WORDS.most),
        (Shape::MorePoints | Shape::End, None) => true,
        _ => false,
    }
}

/// Whether a field is a number of the range.
pub(crate) fn is_number(field: &[u8], low: u64, most: u64) -> bool
    ensures { result ≡ is_number low most field.now }
{
    match read_number(field, low, most) {
        Some(_) => true,
        None => false,
    }
}

/// Whether a field is a multiple of 50 of the range.
fn are_volts(field: &[u8], low: u64, most: u64) -> bool
    ensures { result ≡ (is_number low most field.now && (number field.now % 50 == 0)) }
{
    match read_number(field, low, most) {
        Some(volts) => volts % 50 == 0,
        None => false,
    }
}

/// The number of a range that a field is.
pub(crate) fn number_at(row: &Row, place: usize, range: NumberRange) -> u64
    requires { IsTrue (is_number range.low range.most (field_at row.now place)) }
    ensures number { result ≡ number_at row.now place }
    ensures low { range.low ≤ result }
    ensures most { result ≤ range.most }
{
    number_between(row, place, range.low, range.most)
}

/// The number from `low` to `most` that a field is.
fn number_between(row: &Row, place: usize, low: u64, most: u64) -> u64
    requires { IsTrue (is_number low most (field_at row.now place)) }
    ensures number { result ≡ number_at row.now place }
    ensures low { low ≤ result }
    ensures most { result ≤ most }
{
    match read_number(row.field(place), low, most) {
        Some(number) => number,
        None => unreachable!(),
    }
}

/// The point that a field is.
pub(crate) fn point_at(row: &Row, place: usize) -> Point
    requires { IsTrue (is_number point_words.low point_words.most (field_at row.now place)) }
    ensures { result ≡ number_at row.now place }
{
    Point(number_at(row, place, POINT_WORDS) as u16)
}

/// The name that a field is.
pub(crate) fn name_at(row: &Row, place: usize) -> Name
    requires { IsName (field_at row.now place) }
    ensures { result ≡ field_at row.now place }
{
    match Name::read(row.field(place)) {
        Some(name) => name,
        None => unreachable!(),
    }
}
