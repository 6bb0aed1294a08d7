//! The kinds of rows, and the fields of each.

ghost use Rattle.std.specs.Prelude.{◌≡◌, ◌≤◌};
ghost use Rattle.wirelist_reader.specs.Kinds.{kind_of, kind_word, shape_at};
ghost use Rattle.wirelist_reader.specs.Rows.{is_kind};
ghost use Rattle.wirelist_reader.specs.Refusals.{is_single};
ghost use Rattle.wirelist_reader.specs.declared.kind.Kind.TheVariants as kinds;

use wirelist::ranges::{
    ATTEMPTS, INSULATION_TICKS, INSULATION_VOLTS, MEGOHMS, MILLIOHMS, MILLIVOLTS, NANOAMPS,
    NumberRange, POINT_WORDS, POINTS, REVISIONS, WITHSTAND_TICKS, WITHSTAND_VOLTS,
};
use wirelist_rows::Row;

/// A kind of row.
#[derive(Clone, Copy, Debug, PartialEq, Eq)]
pub enum Kind {
    Part,
    Points,
    Net,
    Ignore,
    Resistor,
    Diode,
    Insulation,
    Withstand,
    Attempts,
}

/// What a field may be.
#[derive(Clone, Copy, Debug, PartialEq, Eq)]
pub enum Shape {
    /// A name.
    Name,
    /// A number of the range.
    Number(NumberRange),
    /// A multiple of 50 of the range.
    Volts(NumberRange),
    /// A point, or the row's end.
    MorePoints,
    /// The row's end.
    End,
}

/// The first field of a row.
fn kind_word(kind: Kind) -> &'static [u8]
    ensures { result.now ≡ kind_word kind }
{
    match kind {
        Kind::Part => b"part",
        Kind::Points => b"points",
        Kind::Net => b"net",
        Kind::Ignore => b"ignore",
        Kind::Resistor => b"resistor",
        Kind::Diode => b"diode",
        Kind::Insulation => b"insulation",
        Kind::Withstand => b"withstand",
        Kind::Attempts => b"attempts",
    }
}

/// The kind that a row's first field names.
pub(crate) fn kind_of(word: &[u8]) -> Option<Kind>
    ensures { result ≡ kind_of word.now }
{
    let kind = if word == kind_word(Kind::Part) {
        Kind::Part
    } else if word == kind_word(Kind::Points) {
        Kind::Points
    } else if word == kind_word(Kind::Net) {
        Kind::Net
    } else if word == kind_word(Kind::Ignore) {
        Kind::Ignore
    } else if word == kind_word(Kind::Resistor) {
        Kind::Resistor
    } else if word == kind_word(Kind::Diode) {
        Kind::Diode
    } else if word == kind_word(Kind::Insulation) {
        Kind::Insulation
    } else if word == kind_word(Kind::Withstand) {
        Kind::Withstand
    } else if word == kind_word(Kind::Attempts) {
        Kind::Attempts
    } else {
        return None;
    };
    Some(kind)
}

/// Whether a row is of this kind.
pub(crate) fn is_kind(row: &Row, kind: Kind) -> bool
    ensures { result ≡ is_kind kind row.now }
{
    row.field(0) == kind_word(kind)
}

/// Whether a file has one row of this kind at most.
pub(crate) fn is_single(kind: Kind) -> bool
    ensures { result ≡ is_single kind }
{
    match kind {
        Kind::Net | Kind::Resistor | Kind::Diode => false,
        Kind::Part
        | Kind::Points
        | Kind::Ignore
        | Kind::Insulation
        | Kind::Withstand
        | Kind::Attempts => true,
    }
}

/// What the field at a place may be, the first field having place 0.
pub(crate) fn shape_at(kind: Kind, place: usize) -> Shape
    requires { 1 ≤ place }
    ensures { result ≡ shape_at kind place }
{
    match kind {
        Kind::Part => part_shape(place),
        Kind::Points => points_shape(place),
        Kind::Net => net_shape(place),
        Kind::Ignore => ignore_shape(place),
        Kind::Resistor => resistor_shape(place),
        Kind::Diode => diode_shape(place),
        Kind::Insulation => insulation_shape(place),
        Kind::Withstand => withstand_shape(place),
        Kind::Attempts => attempts_shape(place),
    }
}

/// `part,NAME,REVISION`
fn part_shape(place: usize) -> Shape
    requires { 1 ≤ place }
    ensures { result ≡ shape_at kinds.Part place }
{
    match place {
        1 => Shape::Name,
        2 => Shape::Number(REVISIONS),
        _ => Shape::End,
    }
}

/// `points,N`
fn points_shape(place: usize) -> Shape
    requires { 1 ≤ place }
    ensures { result ≡ shape_at kinds.Points place }
{
    match place {
        1 => Shape::Number(POINTS),
        _ => Shape::End,
    }
}

/// `net,NAME,P,P`
fn net_shape(place: usize) -> Shape
    requires { 1 ≤ place }
    ensures { result ≡ shape_at kinds.Net place }
{
    match place {
        1 => Shape::Name,
        _ => Shape::MorePoints,
    }
}

/// `ignore,P,P`
fn ignore_shape(place: usize) -> Shape
    requires { 1 ≤ place }
    ensures { result ≡ shape_at kinds.Ignore place }
{
    match place {
        1 => Shape::Number(POINT_WORDS),
        _ => Shape::MorePoints,
    }
}

/// `resistor,NAME,A,B,MIN,MAX`, in milliohms.
fn resistor_shape(place: usize) -> Shape
    requires { 1 ≤ place }
    ensures { result ≡ shape_at kinds.Resistor place }
{
    match place {
        1 => Shape::Name,
        2 | 3 => Shape::Number(POINT_WORDS),
        4 | 5 => Shape::Number(MILLIOHMS),
        _ => Shape::End,
    }
}

/// `diode,NAME,FROM,TO,MIN,MAX`, in millivolts.
fn diode_shape(place: usize) -> Shape
    requires { 1 ≤ place }
    ensures { result ≡ shape_at kinds.Diode place }
{
    match place {
        1 => Shape::Name,
        2 | 3 => Shape::Number(POINT_WORDS),
        4 | 5 => Shape::Number(MILLIVOLTS),
        _ => Shape::End,
    }
}

/// `insulation,VOLTS,TICKS,MEGOHMS`
fn insulation_shape(place: usize) -> Shape
    requires { 1 ≤ place }
    ensures { result ≡ shape_at kinds.Insulation place }
{
    match place {
        1 => Shape::Volts(INSULATION_VOLTS),
        2 => Shape::Number(INSULATION_TICKS),
        3 => Shape::Number(MEGOHMS),
        _ => Shape::End,
    }
}

/// `withstand,VOLTS,TICKS,NANOAMPS`
fn withstand_shape(place: usize) -> Shape
    requires { 1 ≤ place }
    ensures { result ≡ shape_at kinds.Withstand place }
{
    match place {
        1 => Shape::Volts(WITHSTAND_VOLTS),
        2 => Shape::Number(WITHSTAND_TICKS),
        3 => Shape::Number(NANOAMPS),
        _ => Shape::End,
    }
}

/// `attempts,N`
fn attempts_shape(place: usize) -> Shape
    requires { 1 ≤ place }
    ensures { result ≡ shape_at kinds.Attempts place }
{
    match place {
        1 => Shape::Number(ATTEMPTS),
        _ => Shape::End,
    }
}
