//! The rows of a harness file that were read, and what the next line may be.

ghost use Rattle.std.specs.Prelude.{◌≡◌, ◌≤◌, ◌<◌, ◌++◌, ◌∷◌, ℕ, [], Some, false, length, IsTrue, IfOk, IfErr, MatchResult, string_bytes};
ghost use Rattle.std.specs.List.{list_any};
ghost use Rattle.harness.specs.Rows.{InRange};
ghost use Rattle.harness.specs.Places.{is_first, is_unit_row, is_end, is_charge, charge_after, ends_of, are_ends, is_in_place, is_on_points, is_new};
ghost use Rattle.harness.specs.Places.{has_end, is_unit_of, Stands, StandBelow};
ghost use Rattle.harness.specs.Harness.{most_lines};
ghost use Rattle.harness.specs.Above.{unit_key, with_row, ReadsLine, RefusesLine, RefusesUnit};

use crate::list::RowList;
use crate::row::read_row;
use crate::{HarnessRefusal, HarnessRow};
use base::Memory;
use lines::is_passed_over;
use partition::{Name, Point};
use rig::Row;
use std::alloc::Global;
use std::collections::BTreeSet;
use std::marker::Model;

/// The greatest number of lines.
const MOST_LINES: u32 = 200_000;

/// The rows read so far, each where it may stand, with the numbers of their lines. Contracts see both.
#[derive(Drop)]
pub(crate) struct Above {
    rows: RowList,
    points: u16,
    has_unit: bool,
    has_charge: bool,
    has_end: bool,
    units: BTreeSet<String>,
}

impl Model for Above {
    ghost use Rattle.harness.specs.Above.{IsSummary, ReadRows};

    ghost Value = { ReadRows };

    ghost view = { λ a. a.rows };

    ghost invariant = { λ a. IsSummary a.rows.rows a.rows.numbers a.points a.has_unit a.has_charge a.has_end a.units };
}

impl Above {
    /// No rows.
    pub(crate) fn new(alloc: Global) -> Self
        ensures { result ≡ record { rows = []; numbers = [] } }
    {
        Above {
            rows: RowList::new(alloc),
            points: 0,
            has_unit: false,
            has_charge: false,
            has_end: false,
            units: BTreeSet::new(alloc),
        }
    }

    /// The rows, and the numbers of their lines.
    pub(crate) fn into_rows(self) -> RowList
        ensures rows { result ≡ self }
        ensures numbered { length self.numbers ≡ length self.rows }
        ensures stand { StandBelow [] self.rows }
    {
        let Above {
            rows,
            points: _,
            has_unit: _,
            has_charge: _,
            has_end: _,
            units: _,
        } = self;
        rows
    }

    /// Whether the last row is there.
    pub(crate) fn is_ended(&self) -> bool
        ensures { result ≡ has_end self.now.rows }
    {
        self.has_end
    }

    /// The rows with those of one more line, the number of which is given.
    pub(crate) fn with_line(
        self,
        alloc: Global,
        line: &[u8],
        number: u32,
    ) -> Result<Self, HarnessRefusal>
        ensures few { IfOk result (λ new. number ≤ most_lines) }
        ensures read { IfOk result (ReadsLine self number line.now) }
        ensures refused { IfErr result (RefusesLine self.rows number line.now) }
    {
        if number > MOST_LINES {
            return Err(HarnessRefusal::TooMany(number));
        }
        if is_passed_over(line) {
            return Ok(self);
        }
        match read_row(line) {
            Some(row) if self.has_place_for(&row) => {
                if self.has_points_of(&row) {
                    self.with_row(alloc, row, number)
                } else {
                    Err(HarnessRefusal::PointRange(number))
                }
            }
            _ => Err(HarnessRefusal::BadLine(number)),
        }
    }

    /// Whether the row may stand below these rows.
    fn has_place_for(&self, row: &HarnessRow) -> bool
        ensures { result ≡ is_in_place self.now.rows row.now }
    {
        let is_open = !self.rows.is_empty() && !self.has_end;
        match row {
            HarnessRow::Points(_) => self.rows.is_empty(),
            HarnessRow::Fault(_) | HarnessRow::Door(_) => is_open && !self.has_unit,
            HarnessRow::NewUnit(_, _) | HarnessRow::End => is_open,
            HarnessRow::Element(row) => {
                is_open && self.has_unit && !(charges(row) && self.has_charge)
            }
        }
    }

    /// Whether a row of a unit lies between two points of the harness.
    fn has_points_of(&self, row: &HarnessRow) -> bool
        ensures { result ≡ is_on_points self.now.rows row.now }
    {
        match row {
            HarnessRow::Element(row) => has_ends(self.points, row),
            _ => true,
        }
    }

    /// The rows with one more, unless it is a unit that is there already.
    fn with_row(self, alloc: Global, row: HarnessRow, number: u32) -> Result<Self, HarnessRefusal>
        requires in_range { InRange row }
        requires in_place { IsTrue (is_in_place self.rows row) }
        requires on_points { IsTrue (is_on_points self.rows row) }
        ensures ok { IfOk result (λ new. (new ≡ with_row self row number) × IsTrue (is_new self.rows row)) }
        ensures err { IfErr result (RefusesUnit self.rows row number) }
    {
        match row {
            HarnessRow::Points(points) => Ok(self.with_points(points, number)?),
            HarnessRow::NewUnit(serial, attempt) => self.with_unit(alloc, serial, attempt, number),
            _ => Ok(self.with_other(row, number)?),
        }
    }

    fn with_points(mut self, points: u16, number: u32) -> Result<Self, Memory>
        requires { Stands self.rows (HarnessRow.Points points) }
        ensures { IfOk result (λ new. new ≡ with_row self (HarnessRow.Points points) number) }
    {
        self.rows.push(HarnessRow::Points(points), number)?;
        self.points = points;
        Ok(self)
    }

    /// The rows with one more that is neither the first nor a unit.
    fn with_other(mut self, row: HarnessRow, number: u32) -> Result<Self, Memory>
        requires stands { Stands self.rows row }
        requires later { is_first self.rows ≡ false }
        requires other { is_unit_row row ≡ false }
        ensures { IfOk result (λ new. new ≡ with_row self row number) }
    {
        self.rows.push(row, number)?;
        self.has_charge = has_charge_after(self.has_charge, &row);
        self.has_end = self.has_end || is_last(&row);
        Ok(self)
    }

    fn with_unit(
        mut self,
        alloc: Global,
        serial: Name,
        attempt: u8,
        number: u32,
    ) -> Result<Self, HarnessRefusal>
        requires in_range { InRange (HarnessRow.NewUnit serial attempt) }
        requires in_place { IsTrue (is_in_place self.rows (HarnessRow.NewUnit serial attempt)) }
        ensures ok { IfOk result (λ new. (new ≡ with_row self (HarnessRow.NewUnit serial attempt) number)
            × IsTrue (is_new self.rows (HarnessRow.NewUnit serial attempt))) }
        ensures err { IfErr result (RefusesUnit self.rows (HarnessRow.NewUnit serial attempt) number) }
    {
        let key = key_of(alloc, &serial, attempt)?;
        if self.has_key(key.as_str(), &serial, attempt) {
            return Err(HarnessRefusal::SameUnit(number));
        }
        Ok(self.with_new_unit(key, serial, attempt, number)?)
    }

    /// Whether a unit of this key is among the rows.
    fn has_key(&self, key: &str, serial: &Name, attempt: u8) -> bool
        requires { key.now ≡ unit_key serial.now attempt }
        ensures { result ≡ list_any (is_unit_of serial.now attempt) self.now.rows }
    {
        self.units.contains(key)
    }

    fn with_new_unit(
        mut self,
        key: String,
        serial: Name,
        attempt: u8,
        number: u32,
    ) -> Result<Self, Memory>
        requires row { Stands self.rows (HarnessRow.NewUnit serial attempt) }
        requires key { string_bytes key ≡ unit_key serial attempt }
        ensures { IfOk result (λ new. new ≡ with_row self (HarnessRow.NewUnit serial attempt) number) }
    {
        self.rows
            .push(HarnessRow::NewUnit(serial, attempt), number)?;
        self.units.insert(key)?;
        self.has_unit = true;
        self.has_charge = false;
        Ok(self)
    }
}

/// A serial and an attempt, as one text.
fn key_of(alloc: Global, serial: &Name, attempt: u8) -> Result<String, Memory>
    requires { attempt ≤ 9 }
    ensures { IfOk result (λ key. string_bytes key ≡ unit_key serial.now attempt) }
{
    let mut key = String::from_str(alloc, serial.text())?;
    key.push(char::from(b'0' + attempt))?;
    Ok(key)
}

fn charges(row: &Row) -> bool
    ensures { result ≡ is_charge row.now }
{
    matches!(row, Row::Charge(_, _))
}

fn is_last(row: &HarnessRow) -> bool
    ensures { result ≡ is_end row.now }
{
    matches!(row, HarnessRow::End)
}

/// Whether the last unit has a charge, after one more row.
fn has_charge_after(has_charge: bool, row: &HarnessRow) -> bool
    ensures { result ≡ charge_after has_charge row.now }
{
    match row {
        HarnessRow::NewUnit(_, _) => false,
        HarnessRow::Element(row) => has_charge || charges(row),
        _ => has_charge,
    }
}

/// Whether a row of a unit lies between two different points, where it lies between points.
fn has_ends(points: u16, row: &Row) -> bool
    ensures { result ≡ are_ends points (ends_of row.now) }
{
    match row {
        Row::Wire(a, b) => are_points(points, *a, *b),
        Row::Resistor(a, b, _) => are_points(points, *a, *b),
        Row::Diode(from, to, _) => are_points(points, *from, *to),
        Row::Leak(a, b, _) => are_points(points, *a, *b),
        Row::Arc(a, b, _) => are_points(points, *a, *b),
        Row::Charge(_, _) => true,
    }
}

/// Whether they are two different points.
fn are_points(points: u16, a: Point, b: Point) -> bool
    ensures { result ≡ are_ends points (Some (a, b)) }
{
    a.0 < points && b.0 < points && a != b
}
