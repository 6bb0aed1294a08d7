//! What the rows say.

ghost use Rattle.std.specs.Prelude.{◌≡◌, ◌≤◌, ◌<◌, ◌^◌, IsTrue, IfOk, IfSome, All, None, map, option_map, slice_get, drop};
ghost use Rattle.wirelist_reader.specs.Kinds.{number};
ghost use Rattle.wirelist_reader.specs.Reading.{ArePoints, IsFit};
ghost use Rattle.wirelist_reader.specs.Rows.{field_at, is_kind, listed_ignored, listed_nets, number_at, rows_of_kind};
ghost use Rattle.wirelist_reader.specs.Rows.{attempts_of, diode_of, insulation_of, resistor_of, withstand_of};
ghost use Rattle.wirelist_reader.specs.declared.kind.Kind.TheVariants as kinds;

use crate::field::{name_at, number_at, point_at};
use crate::kind::{Kind, is_kind};
use base::Memory;
use partition::{NetLists, PointList};
use std::alloc::Global;
use wirelist::ranges::{
    ATTEMPTS, INSULATION_TICKS, INSULATION_VOLTS, MEGOHMS, MILLIOHMS, MILLIVOLTS, NANOAMPS,
    WITHSTAND_TICKS, WITHSTAND_VOLTS,
};
use wirelist::{Diode, Diodes, Insulation, Names, Resistor, Resistors, Withstand};
use wirelist_rows::Row;

/// The first row of a kind.
pub(crate) fn first_of(rows: &[Row], kind: Kind) -> Option<&Row>
    ensures { option_map (λ r. r.now) result ≡ slice_get (rows_of_kind kind rows.now) 0 }
{
    for row in rows {
        if is_kind(row, kind) {
            return Some(row);
        }
    }
    None
}

/// The points of each net, as listed.
pub(crate) fn listed_nets(alloc: Global, rows: &[Row]) -> Result<NetLists, Memory>
    requires { All IsFit rows.now }
    ensures { IfOk result (λ lists. lists ≡ listed_nets rows.now) }
{
    let mut lists = NetLists::new(alloc);
    for row in rows {
        if is_kind(row, Kind::Net) {
            lists.push(points_from(alloc, row, 2)?)?;
        }
    }
    Ok(lists)
}

/// The points that are not judged, as listed.
pub(crate) fn listed_ignored(alloc: Global, rows: &[Row]) -> Result<PointList, Memory>
    requires { All IsFit rows.now }
    ensures { IfOk result (λ list. list ≡ listed_ignored rows.now) }
{
    match first_of(rows, Kind::Ignore) {
        Some(row) => points_from(alloc, row, 1),
        None => Ok(PointList::new(alloc)),
    }
}

/// The points that the fields of a row from a place on are.
fn points_from(alloc: Global, row: &Row, first: usize) -> Result<PointList, Memory>
    requires { ArePoints first row.now }
    ensures { IfOk result (λ list. list ≡ map number (drop first row.now)) }
{
    let mut list = PointList::new(alloc);
    for place in first..row.len() {
        list.push(point_at(row, place))?;
    }
    Ok(list)
}

/// The names of the nets.
pub(crate) fn net_names(alloc: Global, rows: &[Row]) -> Result<Names, Memory>
    requires { All IsFit rows.now }
    ensures { IfOk result (λ names. names ≡ map (λ row. field_at row 1) (rows_of_kind kinds.Net rows.now)) }
{
    let mut names = Names::new(alloc);
    for row in rows {
        if is_kind(row, Kind::Net) {
            names.push(name_at(row, 1))?;
        }
    }
    Ok(names)
}

/// The resistors.
pub(crate) fn resistors(alloc: Global, rows: &[Row]) -> Result<Resistors, Memory>
    requires { All IsFit rows.now }
    ensures { IfOk result (λ list. list ≡ map resistor_of (rows_of_kind kinds.Resistor rows.now)) }
{
    let mut list = Resistors::new(alloc);
    for row in rows {
        if is_kind(row, Kind::Resistor) {
            list.push(resistor(row))?;
        }
    }
    Ok(list)
}

/// The diodes.
pub(crate) fn diodes(alloc: Global, rows: &[Row]) -> Result<Diodes, Memory>
    requires { All IsFit rows.now }
    ensures { IfOk result (λ list. list ≡ map diode_of (rows_of_kind kinds.Diode rows.now)) }
{
    let mut list = Diodes::new(alloc);
    for row in rows {
        if is_kind(row, Kind::Diode) {
            list.push(diode(row))?;
        }
    }
    Ok(list)
}

/// The resistor of a row.
fn resistor(row: &Row) -> Resistor
    requires fit { IsFit row.now }
    requires kind { IsTrue (is_kind kinds.Resistor row.now) }
    ensures { result ≡ resistor_of row.now }
{
    Resistor {
        name: name_at(row, 1),
        a: point_at(row, 2),
        b: point_at(row, 3),
        min: number_at(row, 4, MILLIOHMS),
        max: number_at(row, 5, MILLIOHMS),
    }
}

/// The diode of a row.
fn diode(row: &Row) -> Diode
    requires fit { IsFit row.now }
    requires kind { IsTrue (is_kind kinds.Diode row.now) }
    ensures { result ≡ diode_of row.now }
{
    Diode {
        name: name_at(row, 1),
        from: point_at(row, 2),
        to: point_at(row, 3),
        min: number_at(row, 4, MILLIVOLTS) as u32,
        max: number_at(row, 5, MILLIVOLTS) as u32,
    }
}

/// The test of insulation, where there is one.
pub(crate) fn insulation(rows: &[Row]) -> Option<Insulation>
    requires { All IsFit rows.now }
    ensures { result ≡ option_map insulation_of (slice_get (rows_of_kind kinds.Insulation rows.now) 0) }
{
    let row = first_of(rows, Kind::Insulation)?;
    Some(Insulation {
        volts: number_at(row, 1, INSULATION_VOLTS) as u16,
        ticks: number_at(row, 2, INSULATION_TICKS) as u16,
        megohms: number_at(row, 3, MEGOHMS) as u32,
    })
}

/// The test of withstand, where there is one.
pub(crate) fn withstand(rows: &[Row]) -> Option<Withstand>
    requires { All IsFit rows.now }
    ensures { result ≡ option_map withstand_of (slice_get (rows_of_kind kinds.Withstand rows.now) 0) }
{
    let row = first_of(rows, Kind::Withstand)?;
    Some(Withstand {
        volts: number_at(row, 1, WITHSTAND_VOLTS) as u16,
        ticks: number_at(row, 2, WITHSTAND_TICKS) as u16,
        nanoamps: number_at(row, 3, NANOAMPS) as u32,
    })
}

/// How often a unit may be tested.
pub(crate) fn attempts(rows: &[Row]) -> u8
    requires { All IsFit rows.now }
    ensures { result ≡ attempts_of (slice_get (rows_of_kind kinds.Attempts rows.now) 0) }
{
    match first_of(rows, Kind::Attempts) {
        Some(row) => number_at(row, 1, ATTEMPTS) as u8,
        None => 3,
    }
}
