//! What is read of the unit in the fixture.

ghost use Rattle.std.specs.Prelude.{◌≡◌, ◌≤◌, ◌<◌, ℕ, List, Some, None, false, All, length, slice_index_or, IfOk, MatchOption};
ghost use Rattle.partition.specs.Classes.{class_at};
ghost use Rattle.partition.specs.Partitions.{IsPartitionOfAll};
ghost use Rattle.rig.specs.Joins.{IsRowBelow, is_unit, unit_rows};
ghost use Rattle.rig.specs.Values.{charge_of as charge_in_rows, leads as leads_between, is_element_at, element_at};
ghost use Rattle.rig.specs.Values.{drop_of as drop_in, crosses as crosses_groups, row_conductance, row_arcs};
ghost use Rattle.harness.specs.Rows.{ElementInRange};
ghost use Rattle.rig_sim.specs.Fixture.{IsPlaceOf, AreMarks, met_by, ohms_by, junction_by, leak_by};

use base::Memory;
use partition::{Partition, Point, PointList};
use rig::{Leak, Row, Unit, Units};
use std::alloc::Global;

/// A resistor of at most so many milliohms is a join.
const MOST_JOIN: u64 = 10_000;

/// The picosiemens of one milliohm.
const PICOSIEMENS: u64 = 1_000_000_000_000_000;

/// The two groups that are connected to the source.
#[derive(Debug, Drop)]
pub(crate) struct Route {
    pub left: PointList,
    pub right: PointList,
}

impl Route {
    /// The route between two groups.
    pub(crate) fn new(alloc: Global, a: &[Point], b: &[Point]) -> Result<Self, Memory>
        ensures { IfOk result (λ route. route ≡ record { left = a.now; right = b.now }) }
    {
        Ok(Route {
            left: PointList::from_slice(alloc, a)?,
            right: PointList::from_slice(alloc, b)?,
        })
    }
}

/// The first unit with this serial and attempt, and its place.
pub(crate) fn find_unit<'a>(
    units: &'a Units,
    serial: &str,
    attempt: u8,
) -> Option<(usize, &'a Unit)>
    ensures { MatchOption result (unit_rows units.now serial.now attempt ≡ None) (λ found. IsPlaceOf units.now serial.now attempt found.0 found.1.now) }
{
    for (place, unit) in units.as_slice().iter().enumerate() {
        if is_unit_of(unit, serial, attempt) {
            return Some((place, unit));
        }
    }
    None
}

/// Whether the unit has this serial and attempt.
fn is_unit_of(unit: &Unit, serial: &str, attempt: u8) -> bool
    ensures { result ≡ is_unit serial.now attempt unit.now }
{
    unit.serial.bytes() == serial.as_bytes() && unit.attempt == attempt
}

/// Marks at the numbers of the classes that a group touches.
fn marks_of(alloc: Global, classes: &Partition, group: &[Point]) -> Result<Vec<bool>, Memory>
    requires all { IsPartitionOfAll classes.now }
    requires group { All (λ p. p < length classes.now) group.now }
    ensures { IfOk result (λ marks. AreMarks classes.now group.now marks.items) }
{
    let mut marks = vec![in alloc; false; classes.points() as usize]?;
    for point in group {
        let class = classes.class_of(*point);
        marks[class.index()] = true;
    }
    Ok(marks)
}

/// Whether a point's class has a mark.
fn is_marked(classes: &Partition, marks: &[bool], point: Point) -> bool
    requires all { IsPartitionOfAll classes.now }
    requires size { length marks.now ≡ length classes.now }
    requires point { point < length classes.now }
    ensures { result ≡ slice_index_or marks.now (class_at classes.now point) false }
{
    marks[classes.class_of(point).index()]
}

/// Whether some point of the one group is in one class with some point of the other, in time proportional to points and groups.
pub(crate) fn meets(
    alloc: Global,
    classes: &Partition,
    a: &[Point],
    b: &[Point],
) -> Result<bool, Memory>
    requires all { IsPartitionOfAll classes.now }
    requires a { All (λ p. p < length classes.now) a.now }
    requires b { All (λ p. p < length classes.now) b.now }
    ensures { IfOk result (λ met. met ≡ met_by classes.now a.now b.now) }
{
    let marks = marks_of(alloc, classes, a)?;
    for point in b {
        if is_marked(classes, marks.as_slice(), *point) {
            return Ok(true);
        }
    }
    Ok(false)
}

/// Whether an element from p to q goes from the class of a to the class of b.
fn leads(classes: &Partition, a: Point, b: Point, p: Point, q: Point) -> bool
    requires a { a < length classes.now }
    requires b { b < length classes.now }
    requires p { p < length classes.now }
    requires q { q < length classes.now }
    ensures { result ≡ leads_between classes.now a b p q }
{
    classes.class_of(p) == classes.class_of(a) && classes.class_of(q) == classes.class_of(b)
}

/// Whether a row is a diode, or a resistor that is no join, between the classes of two points.
fn is_between(classes: &Partition, a: Point, b: Point, row: &Row) -> bool
    requires a { a < length classes.now }
    requires b { b < length classes.now }
    requires row { IsRowBelow (length classes.now) row.now }
    ensures { result ≡ is_element_at classes.now a b row.now }
{
    match row {
        Row::Resistor(p, q, milliohms) => {
            *milliohms > MOST_JOIN && (leads(classes, a, b, *p, *q) || leads(classes, b, a, *p, *q))
        }
        Row::Diode(p, q, _) => leads(classes, a, b, *p, *q) || leads(classes, b, a, *p, *q),
        Row::Wire(_, _) | Row::Leak(_, _, _) | Row::Arc(_, _, _) | Row::Charge(_, _) => false,
    }
}

/// The first diode, or resistor that is no join, between the classes of two points.
fn element_between(classes: &Partition, rows: &[Row], a: Point, b: Point) -> Option<Row>
    requires a { a < length classes.now }
    requires b { b < length classes.now }
    requires rows { All (IsRowBelow (length classes.now)) rows.now }
    ensures { result ≡ element_at rows.now classes.now a b }
{
    for row in rows {
        if is_between(classes, a, b, row) {
            return Some(*row);
        }
    }
    None
}

/// The milliohms between two points: 0 where they are joined, none where no resistor lies between their classes.
pub(crate) fn ohms(classes: &Partition, rows: &[Row], a: Point, b: Point) -> Option<u64>
    requires a { a < length classes.now }
    requires b { b < length classes.now }
    requires rows { All (IsRowBelow (length classes.now)) rows.now }
    ensures { result ≡ ohms_by classes.now rows.now a b }
{
    if classes.class_of(a) == classes.class_of(b) {
        return Some(0);
    }
    match element_between(classes, rows, a, b) {
        Some(Row::Resistor(_, _, milliohms)) => Some(milliohms),
        _ => None,
    }
}

/// The millivolts from one point to another: 0 where they are joined, none where no diode leads from the one class to the other.
pub(crate) fn junction(classes: &Partition, rows: &[Row], from: Point, to: Point) -> Option<u32>
    requires from { from < length classes.now }
    requires to { to < length classes.now }
    requires rows { All (IsRowBelow (length classes.now)) rows.now }
    ensures { result ≡ junction_by classes.now rows.now from to }
{
    if classes.class_of(from) == classes.class_of(to) {
        return Some(0);
    }
    match element_between(classes, rows, from, to) {
        Some(row) => drop_of(classes, from, to, &row),
        None => None,
    }
}

/// The drop of a row that is a diode from the one class to the other.
fn drop_of(classes: &Partition, from: Point, to: Point, row: &Row) -> Option<u32>
    requires from { from < length classes.now }
    requires to { to < length classes.now }
    requires row { IsRowBelow (length classes.now) row.now }
    ensures { result ≡ drop_in classes.now from to (Some row.now) }
{
    match row {
        Row::Diode(p, q, millivolts) if leads(classes, from, to, *p, *q) => Some(*millivolts),
        _ => None,
    }
}

/// Whether an element between p and q crosses two groups, the classes of which have marks.
fn crosses(classes: &Partition, left: &[bool], right: &[bool], p: Point, q: Point) -> bool
    requires all { IsPartitionOfAll classes.now }
    requires left { length left.now ≡ length classes.now }
    requires right { length right.now ≡ length classes.now }
    requires p { p < length classes.now }
    requires q { q < length classes.now }
    ensures { (a b : List ℕ) → AreMarks classes.now a left.now → AreMarks classes.now b right.now → result ≡ crosses_groups classes.now a b p q }
{
    (is_marked(classes, left, p) && is_marked(classes, right, q))
        || (is_marked(classes, right, p) && is_marked(classes, left, q))
}

/// The picosiemens of a row between two groups.
fn conductance_of(classes: &Partition, left: &[bool], right: &[bool], row: &Row) -> u64
    requires all { IsPartitionOfAll classes.now }
    requires left { length left.now ≡ length classes.now }
    requires right { length right.now ≡ length classes.now }
    requires row { IsRowBelow (length classes.now) row.now }
    ensures { (a b : List ℕ) → AreMarks classes.now a left.now → AreMarks classes.now b right.now → result ≡ row_conductance classes.now a b row.now }
{
    match row {
        Row::Leak(p, q, picosiemens) if crosses(classes, left, right, *p, *q) => *picosiemens,
        Row::Resistor(p, q, milliohms)
            if *milliohms > MOST_JOIN && crosses(classes, left, right, *p, *q) => {
            PICOSIEMENS / *milliohms
        }
        _ => 0,
    }
}

/// Whether a row arcs between two groups at so many volts.
fn arcs_at(classes: &Partition, left: &[bool], right: &[bool], volts: u16, row: &Row) -> bool
    requires all { IsPartitionOfAll classes.now }
    requires left { length left.now ≡ length classes.now }
    requires right { length right.now ≡ length classes.now }
    requires row { IsRowBelow (length classes.now) row.now }
    ensures { (a b : List ℕ) → AreMarks classes.now a left.now → AreMarks classes.now b right.now → result ≡ row_arcs classes.now a b volts row.now }
{
    match row {
        Row::Arc(p, q, least) => *least <= volts && crosses(classes, left, right, *p, *q),
        Row::Diode(p, q, _) => crosses(classes, left, right, *p, *q),
        Row::Wire(_, _) | Row::Resistor(_, _, _) | Row::Leak(_, _, _) | Row::Charge(_, _) => false,
    }
}

/// The leak between two groups at so many volts: an arc where a row arcs, else the conductance of all rows.
pub(crate) fn leak(
    alloc: Global,
    classes: &Partition,
    rows: &[Row],
    route: &Route,
    volts: u16,
) -> Result<Leak, Memory>
    requires all { IsPartitionOfAll classes.now }
    requires left { All (λ p. p < length classes.now) route.now.left }
    requires right { All (λ p. p < length classes.now) route.now.right }
    requires rows { All (IsRowBelow (length classes.now)) rows.now }
    requires in_range { All ElementInRange rows.now }
    requires few { length rows.now ≤ 200000 }
    ensures { IfOk result (λ leak. leak ≡ leak_by classes.now rows.now route.now.left route.now.right volts) }
{
    let left = marks_of(alloc, classes, route.left.as_slice())?;
    let right = marks_of(alloc, classes, route.right.as_slice())?;
    let mut picosiemens = 0;
    for row in rows {
        if arcs_at(classes, left.as_slice(), right.as_slice(), volts, row) {
            return Ok(Leak::Arc);
        }
        picosiemens += conductance_of(classes, left.as_slice(), right.as_slice(), row);
    }
    Ok(Leak::PicoSiemens(picosiemens))
}

/// The volts and ticks of the first charge.
pub(crate) fn charge_of(rows: &[Row]) -> Option<(u16, u16)>
    ensures { result ≡ charge_in_rows rows.now }
{
    for row in rows {
        if let Row::Charge(volts, ticks) = row {
            return Some((*volts, *ticks));
        }
    }
    None
}
