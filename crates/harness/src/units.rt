//! The units of a harness.

ghost use Rattle.std.specs.Prelude.{◌≡◌, ◌<◌, ℕ, [], Some, length, slice_get, IfOk, IfErr};
ghost use Rattle.harness.specs.Places.{points_in, StandBelow};
ghost use Rattle.harness.specs.Units.{units_of, elements_of, IsSecond, RefusesSecond};

use crate::forest::Forest;
use crate::second::second_of;
use crate::{HarnessRefusal, HarnessRow};
use base::Memory;
use rig::{Rows, Unit, Units};
use std::alloc::Global;

/// The units of a harness, each with its rows. The numbers are those of the rows' lines.
pub(crate) fn make_units(
    alloc: Global,
    points: u16,
    rows: &[HarnessRow],
    numbers: &[u32],
) -> Result<Units, HarnessRefusal>
    requires points { points ≡ points_in rows.now }
    requires stand { StandBelow [] rows.now }
    requires numbered { length numbers.now ≡ length rows.now }
    ensures units { IfOk result (λ units. units ≡ units_of rows.now) }
    ensures single { IfOk result (λ units. (u j : ℕ) → IsSecond rows.now u j → ⊥) }
    ensures refused { IfErr result (RefusesSecond rows.now numbers.now) }
{
    let mut forest = Forest::new(alloc, points)?;
    let mut units = Units::new(alloc);
    for (place, row) in rows.iter().enumerate() {
        if let HarnessRow::NewUnit(serial, attempt) = row {
            let below = &rows[place + 1..];
            let elements = make_elements(alloc, below)?;
            if let Some(second) = second_of(alloc, &mut forest, elements.as_slice())? {
                return Err(HarnessRefusal::SecondElement(number_at(numbers, place + 1 + second)));
            }
            units.push(Unit {
                serial: *serial,
                attempt: *attempt,
                rows: elements,
            })?;
        }
    }
    Ok(units)
}

/// The number at a place.
fn number_at(numbers: &[u32], place: usize) -> u32
    requires { place < length numbers.now }
    ensures { slice_get numbers.now place ≡ Some result }
{
    numbers[place]
}

/// The rows of a unit that stand first.
fn make_elements(alloc: Global, rows: &[HarnessRow]) -> Result<Rows, Memory>
    ensures { IfOk result (λ elements. elements ≡ elements_of rows.now) }
{
    let mut elements = Rows::new(alloc);
    let mut rest = rows;
    while let [HarnessRow::Element(row), below @ ..] = rest {
        elements.push(*row)?;
        rest = below;
    }
    Ok(elements)
}

/// The number of points, which the first row gives.
pub(crate) fn points_of(rows: &[HarnessRow]) -> u16
    ensures { result ≡ points_in rows.now }
{
    match rows {
        [HarnessRow::Points(points), ..] => *points,
        _ => 0,
    }
}
