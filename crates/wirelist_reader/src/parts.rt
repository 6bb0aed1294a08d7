//! The components' places.

ghost use Rattle.std.specs.Prelude.{◌≡◌, ◌++◌, ◌<◌, ◌^◌, ◌-◌, ◌⊎◌, ◌&&◌, length, IfOk, OnOk, IsTrue, All};
ghost use Rattle.std.specs.List.{list_any};
ghost use Rattle.partition.specs.Classes.{has};
ghost use Rattle.partition.specs.NetTable.{judged_points};
ghost use Rattle.wirelist_reader.specs.Reading.{IsFit, LiesInside};
ghost use Rattle.wirelist_reader.specs.Refusals.{Finds, component_faults, joins_same, part_faults};
ghost use Rattle.wirelist_reader.specs.Rows.{ends_in, ends_of, ends_of_kind, is_component};

use crate::field::point_at;
use crate::kind::{Kind, is_kind};
use base::Memory;
use partition::{Nets, Point};
use std::alloc::Global;
use wirelist::WireRefusal;
use wirelist_rows::Row;

/// The two ends of a component, and the number of its record.
#[derive(Clone, Copy, Debug)]
pub(crate) struct PartEnds {
    record_number: u32,
    a: Point,
    b: Point,
}

/// The ends of all components: the resistors in order, then the diodes.
pub(crate) fn all_ends(alloc: Global, rows: &[Row]) -> Result<Vec<PartEnds>, Memory>
    requires fit { All IsFit rows.now }
    requires few { length rows.now < 2 ^ 32 - 1 }
    ensures { IfOk result (λ ends. ends.items ≡ ends_of rows.now) }
{
    let mut ends = Vec::new(alloc);
    add_ends(&mut ends, rows, Kind::Resistor)?;
    add_ends(&mut ends, rows, Kind::Diode)?;
    Ok(ends)
}

/// Appends the ends of the components of one kind.
fn add_ends(ends: &mut Vec<PartEnds>, rows: &[Row], kind: Kind) -> Result<(), Memory>
    requires fit { All IsFit rows.now }
    requires few { length rows.now < 2 ^ 32 - 1 }
    requires component { (kind ≡ Kind.Resistor) ⊎ (kind ≡ Kind.Diode) }
    ensures { OnOk result (ends.new.items ≡ ends.old.items ++ ends_of_kind kind rows.now) }
{
    for (i, row) in rows.iter().enumerate() {
        if is_kind(row, kind) {
            ends.push(ends_at(row, i as u32 + 1))?;
        }
    }
    Ok(())
}

/// The ends of the component of a row.
fn ends_at(row: &Row, record_number: u32) -> PartEnds
    requires fit { IsFit row.now }
    requires component { IsTrue (is_component row.now) }
    ensures { result ≡ ends_in record_number row.now }
{
    PartEnds {
        record_number,
        a: point_at(row, 2),
        b: point_at(row, 3),
    }
}

/// Finds the first fault of the components, in order.
pub(crate) fn check_parts(nets: &Nets, parts: &[PartEnds]) -> Result<(), WireRefusal>
    ensures { Finds (part_faults nets.now parts.now) result }
{
    for c in 0..parts.len() {
        // The toolchain proves this form, and has no plan for a `?` in this loop.
        if let Err(refusal) = check_part(nets, &parts[..c], &parts[c]) {
            return Err(refusal);
        }
    }
    Ok(())
}

/// Finds the first fault of a component, below those before it.
fn check_part(nets: &Nets, before: &[PartEnds], part: &PartEnds) -> Result<(), WireRefusal>
    requires { All (LiesInside nets.now) before.now }
    ensures finds { Finds (component_faults nets.now before.now part.now) result }
    ensures inside { OnOk result (LiesInside nets.now part.now) }
{
    if !lies_inside(nets, part) {
        return Err(WireRefusal::PartPoint(part.record_number));
    }
    if nets.net_of(part.a) == nets.net_of(part.b) {
        return Err(WireRefusal::PartInsideNet(part.record_number));
    }
    if is_linked(nets, before, part) {
        return Err(WireRefusal::SecondPart(part.record_number));
    }
    Ok(())
}

/// Whether a component lies between judged points.
fn lies_inside(nets: &Nets, part: &PartEnds) -> bool
    ensures { result ≡ (has (judged_points nets.now) part.now.a && has (judged_points nets.now) part.now.b) }
{
    is_judged(nets, part.a) && is_judged(nets, part.b)
}

/// Whether a number is that of a judged point.
fn is_judged(nets: &Nets, point: Point) -> bool
    ensures { result ≡ has (judged_points nets.now) point }
{
    point.0 < nets.points() && nets.judged(point)
}

/// Whether one of the components lies between the same two nets.
fn is_linked(nets: &Nets, before: &[PartEnds], part: &PartEnds) -> bool
    requires before { All (LiesInside nets.now) before.now }
    requires part { LiesInside nets.now part.now }
    ensures { result ≡ list_any (joins_same nets.now part.now) before.now }
{
    before.iter().any(|other| joins_same(nets, part, other))
}

/// Whether two components lie between the same two nets.
fn joins_same(nets: &Nets, part: &PartEnds, other: &PartEnds) -> bool
    requires part { LiesInside nets.now part.now }
    requires other { LiesInside nets.now other.now }
    ensures { result ≡ joins_same nets.now part.now other.now }
{
    let (a, b) = (nets.net_of(part.a), nets.net_of(part.b));
    let (c, d) = (nets.net_of(other.a), nets.net_of(other.b));
    (a == c && b == d) || (a == d && b == c)
}
