//! The readings of a check.

ghost use Rattle.std.specs.Prelude.{◌≡◌, ◌≤◌, ◌∷◌, [], length, zip, All, Err, IfOk, OnOk};
ghost use Rattle.std.specs.Result.{result_err};
ghost use Rattle.rig.specs.Calls.{AreGroups, IsGroup};
ghost use Rattle.rig.specs.Readings.{Reads};
ghost use Rattle.continuity_check.specs.Compared.{compared_in, compared_with, compared_of};
ghost use Rattle.continuity_check.specs.Trials.{Compares, StopsAt, empty_sheet};

use crate::Sheet;
use partition::{Name, Nets, Point};
use rig::{Rig, RigStop, Seated};
use std::alloc::Global;

/// Reads a point against its net's head, and notes it where it is open.
fn check_point<R: Rig>(
    alloc: Global,
    seat: &mut Seated<R>,
    name: &Name,
    head: Point,
    point: Point,
    sheet: &mut Sheet,
) -> Result<(), RigStop>
    requires groups { AreGroups (R.state seat.old).points (head ∷ []) (point ∷ []) }
    requires fits { sheet.old.opens ≤ (R.state seat.old).spent }
    ensures reads { Reads (R.state seat.old) (R.state seat.new) (result_err result) }
    ensures compares { OnOk result (Compares (R.state seat.old) (R.state seat.new) sheet.old sheet.new
        (record { name = name.now; head = head; point = point } ∷ [])) }
    ensures failed { result ≡ Err RigStop.Failed → StopsAt (R.state seat.old) (R.state seat.new) sheet.old
        (record { name = name.now; head = head; point = point } ∷ []) }
    ensures fits { OnOk result (sheet.new.opens ≤ (R.state seat.new).spent) }
{
    if seat.conducts(&[head], &[point])? {
        return Ok(());
    }
    sheet.note_open(alloc, name, point)?;
    Ok(())
}

/// Reads points of a net against the head.
fn check_points<R: Rig>(
    alloc: Global,
    seat: &mut Seated<R>,
    name: &Name,
    head: Point,
    points: &[Point],
    sheet: &mut Sheet,
) -> Result<(), RigStop>
    requires groups { All (λ p. AreGroups (R.state seat.old).points (head ∷ []) (p ∷ [])) points.now }
    requires fits { sheet.old.opens ≤ (R.state seat.old).spent }
    ensures reads { Reads (R.state seat.old) (R.state seat.new) (result_err result) }
    ensures compares { OnOk result (Compares (R.state seat.old) (R.state seat.new) sheet.old sheet.new (compared_with name.now head points.now)) }
    ensures failed { result ≡ Err RigStop.Failed → StopsAt (R.state seat.old) (R.state seat.new) sheet.old (compared_with name.now head points.now) }
    ensures fits { OnOk result (sheet.new.opens ≤ (R.state seat.new).spent) }
{
    for point in points {
        check_point(alloc, seat, name, head, *point, sheet)?;
    }
    Ok(())
}

/// Reads each point of a net but the head against the head.
fn check_net<R: Rig>(
    alloc: Global,
    seat: &mut Seated<R>,
    name: &Name,
    net: &[Point],
    sheet: &mut Sheet,
) -> Result<(), RigStop>
    requires net { IsGroup (R.state seat.old).points net.now }
    requires fits { sheet.old.opens ≤ (R.state seat.old).spent }
    ensures reads { Reads (R.state seat.old) (R.state seat.new) (result_err result) }
    ensures compares { OnOk result (Compares (R.state seat.old) (R.state seat.new) sheet.old sheet.new (compared_in name.now net.now)) }
    ensures failed { result ≡ Err RigStop.Failed → StopsAt (R.state seat.old) (R.state seat.new) sheet.old (compared_in name.now net.now) }
    ensures fits { OnOk result (sheet.new.opens ≤ (R.state seat.new).spent) }
{
    check_points(alloc, seat, name, net[0], &net[1..], sheet)
}

/// Reads each point of each named net but the head against the head, in order of net, then of point. Gives what is to be printed.
pub fn check_nets<R: Rig>(
    alloc: Global,
    seat: &mut Seated<R>,
    names: &[Name],
    nets: &Nets,
) -> Result<Sheet, RigStop>
    requires names { length names.now ≡ length nets.now.named }
    requires points { nets.now.points ≡ (R.state seat.old).points }
    ensures reads { Reads (R.state seat.old) (R.state seat.new) (result_err result) }
    ensures compares { IfOk result (λ sheet. Compares (R.state seat.old) (R.state seat.new) empty_sheet sheet (compared_of (zip names.now nets.now.named))) }
    ensures failed { result ≡ Err RigStop.Failed → StopsAt (R.state seat.old) (R.state seat.new) empty_sheet (compared_of (zip names.now nets.now.named)) }
{
    let mut sheet = Sheet::new(alloc);
    for i in 0..nets.named() {
        check_net(alloc, seat, &names[i as usize], nets.net(i), &mut sheet)?;
    }
    Ok(sheet)
}
