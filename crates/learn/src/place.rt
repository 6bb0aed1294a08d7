//! Where a point belongs among joined points.

ghost use Rattle.std.specs.Prelude.{◌≡◌, ◌+◌, ◌-◌, ◌<◌, ◌≤◌, ◌∷◌, ◌++◌, [], Ok, None, All, length, map, min, slice_index, Contains, IfOk, IfSome, OnOk};
ghost use Rattle.std.specs.Result.{result_err};
ghost use Rattle.std.specs.List.Sorted.{IsStrictlyIncreasing};
ghost use Rattle.partition.specs.Digits.{digits_of};
ghost use Rattle.partition.specs.NetTable.{head_of};
ghost use Rattle.rig.specs.Calls.{AreGroups};
ghost use Rattle.rig.specs.Readings.{Reads};
ghost use Rattle.rig.specs.Trail.{Extends};
ghost use Rattle.learn.specs.Groups.{AreOne, DoNotMeet, IsReadingOf};
ghost use Rattle.learn.specs.Places.{ArePlaces, AreWhole, HasNoPlace, IsPlaceOf};

use crate::conduct;
use crate::find::narrow;
use base::Memory;
use partition::{Point, PointList, PointLists};
use rig::{Rig, RigStop, Seated};
use std::alloc::Global;

/// The number of the group whose points are all joined with the point, or None where no point of a group is. The readings so far show that the points
/// of each group are joined, so the point is read against the least points of the groups, first of all, then by halves. For g groups it makes exactly
/// one reading where it answers None, at least one and at most `1 + digits(g-1)` where it answers a number, and at most that many where it is
/// refused.
pub fn place_in<R: Rig>(
    alloc: Global,
    seat: &mut Seated<R>,
    point: Point,
    groups: &PointLists,
) -> Result<Option<u32>, RigStop>
    requires groups { ArePlaces (R.state seat.old).points point groups.now }
    requires whole { AreWhole (R.state seat.old) point groups.now }
    ensures reads { Reads (R.state seat.old) (R.state seat.new) (result_err result) }
    ensures points { Extends (IsReadingOf (map head_of groups.now ++ point ∷ [])) (R.state seat.old).trail (R.state seat.new).trail }
    ensures place { IfOk result (λ answer. IfSome answer (IsPlaceOf (R.state seat.new) point groups.now)) }
    ensures none { result ≡ Ok None → HasNoPlace (R.state seat.new) point groups.now }
    ensures none_spent { result ≡ Ok None → (R.state seat.new).spent ≡ (R.state seat.old).spent + 1 }
    ensures at_least { OnOk result ((R.state seat.old).spent + 1 ≤ (R.state seat.new).spent) }
    ensures at_most { (R.state seat.new).spent ≤ (R.state seat.old).spent + (1 + digits_of (length groups.now - 1)) }
{
    let heads = least_points(alloc, groups)?;
    match head_of(seat, heads.as_slice(), point)? {
        Some(head) => Ok(Some(place_of(heads.as_slice(), head))),
        None => Ok(None),
    }
}

/// The point of the list that is joined with this one, or None where none is. Makes one reading where none is, and none where the list is empty; else
/// at least one and at most `1 + digits(|heads|-1)`.
pub fn head_of<R: Rig>(
    seat: &mut Seated<R>,
    heads: &[Point],
    point: Point,
) -> Result<Option<Point>, RigStop>
    requires groups { 0 < length heads.now → AreGroups (R.state seat.old).points heads.now (point ∷ []) }
    ensures reads { Reads (R.state seat.old) (R.state seat.new) (result_err result) }
    ensures points { Extends (IsReadingOf (heads.now ++ point ∷ [])) (R.state seat.old).trail (R.state seat.new).trail }
    ensures head { IfOk result (λ answer. IfSome answer (λ head. Contains heads.now head × AreOne (R.state seat.new) head point)) }
    ensures spent { IfOk result (λ answer. IfSome answer (λ _. (R.state seat.old).spent + 1 ≤ (R.state seat.new).spent)) }
    ensures none { result ≡ Ok None → DoNotMeet (R.state seat.new) heads.now (point ∷ []) }
    ensures none_spent { result ≡ Ok None → (R.state seat.new).spent ≡ (R.state seat.old).spent + min 1 (length heads.now) }
    ensures at_most { (R.state seat.new).spent ≤ (R.state seat.old).spent + min 1 (length heads.now) + digits_of (length heads.now - 1) }
{
    if !conduct(seat, heads, &[point])? {
        return Ok(None);
    }
    Ok(Some(narrow(seat, heads, &[point])?))
}

/// The least point of each group.
fn least_points(alloc: Global, groups: &PointLists) -> Result<PointList, Memory>
    requires some { All (λ group. 0 < length group) groups.now }
    requires ascending { All IsStrictlyIncreasing groups.now }
    ensures { IfOk result (λ list. list ≡ map head_of groups.now) }
{
    let mut list = PointList::new(alloc);
    for i in 0..groups.len() {
        list.push(groups.as_slice()[i].as_slice()[0])?;
    }
    Ok(list)
}

/// The place of a point in an ascending list that has it.
fn place_of(list: &[Point], point: Point) -> u32
    requires ascending { IsStrictlyIncreasing list.now }
    requires member { Contains list.now point }
    ensures inside { result < length list.now }
    ensures here { slice_index list.now result ≡ point }
{
    let number = point.index();
    for (i, other) in list.iter().enumerate() {
        if other.index() == number {
            return i as u32;
        }
    }
    0
}
