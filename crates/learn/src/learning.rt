//! The partition of a unit, from readings alone.

ghost use Rattle.std.specs.Prelude.{◌≡◌, ◌+◌, ◌≤◌, length, IfOk, IfErr, OnErr};
ghost use Rattle.std.specs.Result.{result_err};
ghost use Rattle.partition.specs.Heads.{heads};
ghost use Rattle.partition.specs.Partitions.{IsPartitionOfAll};
ghost use Rattle.rig.specs.Readings.{Reads};
ghost use Rattle.rig.specs.States.{IsProven};
ghost use Rattle.learn.specs.Learned.{IsLearned, IsLearnedOfAll, IsWithinMost, most_readings};
ghost use Rattle.learn.specs.Stops.{rig_after, refusal_of, learn_stop_rig};

use crate::{LearnStop, Learned, head_of};
use partition::{Partition, Point, PointList};
use rig::{Rig, RigStop, Seated};
use std::alloc::Global;

/// The partition that the readings determine. Each point is read against the heads of the classes found so far; where it conducts, its own head is
/// found by halves. With n points in t classes it makes at least `n-t` readings, and at most `(n-1) + (n-t) * digits(t-1)`; a refused call makes at
/// most as many as some number of classes would take.
pub fn learn<R: Rig>(alloc: Global, mut seat: Seated<R>) -> Result<Learned<R>, LearnStop<R>>
    ensures reads { Reads (R.state seat) (R.state (rig_after result)) (refusal_of result) }
    ensures learned { IfOk result (λ unit. IsLearned (R.state unit.seat) unit.partition) }
    ensures of_all { IfOk result (λ unit. IsLearnedOfAll (R.state unit.seat) unit.partition) }
    ensures at_least { IfOk result (λ unit. (R.state seat).spent + length unit.partition ≤ (R.state unit.seat).spent + length (heads unit.partition)) }
    ensures at_most { IfOk result (λ unit. (R.state unit.seat).spent ≤ (R.state seat).spent
        + most_readings (length unit.partition) (length (heads unit.partition))) }
    ensures refused { IfErr result (λ stop. IsWithinMost (R.state seat) (R.state (learn_stop_rig stop))) }
{
    match classes_of(alloc, &mut seat) {
        Ok(classes) => Ok(Learned::new(seat, classes)),
        Err(RigStop::Failed) => Err(LearnStop::Rig(seat)),
        Err(RigStop::Memory) => Err(LearnStop::Memory(seat)),
    }
}

/// The classes of the points.
fn classes_of<R: Rig>(alloc: Global, seat: &mut Seated<R>) -> Result<Partition, RigStop>
    ensures reads { Reads (R.state seat.old) (R.state seat.new) (result_err result) }
    ensures proven { IfOk result (IsProven (R.state seat.new)) }
    ensures all { IfOk result IsPartitionOfAll }
    ensures at_least { IfOk result (λ classes. (R.state seat.old).spent + length classes ≤ (R.state seat.new).spent + length (heads classes)) }
    ensures at_most { IfOk result (λ classes. (R.state seat.new).spent ≤ (R.state seat.old).spent + most_readings (length classes) (length (heads classes))) }
    ensures refused { OnErr result (IsWithinMost (R.state seat.old) (R.state seat.new)) }
{
    let mut classes = Partition::singles(alloc, seat.points())?;
    let mut heads = PointList::new(alloc);
    for i in 0..seat.points() {
        match head_of(seat, heads.as_slice(), Point(i))? {
            Some(head) => classes.merge(head, Point(i)),
            None => heads.push(Point(i))?,
        }
    }
    Ok(classes)
}
