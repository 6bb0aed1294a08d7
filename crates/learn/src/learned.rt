//! A unit whose partition is known.

ghost use Rattle.std.specs.Prelude.{◌≡◌};
ghost use Rattle.partition.specs.Partitions.{IsPartitionOfAll};
ghost use Rattle.rig.specs.Seating.{IsSeating};
ghost use Rattle.rig.specs.States.{IsProven};
ghost use Rattle.learn.specs.Learned.{IsLearned, IsLearnedOfAll};

use partition::Partition;
use rig::{Rig, Seated};

/// A seated unit, and the partition that its readings determine.
pub struct Learned<R: Rig> {
    pub seat: Seated<R>,
    pub partition: Partition,
}

/// Why a unit was not learnt. Each hands the seated unit back, with the readings made so far.
pub enum LearnStop<R: Rig> {
    /// The rig failed.
    Rig(Seated<R>),
    /// Memory ran out.
    Memory(Seated<R>),
}

impl<R: Rig> Learned<R> {
    /// A seated unit, and the partition of its points that the readings so far determine.
    pub fn new(seat: Seated<R>, partition: Partition) -> Self
        requires { IsProven (R.state seat) partition }
        ensures seat { result.seat ≡ seat }
        ensures partition { result.partition ≡ partition }
        ensures seating { IsSeating (R.state result.seat) }
        ensures learned { IsLearned (R.state result.seat) result.partition }
        ensures of_all { IsPartitionOfAll partition → IsLearnedOfAll (R.state result.seat) result.partition }
    {
        let same_points = partition.points() == seat.points();
        prove!(same_points);
        Learned { seat, partition }
    }
}
