//! The laws of the difference, each the contract of a function that does nothing.

ghost use Rattle.std.specs.Prelude.{List, ℕ, ◌<◌, ◌≤◌, ◌^◌};
ghost use Rattle.partition.specs.Classes.{IsPartition};
ghost use Rattle.partition.specs.NetTable.{NetTable, IsNetTable, judged_points};
ghost use Rattle.difference.specs.Difference.{difference_of};
ghost use Rattle.difference.specs.Labelling.{IsInRange};
ghost use Rattle.difference.specs.DifferenceRanges.{DifferenceWithin};
ghost use Rattle.difference.specs.Laws.{DifferenceLaw};

/// The three lists determine the partition, and are all empty exactly where it is the programmed one.
pub fn difference_determines_partition()
    ensures { (t : NetTable) (m : List ℕ) → IsNetTable t → IsPartition (judged_points t) t.points m → DifferenceLaw t m }
{}

/// The three lists name points and nets of the table, so they can be rebuilt.
pub fn differences_are_in_range()
    ensures { (t : NetTable) (m : List ℕ) → IsNetTable t → t.points < 2 ^ 16 → IsPartition (judged_points t) t.points m → IsInRange t (difference_of t m) }
{}

/// The three lists are in strict order and below the number of points, and all points and all nets in them are no more than it.
pub fn differences_are_within_their_points()
    ensures { (t : NetTable) (m : List ℕ) (most : ℕ) → IsNetTable t → t.points ≤ most → DifferenceWithin most (difference_of t m) }
{}
