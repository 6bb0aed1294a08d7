//! The laws of the definitions, each the contract of a function that does nothing.

ghost use Rattle.std.specs.Prelude.{List, ℕ, ◌<◌, ◌≤◌, ◌^◌, ◌↔◌, length};
ghost use Rattle.partition.specs.Classes.{points_below, judged_in, AllBelow, JoinsBelow, IsPartition};
ghost use Rattle.partition.specs.Partitions.{IsClassing, IsPartitionOfAll};
ghost use Rattle.partition.specs.NetTable.{NetTable, IsNetTable, judged_points};
ghost use Rattle.partition.specs.Laws.{LabelLaw, PartitionLaw, JudgedLaw, EqualLaw, WalkLaw, JoinLaw, NetLaw, HeadLaw, DigitLaw};

/// Points of equal label are the classes of a partition.
pub fn labels_make_classes()
    ensures { (js : List ℕ) (n : ℕ) (label : ℕ → ℕ) → AllBelow js n → LabelLaw js n label }
{}

/// A partition is what its fields say.
pub fn partitions_have_least_points()
    ensures { PartitionLaw }
{}

/// A partition of all points is one of the points below their number.
pub fn partitions_of_all_points()
    ensures { (m : List ℕ) → IsPartitionOfAll m ↔ IsPartition (points_below (length m)) (length m) m }
{}

/// A partition in which some points have no class is one of the points that have one.
pub fn classes_are_of_the_points_with_one()
    ensures { (m : List ℕ) → length m < 2 ^ 16 → IsClassing m ↔ IsPartition (judged_in m) (length m) m }
{}

/// The points that count are those with a class.
pub fn counted_points_are_read_off()
    ensures { (js : List ℕ) (n : ℕ) (m : List ℕ) → n ≤ 65535 → AllBelow js n → IsPartition js n m → JudgedLaw js n m }
{}

/// Partitions are told apart by the points that they join.
pub fn partitions_are_told_by_points()
    ensures { EqualLaw }
{}

/// Being linked by a walk is an equivalence.
pub fn walks_are_an_equivalence()
    ensures { WalkLaw }
{}

/// Two points have one computed class exactly where a walk of joins links them.
pub fn joins_make_classes()
    ensures { (joins : List (ℕ × ℕ)) (n : ℕ) → JoinsBelow joins n → JoinLaw joins n }
{}

/// The programmed partition has the nets as classes.
pub fn nets_are_classes()
    ensures { (t : NetTable) → IsNetTable t → NetLaw t }
{}

/// The head of a net whose points ascend is its first point.
pub fn heads_come_first()
    ensures { HeadLaw }
{}

/// Different numbers differ in one of the digits that the greatest of them needs.
pub fn digits_tell_numbers_apart()
    ensures { (n : ℕ) → DigitLaw n }
{}
