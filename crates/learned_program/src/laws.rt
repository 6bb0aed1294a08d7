//! The laws of the definitions, each the contract of a function that does nothing.

ghost use Rattle.std.specs.Prelude.{◌≡◌, ℕ, ◌<◌, ◌≤◌, List, length};
ghost use Rattle.partition.specs.Partitions.{IsPartitionOfAll};
ghost use Rattle.partition.specs.NetTable.{programmed_of};
ghost use Rattle.wirelist.specs.Programs.{IsProgram};
ghost use Rattle.wirelist.specs.Ranges.{most_points};
ghost use Rattle.learned_program.specs.LearnedProgram.{learned_program, learned_table};

/// The partition of the learned nets is the one that was learned.
pub fn learned_nets_have_the_learned_classes()
    ensures { (classes : List ℕ) → IsPartitionOfAll classes → programmed_of (learned_table classes) ≡ classes }
{}

/// A wirelist can give the program of as many points as a harness may have.
pub fn learned_programs_are_programs()
    ensures { (classes : List ℕ) → 0 < length classes → length classes ≤ most_points → IsProgram (learned_program classes) }
{}
