//! The laws of the definitions, each the contract of a function that does nothing.

ghost use Rattle.std.specs.Prelude.{List, ℕ};
ghost use Rattle.difference.specs.Difference.{difference_of};
ghost use Rattle.wirelist.specs.Laws.{ClusterLaw};
ghost use Rattle.wirelist.specs.Programs.{IsProgram};
ghost use Rattle.wirelist.specs.Ranges.{DifferenceInRange};
ghost use Rattle.wirelist.specs.declared.program.Program.{Program};

/// Clusters are the classes of nets under 'a component lies between them'.
pub fn clusters_are_linked_nets()
    ensures { (p : Program) → IsProgram p → ClusterLaw p }
{}

/// What differs from a program is in the ranges of records, whatever was measured.
pub fn differences_are_in_range()
    ensures { (p : Program) (classes : List ℕ) → IsProgram p → DifferenceInRange (difference_of p.nets classes) }
{}
