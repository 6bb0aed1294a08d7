//! The laws of the groups, each the contract of a function that does nothing.

ghost use Rattle.wirelist.specs.declared.program.Program.{Program};
ghost use Rattle.cluster_groups.specs.Laws.{ClustersLaw, IsClusterable, NumberLaw, RouteLaw};

/// What is numbered are the clusters, in order of first net.
pub fn clusters_are_numbered_by_first_net()
    ensures { (p : Program) → IsClusterable p → NumberLaw p }
{}

/// The clusters hold each judged point once.
pub fn clusters_are_groups()
    ensures { (p : Program) → IsClusterable p → ClustersLaw p }
{}

/// What the tests route are groups without a common cluster, and two clusters are told apart by some bit.
pub fn sides_are_groups()
    ensures { (p : Program) → IsClusterable p → RouteLaw p }
{}
