//! Programs: their one text, and their clusters.

ghost use Rattle.std.specs.Prelude.{◌≡◌, ◌++◌, [], ◌∷◌, ℕ, List, codes, length, true, false};
ghost use Rattle.wirelist.specs.Canonical.{canonical};
ghost use Rattle.wirelist.specs.Clusters.{cluster_count, cluster_classes, clusters_of, others, side};
ghost use Rattle.worked_examples.specs.Programs.{small_program, cable};

/// A terminating resistor makes one cluster of its two nets; each other net is a cluster by itself.
pub fn a_resistor_makes_one_cluster_of_two_nets()
    ensures count { cluster_count cable ≡ 8 }
    ensures clusters { clusters_of cable
        ≡ (0 ∷ 8 ∷ 16 ∷ []) ∷ (1 ∷ 9 ∷ 17 ∷ []) ∷ (2 ∷ 10 ∷ []) ∷ (3 ∷ 11 ∷ []) ∷ (4 ∷ 12 ∷ []) ∷ (5 ∷ 13 ∷ [])
        ∷ (6 ∷ 7 ∷ 14 ∷ 15 ∷ 18 ∷ 19 ∷ 20 ∷ 21 ∷ []) ∷ (22 ∷ 23 ∷ []) ∷ [] }
{}

/// A point that is not judged is in no cluster, and is none of the others.
pub fn an_ignored_point_is_in_no_cluster()
    ensures judged { cluster_count (small_program []) ≡ 3 }
    ensures ignored { cluster_count (small_program (4 ∷ [])) ≡ 2 }
    ensures classes { cluster_classes (small_program (4 ∷ [])) ≡ 0 ∷ 0 ∷ 2 ∷ 2 ∷ 65535 ∷ [] }
    ensures others { others (small_program (4 ∷ [])) (0 ∷ 1 ∷ []) ≡ 2 ∷ 3 ∷ [] }
{}

/// The sides of a bit are the clusters in whose numbers it is 0 and 1.
pub fn the_sides_of_a_bit_part_the_clusters()
    ensures zero { side (small_program []) 0 false ≡ 0 ∷ 1 ∷ 4 ∷ [] }
    ensures one { side (small_program []) 0 true ≡ 2 ∷ 3 ∷ [] }
{}
