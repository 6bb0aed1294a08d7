//! Differences of small units from their nets.

ghost use Rattle.std.specs.Prelude.{◌≡◌, [], ◌∷◌};
ghost use Rattle.difference.specs.Difference.{difference_of};
ghost use Rattle.difference.specs.Rebuild.{rebuilt};
ghost use Rattle.worked_examples.specs.Harnesses.{two_pairs, two_pairs_alone, one_net, four_points, measured_under, opens_alone, shorts_alone, miswires_alone};

/// Two nets that are wired crosswise are two miswires.
pub fn a_swap_is_two_miswires()
    ensures { difference_of two_pairs (measured_under two_pairs ((0, 3) ∷ (1, 2) ∷ []))
        ≡ miswires_alone (record { net = 0; class = 2; points = 1 ∷ [] } ∷ record { net = 1; class = 0; points = 3 ∷ [] } ∷ []) }
{}

/// And the two lists tell the unit's classes.
pub fn the_two_miswires_tell_the_classes()
    ensures { rebuilt two_pairs (miswires_alone (record { net = 0; class = 2; points = 1 ∷ [] } ∷ record { net = 1; class = 0; points = 3 ∷ [] } ∷ []))
        ≡ 0 ∷ 1 ∷ 1 ∷ 0 ∷ 4 ∷ [] }
{}

/// A point that is joined with none is an open.
pub fn a_point_that_is_joined_with_none_is_an_open()
    ensures { difference_of one_net (measured_under one_net ((0, 1) ∷ [])) ≡ opens_alone (record { net = 0; class = 2; points = 2 ∷ [] } ∷ []) }
{}

/// A point that is joined with another net alone is a miswire, and nothing else: the class that it shares is home to that net.
pub fn a_point_in_another_net_is_a_miswire()
    ensures { difference_of one_net (measured_under one_net ((0, 1) ∷ (2, 5) ∷ [])) ≡ miswires_alone (record { net = 0; class = 5; points = 2 ∷ [] } ∷ []) }
{}

/// Points that should be apart are a short of their nets.
pub fn joined_nets_are_a_short()
    ensures two { difference_of four_points (measured_under four_points ((0, 3) ∷ [])) ≡ shorts_alone (record { class = 0; nets = 0 ∷ 3 ∷ [] } ∷ []) }
    ensures all { difference_of four_points (measured_under four_points ((0, 1) ∷ (1, 2) ∷ (2, 3) ∷ []))
        ≡ shorts_alone (record { class = 0; nets = 0 ∷ 1 ∷ 2 ∷ 3 ∷ [] } ∷ []) }
{}

/// A join to a point that is not judged is nobody's concern.
pub fn a_join_to_an_ignored_point_is_no_difference()
    ensures judged { difference_of two_pairs (measured_under two_pairs ((0, 1) ∷ (2, 3) ∷ (3, 4) ∷ []))
        ≡ shorts_alone (record { class = 2; nets = 1 ∷ 2 ∷ [] } ∷ []) }
    ensures ignored { difference_of two_pairs_alone (measured_under two_pairs_alone ((0, 1) ∷ (2, 3) ∷ (3, 4) ∷ [])) ≡ shorts_alone [] }
{}

/// But a walk may pass through it, so that two nets are a short by it.
pub fn a_walk_may_pass_through_an_ignored_point()
    ensures { difference_of two_pairs_alone (measured_under two_pairs_alone ((0, 1) ∷ (2, 3) ∷ (1, 4) ∷ (4, 2) ∷ []))
        ≡ shorts_alone (record { class = 0; nets = 0 ∷ 1 ∷ [] } ∷ []) }
{}
