//! Outcomes of small units, and the charges that outlast their discharge.

ghost use Rattle.std.specs.Prelude.{◌≡◌, [], ◌∷◌, None, Some};
ghost use Rattle.rig.specs.declared.unit.Row.TheVariants as row;
ghost use Rattle.unit_outcome.specs.Defined.{charged_of, outcome_of};
ghost use Rattle.wirelist.specs.declared.faults.PartFaultKind.TheVariants.{High, Low, OpenPart, WrongWay};
ghost use Rattle.wirelist.specs.declared.outcome.Outcome.TheVariants as outcome;
ghost use Rattle.worked_examples.specs.Harnesses.{miswires_alone, shorts_alone};
ghost use Rattle.worked_examples.specs.Programs.{small_program, with_diode, with_insulation, with_resistor, with_withstand};
ghost use Rattle.worked_examples.specs.Units.{two_wires_and};

/// Wiring decides before all else: a resistor of at most 10,000 milliohms is a join.
pub fn a_wiring_fault_is_the_first()
    ensures none { outcome_of (small_program []) (two_wires_and []) ≡ outcome.Pass }
    ensures swap { outcome_of (small_program []) (row.Wire 0 3 ∷ row.Wire 1 2 ∷ []) ≡ outcome.Wiring
        (miswires_alone (record { net = 0; class = 2; points = 1 ∷ [] } ∷ record { net = 1; class = 0; points = 3 ∷ [] } ∷ [])) }
    ensures joined { outcome_of with_insulation (two_wires_and (row.Resistor 0 2 10000 ∷ [])) ≡ outcome.Wiring
        (shorts_alone (record { class = 0; nets = 0 ∷ 1 ∷ [] } ∷ [])) }
    ensures apart { outcome_of (small_program []) (two_wires_and (row.Resistor 0 2 10001 ∷ [])) ≡ outcome.Pass }
{}

/// A walk may pass through a point that does not count, and ends at none.
pub fn an_ignored_point_may_join_two_nets()
    ensures counted { outcome_of (small_program []) (two_wires_and (row.Wire 3 4 ∷ [])) ≡ outcome.Wiring
        (shorts_alone (record { class = 2; nets = 1 ∷ 2 ∷ [] } ∷ [])) }
    ensures ignored { outcome_of (small_program (4 ∷ [])) (two_wires_and (row.Wire 3 4 ∷ [])) ≡ outcome.Pass }
    ensures through { outcome_of (small_program (4 ∷ [])) (two_wires_and (row.Wire 1 4 ∷ row.Wire 4 2 ∷ [])) ≡ outcome.Wiring
        (shorts_alone (record { class = 0; nets = 0 ∷ 1 ∷ [] } ∷ [])) }
{}

/// A component is faulty where its reading lies outside its window, or where it is turned round or not there.
pub fn a_component_outside_its_window_is_a_fault()
    ensures back { outcome_of with_diode (two_wires_and (row.Diode 2 0 650 ∷ [])) ≡ outcome.Parts (record { part = 0; kind = WrongWay 650 } ∷ []) }
    ensures good { outcome_of with_diode (two_wires_and (row.Diode 0 2 650 ∷ [])) ≡ outcome.Pass }
    ensures high { outcome_of with_diode (two_wires_and (row.Diode 0 2 801 ∷ [])) ≡ outcome.Parts (record { part = 0; kind = High 801 } ∷ []) }
    ensures missing { outcome_of with_resistor (two_wires_and []) ≡ outcome.Parts (record { part = 0; kind = OpenPart } ∷ []) }
    ensures low { outcome_of with_resistor (two_wires_and (row.Resistor 0 2 19999 ∷ [])) ≡ outcome.Parts (record { part = 0; kind = Low 19999 } ∷ []) }
    ensures most { outcome_of with_resistor (two_wires_and (row.Resistor 0 2 30000 ∷ [])) ≡ outcome.Pass }
{}

/// Each cluster is measured against all others; 100 megohms are 10,000 picosiemens.
pub fn a_leak_faults_both_of_its_clusters()
    ensures good { outcome_of with_insulation (two_wires_and (row.Leak 0 2 10000 ∷ [])) ≡ outcome.Pass }
    ensures leaky { outcome_of with_insulation (two_wires_and (row.Leak 0 2 10001 ∷ [])) ≡ outcome.Insulation
        (record { cluster = 0; reading = Some 10001 } ∷ record { cluster = 1; reading = Some 10001 } ∷ []) }
    ensures summed { outcome_of with_insulation (two_wires_and (row.Leak 0 2 6000 ∷ row.Leak 1 4 6000 ∷ [])) ≡ outcome.Insulation
        (record { cluster = 0; reading = Some 12000 } ∷ []) }
    ensures resistor { outcome_of with_insulation (two_wires_and (row.Resistor 0 2 10001 ∷ [])) ≡ outcome.Insulation
        (record { cluster = 0; reading = Some 99990000999 } ∷ record { cluster = 1; reading = Some 99990000999 } ∷ []) }
{}

/// The first step of 50 volts at which the sides of a bit arc is stated.
pub fn an_arc_is_found_at_its_first_step()
    ensures arc { outcome_of (with_withstand 150 2000) (two_wires_and (row.Arc 0 2 60 ∷ [])) ≡ outcome.Withstand 0 100 None }
    ensures none { outcome_of (with_withstand 150 2000) (two_wires_and (row.Arc 0 2 151 ∷ [])) ≡ outcome.Pass }
{}

/// A charge above 30 volts outlasts a discharge that waits 100 ticks, if the unit comes to a voltage.
pub fn a_charge_of_more_than_100_ticks_lasts()
    ensures short { charged_of (with_withstand 50 1000) (two_wires_and (row.Charge 45 100 ∷ [])) ≡ None }
    ensures long { charged_of (with_withstand 50 1000) (two_wires_and (row.Charge 45 101 ∷ [])) ≡ Some 45 }
    ensures low { charged_of (with_withstand 50 1000) (two_wires_and (row.Charge 30 1000 ∷ [])) ≡ None }
    ensures never { charged_of (small_program []) (two_wires_and (row.Charge 45 101 ∷ [])) ≡ None }
    ensures faulty { charged_of (with_withstand 50 1000) (row.Wire 0 1 ∷ row.Charge 45 101 ∷ []) ≡ None }
{}
