//! What a fixture reads of small units.

ghost use Rattle.std.specs.Prelude.{◌≡◌, [], ◌∷◌, Some, None};
ghost use Rattle.rig.specs.Joins.{joined_classes};
ghost use Rattle.rig.specs.Values.{ohms_of, junction_of, leak_of, charge_of};
ghost use Rattle.rig.specs.declared.unit.Row.TheVariants.{Resistor, Diode, Leak, Arc, Charge};
ghost use Rattle.rig.specs.declared.event.Leak.TheVariants.{Arc as ArcRead, PicoSiemens};
ghost use Rattle.worked_examples.specs.Units.{two_wires_and};

/// A resistor of 10,000 milliohms joins its ends, one of a milliohm more does not.
pub fn a_resistor_of_ten_ohms_is_a_join()
    ensures joins { joined_classes (two_wires_and (Resistor 0 2 10000 ∷ [])) 5 ≡ 0 ∷ 0 ∷ 0 ∷ 0 ∷ 4 ∷ [] }
    ensures apart { joined_classes (two_wires_and (Resistor 0 2 10001 ∷ [])) 5 ≡ 0 ∷ 0 ∷ 2 ∷ 2 ∷ 4 ∷ [] }
{}

/// A resistor is read between any points of the classes that it lies between, both ways; joined points read 0.
pub fn a_resistor_is_read_between_its_classes()
    ensures there { ohms_of (two_wires_and (Resistor 0 2 20000 ∷ [])) 5 1 3 ≡ Some 20000 }
    ensures back { ohms_of (two_wires_and (Resistor 0 2 20000 ∷ [])) 5 3 1 ≡ Some 20000 }
    ensures joined { ohms_of (two_wires_and (Resistor 0 2 20000 ∷ [])) 5 0 1 ≡ Some 0 }
    ensures none { ohms_of (two_wires_and (Resistor 0 2 20000 ∷ [])) 5 0 4 ≡ None }
{}

/// A diode is read in its own direction alone.
pub fn a_diode_is_read_one_way()
    ensures forward { junction_of (two_wires_and (Diode 2 0 650 ∷ [])) 5 2 0 ≡ Some 650 }
    ensures backward { junction_of (two_wires_and (Diode 2 0 650 ∷ [])) 5 0 2 ≡ None }
{}

/// A resistor that is no join leaks as much as its conductance, rounded down.
pub fn a_resistor_leaks()
    ensures { leak_of (two_wires_and (Resistor 0 2 10001 ∷ [])) 5 (0 ∷ 1 ∷ []) (2 ∷ 3 ∷ 4 ∷ []) 500 ≡ PicoSiemens 99990000999 }
{}

/// All leaks between two groups add up.
pub fn leaks_between_two_groups_add_up()
    ensures { leak_of (two_wires_and (Leak 0 2 6000 ∷ Leak 4 1 6000 ∷ Leak 2 4 1 ∷ [])) 5 (0 ∷ 1 ∷ []) (2 ∷ 3 ∷ 4 ∷ []) 500 ≡ PicoSiemens 12000 }
{}

/// Two groups arc from the volts of their arc on, and at a diode between them at any volts.
pub fn groups_arc_from_the_volts_of_an_arc_on()
    ensures below { leak_of (two_wires_and (Arc 0 2 750 ∷ [])) 5 (0 ∷ 1 ∷ []) (2 ∷ 3 ∷ []) 749 ≡ PicoSiemens 0 }
    ensures from { leak_of (two_wires_and (Arc 0 2 750 ∷ [])) 5 (0 ∷ 1 ∷ []) (2 ∷ 3 ∷ []) 750 ≡ ArcRead }
    ensures diode { leak_of (two_wires_and (Diode 2 0 650 ∷ [])) 5 (0 ∷ 1 ∷ []) (2 ∷ 3 ∷ []) 50 ≡ ArcRead }
{}

/// A unit's charge is its one row of that kind.
pub fn a_charge_is_read_off_the_rows()
    ensures some { charge_of (two_wires_and (Charge 45 100 ∷ [])) ≡ Some (45, 100) }
    ensures none { charge_of (two_wires_and []) ≡ None }
{}
