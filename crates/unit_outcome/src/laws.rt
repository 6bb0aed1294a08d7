//! The laws of the definitions, each the contract of a function that does nothing.

ghost use Rattle.std.specs.Prelude.{◌≡◌, List, Option};
ghost use Rattle.hv.specs.Withstanding.{IsFirstBreakdown};
ghost use Rattle.hv.specs.declared.withstanding.WithstandFault.{WithstandFault};
ghost use Rattle.rig.specs.declared.unit.Row.{Row};
ghost use Rattle.unit_outcome.specs.Defined.{first_breakdown};
ghost use Rattle.wirelist.specs.declared.program.Program.{Program};
ghost use Rattle.wirelist.specs.declared.program.Withstand.{Withstand};

/// A unit has exactly one first breakdown: that of the defined outcome.
pub fn the_first_breakdown_is_one()
    ensures { (p : Program) (rows : List Row) (test : Withstand) (found : Option WithstandFault) →
        IsFirstBreakdown p rows test found → found ≡ first_breakdown p rows test }
{}
