//! The lines of an outcome.

ghost use Rattle.std.specs.Prelude.{◌≡◌, ◌++◌, IfSome, OnOk, OnErr, option_copied};
ghost use Rattle.outcome_lines.specs.Labels.{HasLabels};
ghost use Rattle.outcome_lines.specs.OutcomeLines.{outcome_lines};

use crate::faults::{write_leaks, write_parts, write_withstand};
use crate::wiring::write_wiring;
use base::{Memory, Text};
use std::alloc::Global;
use wirelist::{Outcome, Program};

/// Appends a line for each thing that an outcome names, under the program of the test; `#` and numbers stand for what the
/// program does not have, or has no program. Where memory ran out it appends nothing.
pub fn write_outcome(
    alloc: Global,
    outcome: &Outcome,
    program: Option<&Program>,
    out: &mut Text,
) -> Result<(), Memory>
    requires { IfSome program (λ p. HasLabels p.now) }
    ensures ok { OnOk result (out.new ≡ out.old ++ outcome_lines (option_copied program.entry) outcome.now) }
    ensures err { OnErr result (out.new ≡ out.old) }
{
    let mut text = Text::new(alloc);
    append_outcome(alloc, outcome, program, &mut text)?;
    out.push_str(text.as_str())
}

/// Appends the lines of an outcome, or a part of them where memory ran out.
#[tactic(auto, unfolding(crate::specs::OutcomeLines::outcome_lines))]
fn append_outcome(
    alloc: Global,
    outcome: &Outcome,
    program: Option<&Program>,
    out: &mut Text,
) -> Result<(), Memory>
    requires { IfSome program (λ p. HasLabels p.now) }
    ensures { OnOk result (out.new ≡ out.old ++ outcome_lines (option_copied program.entry) outcome.now) }
{
    match outcome {
        Outcome::Pass => Ok(()),
        Outcome::Wiring(difference) => write_wiring(alloc, difference, program, out),
        Outcome::Parts(faults) => write_parts(alloc, faults.as_slice(), program, out),
        Outcome::Insulation(faults) => write_leaks(alloc, faults.as_slice(), program, out),
        Outcome::Withstand { bit, volts, leak } => {
            write_withstand(alloc, *bit, *volts, *leak, out)
        }
    }
}
