//! The check of components.

ghost use Rattle.std.specs.Prelude.{◌≡◌, ◌+◌, ◌<◌, ◌≤◌, length, All, IfErr, IfOk, MatchResult, OnOk};
ghost use Rattle.partition.specs.NetTable.{programmed_of};
ghost use Rattle.wirelist.specs.Programs.{IsProgram};
ghost use Rattle.wirelist.specs.Ranges.{most_parts};
ghost use Rattle.parts_check.specs.Checking.{ChecksParts, StaysInOrder, StopsChecking, parts_stop_cause, parts_stop_state};
ghost use Rattle.parts_check.specs.Turns.{ProbedDiodes, ProbedResistors};

use crate::rule::{fault_of_diode, fault_of_resistor, note};
use rig::{Proven, Rig, RigStop};
use std::alloc::Global;
use wirelist::{Diode, PartFaults, Program, Resistor};

/// A proven unit whose components were read.
pub struct Checked<R: Rig> {
    /// The unit, with the readings of its components.
    pub proven: Proven<R>,
    /// The faulty components, in order.
    pub faults: PartFaults,
}

/// Why a check of components was refused. Each hands the proven unit back.
pub enum PartsStop<R: Rig> {
    /// The rig failed.
    Rig(Proven<R>),
    /// Memory ran out.
    Memory(Proven<R>),
}

/// Reads each component of the program, resistors first, and gives the faulty ones. The proven partition is the program's.
///
/// # Errors
///
/// `Rig` where the rig failed, or `Memory` where memory ran out, with no fault counted; each hands the proven unit back.
pub fn check_parts<R: Rig>(
    alloc: Global,
    mut proven: Proven<R>,
    program: &Program,
) -> Result<Checked<R>, PartsStop<R>>
    requires program { IsProgram program.now }
    requires partition { proven.partition ≡ programmed_of program.now.nets }
    ensures checks { IfOk result (λ checked. ChecksParts program.now (R.state proven.rig) (R.state checked.proven.rig) checked.faults) }
    ensures stops { IfErr result (λ stop.
        StopsChecking (R.state proven.rig) (R.state (parts_stop_state stop).rig) (parts_stop_cause stop)) }
    ensures order { MatchResult result
        (λ checked. StaysInOrder (R.state proven.rig) (R.state checked.proven.rig))
        (λ stop. StaysInOrder (R.state proven.rig) (R.state (parts_stop_state stop).rig)) }
    ensures partition { MatchResult result
        (λ checked. checked.proven.partition ≡ proven.partition)
        (λ stop. (parts_stop_state stop).partition ≡ proven.partition) }
{
    match read_parts(alloc, &mut proven, program) {
        Ok(faults) => Ok(Checked { proven, faults }),
        Err(RigStop::Failed) => Err(PartsStop::Rig(proven)),
        Err(RigStop::Memory) => Err(PartsStop::Memory(proven)),
    }
}

/// Reads each component of the program.
fn read_parts<R: Rig>(
    alloc: Global,
    proven: &mut Proven<R>,
    program: &Program,
) -> Result<PartFaults, RigStop>
    requires program { IsProgram program.now }
    requires partition { proven.old.partition ≡ programmed_of program.now.nets }
    ensures checks { IfOk result (ChecksParts program.now (R.state proven.old.rig) (R.state proven.new.rig)) }
    ensures stops { IfErr result (StopsChecking (R.state proven.old.rig) (R.state proven.new.rig)) }
    ensures partition { proven.new.partition ≡ proven.old.partition }
{
    let _partition = proven.partition();
    let resistors = program.resistors.as_slice();
    let mut faults = PartFaults::new(alloc);
    read_resistors(proven, resistors, &mut faults)?;
    read_diodes(
        proven,
        resistors.len() as u32,
        program.diodes.as_slice(),
        &mut faults,
    )?;
    Ok(faults)
}

/// Reads each resistor between its ends.
fn read_resistors<R: Rig>(
    proven: &mut Proven<R>,
    resistors: &[Resistor],
    faults: &mut PartFaults,
) -> Result<(), RigStop>
    requires inside { All (λ (r : Resistor). (r.a < (R.state proven.old.rig).points) × (r.b < (R.state proven.old.rig).points)) resistors.now }
    requires few { length resistors.now ≤ most_parts }
    ensures ok { OnOk result (ProbedResistors (R.state proven.old.rig) (R.state proven.new.rig) resistors.now faults.old faults.new) }
    ensures err { IfErr result (StopsChecking (R.state proven.old.rig) (R.state proven.new.rig)) }
    ensures partition { proven.new.partition ≡ proven.old.partition }
{
    for (i, resistor) in resistors.iter().enumerate() {
        let ohms = proven.ohms(resistor.a, resistor.b)?;
        note(faults, i as u32, fault_of_resistor(resistor, ohms))?;
    }
    Ok(())
}

/// Reads each diode from its first point to its second, and back. The first of them has this number.
fn read_diodes<R: Rig>(
    proven: &mut Proven<R>,
    first: u32,
    diodes: &[Diode],
    faults: &mut PartFaults,
) -> Result<(), RigStop>
    requires inside { All (λ (d : Diode). (d.from < (R.state proven.old.rig).points) × (d.to < (R.state proven.old.rig).points)) diodes.now }
    requires few { first + length diodes.now ≤ most_parts }
    ensures ok { OnOk result (ProbedDiodes (R.state proven.old.rig) (R.state proven.new.rig) first diodes.now faults.old faults.new) }
    ensures err { IfErr result (StopsChecking (R.state proven.old.rig) (R.state proven.new.rig)) }
    ensures partition { proven.new.partition ≡ proven.old.partition }
{
    for (i, diode) in diodes.iter().enumerate() {
        let forward = proven.junction(diode.from, diode.to)?;
        let back = proven.junction(diode.to, diode.from)?;
        note(
            faults,
            first + i as u32,
            fault_of_diode(diode, forward, back),
        )?;
    }
    Ok(())
}
