//! The test of both units on one simulator.

ghost use Rattle.std.specs.Prelude.{◌≡◌, ◌≤◌, ℕ, IfOk, IfErr};
ghost use Rattle.wirelist.specs.Programs.{IsProgram};
ghost use Rattle.soak_pair.specs.Pair.{good_outcome, bad_outcome};
ghost use Rattle.soak.specs.Soaked.{IsSoaked, StopsSoak};
ghost use Rattle.soak.specs.Between.{IsGood, StopsOne};

use base::Memory;
use rig_sim::SimRig;
use sequence::run_unit;
use soak_pair::{soak_program, soak_rig};
use std::alloc::Global;
use unit_outcome::{UnitRun, UnitStop};
use wirelist::{Outcome, Program};

/// Both units were tested.
#[derive(Drop)]
pub struct Soaked {
    pub good: Outcome,
    pub bad: Outcome,
    /// The rig, with BAD 1 seated and the source at zero.
    pub rig: SimRig,
}

/// Why one of the units has no outcome.
#[derive(Drop)]
pub enum SoakStop {
    /// The rig failed, with the source at zero.
    RigFault(SimRig),
    /// Three zero calls failed.
    NotZero(SimRig),
    /// Memory ran out. There is a rig where it was made.
    Memory(Option<SimRig>),
}

impl From<Memory> for SoakStop {
    ghost use Rattle.std.specs.Prelude.{◌≡◌, None};
    ghost use Rattle.soak.specs.declared.run.SoakStop.TheVariants as stop;

    ghost from_gives = { λ _ given. given ≡ stop.Memory None };

    fn from(_: Memory) -> Self {
        SoakStop::Memory(None)
    }
}

/// Tests GOOD 1 and then BAD 1 over this many points, from 1 to 4,096, on a new simulator.
///
/// # Errors
///
/// See [`SoakStop`].
pub fn run_pair(alloc: Global, points: u16) -> Result<Soaked, SoakStop>
    requires some { 1 ≤ points }
    requires few { points ≤ 4096 }
    ensures good { IfOk result (λ s. s.good ≡ good_outcome points) }
    ensures bad { IfOk result (λ s. s.bad ≡ bad_outcome points) }
    ensures rig { IfOk result (λ s. IsSoaked points s.rig.state) }
    ensures stops { IfErr result (StopsSoak points) }
{
    let program = soak_program(alloc, points)?;
    let rig = soak_rig(alloc, points)?;
    match run_unit(alloc, rig, &program, "GOOD", 1) {
        Ok(UnitRun { rig, outcome }) => run_bad(alloc, rig, &program, outcome),
        Err(stop) => Err(stop_of(stop)),
    }
}

/// Tests BAD 1, after GOOD 1.
fn run_bad(alloc: Global, rig: SimRig, program: &Program, good: Outcome) -> Result<Soaked, SoakStop>
    requires valid { IsProgram program.now }
    requires before { IsGood program.now.nets.points program.now rig.state good }
    ensures good { IfOk result (λ s. s.good ≡ good_outcome program.now.nets.points) }
    ensures bad { IfOk result (λ s. s.bad ≡ bad_outcome program.now.nets.points) }
    ensures rig { IfOk result (λ s. IsSoaked program.now.nets.points s.rig.state) }
    ensures stops { IfErr result (StopsSoak program.now.nets.points) }
{
    match run_unit(alloc, rig, program, "BAD", 1) {
        Ok(UnitRun { rig, outcome }) => Ok(Soaked {
            good,
            bad: outcome,
            rig,
        }),
        Err(stop) => Err(stop_of(stop)),
    }
}

/// The stop of a soak that the stop of one of its units is.
fn stop_of(stop: UnitStop<SimRig>) -> SoakStop
    requires { (n : ℕ) × StopsOne n stop }
    ensures { (n : ℕ) → StopsOne n stop → StopsSoak n result }
{
    match stop {
        UnitStop::RigFault(rig) => SoakStop::RigFault(rig),
        UnitStop::NotZero(stuck) => SoakStop::NotZero(stuck.into_rig()),
        UnitStop::Memory(rig) => SoakStop::Memory(Some(rig)),
        UnitStop::Empty(_rig) => unreachable!(),
        UnitStop::InterlockOpen(_rig) => unreachable!(),
        UnitStop::NotDischarged(_rig, _volts) => unreachable!(),
    }
}
