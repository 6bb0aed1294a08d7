//! The tests at high voltage of a unit without fault of wiring and components.

ghost use Rattle.std.specs.Prelude.{◌≡◌, IfErr, IfOk, IsSome};
ghost use Rattle.partition.specs.NetTable.{programmed_of};
ghost use Rattle.wirelist.specs.Programs.{IsProgram};
ghost use Rattle.hv.specs.declared.withstanding.WithstandFault.{WithstandFault};
ghost use Rattle.unit_outcome.specs.Defined.{voltage_charge, withstand_or_pass};
ghost use Rattle.sequence.specs.Halted.{unit_stop};
ghost use Rattle.sequence.specs.Stages.{FindsBreakdown, FindsVoltage, StopsLate};

use applications::HvStop;
use hv::{InsulationDone, WithstandDone, WithstandFault, insulation, withstand};
use rig::{Proven, Rig};
use std::alloc::Global;
use unit_outcome::{UnitRun, UnitStop};
use wirelist::{Outcome, Program};

/// Tests the insulation of a proven unit, and where that has no fault its withstand, as the program has them.
pub(crate) fn test_voltage<R: Rig>(
    alloc: Global,
    proven: Proven<R>,
    p: &Program,
) -> Result<UnitRun<R>, UnitStop<R>>
    requires program { IsProgram p.now }
    requires partition { proven.partition ≡ programmed_of p.now.nets }
    ensures ok { IfOk result (λ run. FindsVoltage p.now (R.state proven.rig) (R.state run.rig) run.outcome) }
    ensures err { IfErr result (StopsLate R.state p.now (voltage_charge p.now) (R.state proven.rig)) }
{
    match p.insulation {
        None => test_withstand(alloc, proven, p),
        Some(_) => test_insulation(alloc, proven, p),
    }
}

/// Tests the insulation of a proven unit, and where that has no fault its withstand, if the program has that.
fn test_insulation<R: Rig>(
    alloc: Global,
    proven: Proven<R>,
    p: &Program,
) -> Result<UnitRun<R>, UnitStop<R>>
    requires program { IsProgram p.now }
    requires partition { proven.partition ≡ programmed_of p.now.nets }
    requires test { IsSome p.now.insulation }
    ensures ok { IfOk result (λ run. FindsVoltage p.now (R.state proven.rig) (R.state run.rig) run.outcome) }
    ensures err { IfErr result (StopsLate R.state p.now (voltage_charge p.now) (R.state proven.rig)) }
{
    match insulation(alloc, proven, p) {
        Ok(InsulationDone { proven, faults }) => {
            if faults.is_empty() {
                test_withstand(alloc, proven, p)
            } else {
                Ok(UnitRun {
                    rig: proven.back().into_rig(),
                    outcome: Outcome::Insulation(faults),
                })
            }
        }
        Err(stop) => Err(stopped(stop)),
    }
}

/// Tests the withstand of a proven unit, if the program has that.
fn test_withstand<R: Rig>(
    alloc: Global,
    proven: Proven<R>,
    p: &Program,
) -> Result<UnitRun<R>, UnitStop<R>>
    requires program { IsProgram p.now }
    requires partition { proven.partition ≡ programmed_of p.now.nets }
    ensures ok { IfOk result (λ run. FindsBreakdown p.now (R.state proven.rig) (R.state run.rig) run.outcome) }
    ensures err { IfErr result (StopsLate R.state p.now (voltage_charge p.now) (R.state proven.rig)) }
{
    if p.withstand.is_none() {
        return Ok(UnitRun {
            rig: proven.back().into_rig(),
            outcome: Outcome::Pass,
        });
    }
    match withstand(alloc, proven, p) {
        Ok(WithstandDone { proven, failed }) => Ok(UnitRun {
            rig: proven.back().into_rig(),
            outcome: outcome_of(failed),
        }),
        Err(stop) => Err(stopped(stop)),
    }
}

/// The outcome of a unit that has no other fault.
fn outcome_of(failed: Option<WithstandFault>) -> Outcome
    ensures { result ≡ withstand_or_pass failed }
{
    match failed {
        None => Outcome::Pass,
        Some(fault) => Outcome::Withstand {
            bit: fault.bit,
            volts: fault.volts,
            leak: fault.leak,
        },
    }
}

/// The stop of a unit's test that the stop of a test at high voltage is.
fn stopped<R: Rig>(stop: HvStop<R>) -> UnitStop<R>
    ensures { result ≡ unit_stop stop }
{
    match stop {
        HvStop::InterlockOpen(safe) => UnitStop::InterlockOpen(safe.into_rig()),
        HvStop::NotDischarged(safe, volts) => UnitStop::NotDischarged(safe.into_rig(), volts),
        HvStop::RigWhileSafe(safe) => UnitStop::RigFault(safe.into_rig()),
        HvStop::RigBefore(proven) => UnitStop::RigFault(proven.back().into_rig()),
        HvStop::NotZero(stuck) => UnitStop::NotZero(stuck),
        HvStop::Memory(rig) => UnitStop::Memory(rig),
    }
}
