//! One application of a voltage between two groups.

ghost use Rattle.std.specs.Prelude.{◌≡◌, ◌%◌, ◌<◌, ◌≤◌, IfOk, IfErr, MatchResult};
ghost use Rattle.partition.specs.Partitions.{JoinsAllOf, Meets};
ghost use Rattle.rig.specs.Calls.{AreGroups};
ghost use Rattle.applications.specs.Measuring.{Finishes, FinishStops, HvStopped, KeepsPartition, Measures, Starts};

use crate::HvStop;
use crate::holding::hold;
use partition::{Partition, Point};
use rig::{DischargeStop, Leak, Live, Proven, RaiseStop, Rig, RouteStop, Safe};
use std::alloc::Global;

/// A proven unit after an application, and the leak that was read.
pub struct Measured<R: Rig> {
    pub proven: Proven<R>,
    pub leak: Leak,
}

/// Applies a voltage between two groups for so many ticks, reads the leak, brings the source to zero and discharges the unit.
pub fn measure<R: Rig>(
    alloc: Global,
    proven: Proven<R>,
    bonds: &Partition,
    a: &[Point],
    b: &[Point],
    volts: u16,
    ticks: u16,
) -> Result<Measured<R>, HvStop<R>>
    requires bonds { JoinsAllOf bonds.now proven.partition }
    requires groups { AreGroups (R.state proven.rig).points a.now b.now }
    requires apart { Meets bonds.now a.now b.now → ⊥ }
    requires some { 0 < volts }
    requires by_fifty { volts % 50 ≡ 0 }
    requires most { volts ≤ 2000 }
    ensures ok { IfOk result (λ m. Measures bonds.now (R.state proven.rig) (R.state m.proven.rig) a.now b.now volts ticks m.leak) }
    ensures err { IfErr result (HvStopped R.state bonds.now (R.state proven.rig)) }
    ensures partition { MatchResult result (λ m. m.proven.partition ≡ proven.partition) (KeepsPartition proven.partition) }
{
    let mut live = start(alloc, proven, bonds, a, b)?;
    let held = hold(&mut live, volts, ticks);
    match live.down() {
        Ok(safe) => finish(safe, held),
        Err(stuck) => Err(HvStop::NotZero(stuck)),
    }
}

/// Makes the route between two groups.
pub(crate) fn start<R: Rig>(
    alloc: Global,
    proven: Proven<R>,
    bonds: &Partition,
    a: &[Point],
    b: &[Point],
) -> Result<Live<R>, HvStop<R>>
    requires bonds { JoinsAllOf bonds.now proven.partition }
    requires groups { AreGroups (R.state proven.rig).points a.now b.now }
    requires apart { Meets bonds.now a.now b.now → ⊥ }
    ensures ok { IfOk result (λ live. Starts (R.state proven.rig) (R.state live.rig) a.now b.now) }
    ensures err { IfErr result (HvStopped R.state bonds.now (R.state proven.rig)) }
    ensures partition { MatchResult result (λ live. live.partition ≡ proven.partition) (KeepsPartition proven.partition) }
{
    let _partition = proven.partition();
    let permit = match proven.permit(alloc, bonds) {
        Ok(permit) => permit,
        Err(_) => return Err(HvStop::Memory(proven.back().into_rig())),
    };
    match proven.route(permit, a, b) {
        Ok(live) => Ok(live),
        Err(RouteStop::Rig(proven)) => Err(HvStop::RigBefore(proven)),
        Err(RouteStop::Memory(proven)) => Err(HvStop::Memory(proven.back().into_rig())),
    }
}

/// Discharges the unit where the voltage was held, or says why it was not.
fn finish<R: Rig>(safe: Safe<R>, held: Result<Leak, RaiseStop>) -> Result<Measured<R>, HvStop<R>>
    ensures ok { IfOk result (λ m. Finishes (R.state safe.rig) (R.state m.proven.rig) held m.leak) }
    ensures err { IfErr result (FinishStops R.state (R.state safe.rig) held) }
    ensures partition { MatchResult result (λ m. m.proven.partition ≡ safe.partition) (KeepsPartition safe.partition) }
{
    match held {
        Ok(leak) => discharge(safe, leak),
        Err(RaiseStop::DoorOpen) => Err(HvStop::InterlockOpen(safe)),
        Err(RaiseStop::Rig) => Err(HvStop::RigWhileSafe(safe)),
        Err(RaiseStop::Memory) => Err(HvStop::Memory(safe.into_rig())),
    }
}

/// Discharges the unit.
fn discharge<R: Rig>(safe: Safe<R>, leak: Leak) -> Result<Measured<R>, HvStop<R>>
    ensures ok { IfOk result (λ m. Finishes (R.state safe.rig) (R.state m.proven.rig) (Ok leak) m.leak) }
    ensures err { IfErr result (FinishStops R.state (R.state safe.rig) (Ok leak)) }
    ensures partition { MatchResult result (λ m. m.proven.partition ≡ safe.partition) (KeepsPartition safe.partition) }
{
    match safe.discharge() {
        Ok(proven) => Ok(Measured { proven, leak }),
        Err(DischargeStop::NotDischarged(safe, volts)) => Err(HvStop::NotDischarged(safe, volts)),
        Err(DischargeStop::Rig(safe)) => Err(HvStop::RigWhileSafe(safe)),
        Err(DischargeStop::Memory(safe)) => Err(HvStop::Memory(safe.into_rig())),
    }
}
