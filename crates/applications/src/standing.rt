//! One application of a voltage between two groups that the unit is to withstand.

ghost use Rattle.std.specs.Prelude.{◌≡◌, ◌≤◌, IfOk, IfErr, MatchResult, Ok};
ghost use Rattle.partition.specs.Partitions.{JoinsAllOf, Meets};
ghost use Rattle.rig.specs.Calls.{AreGroups};
ghost use Rattle.applications.specs.Measuring.{Finishes, FinishStops, HvStopped, KeepsPartition};
ghost use Rattle.applications.specs.Enduring.{IsEndurance};
ghost use Rattle.applications.specs.Standing.{Stands};

use crate::enduring::endure;
use crate::measuring::start;
use crate::{Breakdown, Endurance, HvStop};
use partition::{Partition, Point};
use rig::{DischargeStop, Proven, RaiseStop, Rig, Safe};
use std::alloc::Global;

/// A proven unit after an application, and the breakdown, if there was one.
pub struct Applied<R: Rig> {
    pub proven: Proven<R>,
    pub broken: Option<Breakdown>,
}

/// Applies the voltage of the test between two groups for its ticks, up to a breakdown, brings the source to zero and discharges the unit.
pub fn stand<R: Rig>(
    alloc: Global,
    proven: Proven<R>,
    bonds: &Partition,
    a: &[Point],
    b: &[Point],
    test: Endurance,
) -> Result<Applied<R>, HvStop<R>>
    requires bonds { JoinsAllOf bonds.now proven.partition }
    requires groups { AreGroups (R.state proven.rig).points a.now b.now }
    requires apart { Meets bonds.now a.now b.now → ⊥ }
    requires test { IsEndurance test }
    ensures ok { IfOk result (λ m. Stands bonds.now (R.state proven.rig) (R.state m.proven.rig) a.now b.now test m.broken) }
    ensures err { IfErr result (HvStopped R.state bonds.now (R.state proven.rig)) }
    ensures partition { MatchResult result (λ m. m.proven.partition ≡ proven.partition) (KeepsPartition proven.partition) }
{
    let mut live = start(alloc, proven, bonds, a, b)?;
    let held = endure(&mut live, test);
    match live.down() {
        Ok(safe) => conclude(safe, held),
        Err(stuck) => Err(HvStop::NotZero(stuck)),
    }
}

/// Discharges the unit where the voltage was held up to the end or a breakdown, or says why it was not.
fn conclude<R: Rig>(
    safe: Safe<R>,
    held: Result<Option<Breakdown>, RaiseStop>,
) -> Result<Applied<R>, HvStop<R>>
    ensures ok { IfOk result (λ m. Finishes (R.state safe.rig) (R.state m.proven.rig) held m.broken) }
    ensures err { IfErr result (FinishStops R.state (R.state safe.rig) held) }
    ensures partition { MatchResult result (λ m. m.proven.partition ≡ safe.partition) (KeepsPartition safe.partition) }
{
    match held {
        Ok(broken) => discharge(safe, broken),
        Err(RaiseStop::DoorOpen) => Err(HvStop::InterlockOpen(safe)),
        Err(RaiseStop::Rig) => Err(HvStop::RigWhileSafe(safe)),
        Err(RaiseStop::Memory) => Err(HvStop::Memory(safe.into_rig())),
    }
}

/// Discharges the unit.
fn discharge<R: Rig>(safe: Safe<R>, broken: Option<Breakdown>) -> Result<Applied<R>, HvStop<R>>
    ensures ok { IfOk result (λ m. Finishes (R.state safe.rig) (R.state m.proven.rig) (Ok broken) m.broken) }
    ensures err { IfErr result (FinishStops R.state (R.state safe.rig) (Ok broken)) }
    ensures partition { MatchResult result (λ m. m.proven.partition ≡ safe.partition) (KeepsPartition safe.partition) }
{
    match safe.discharge() {
        Ok(proven) => Ok(Applied { proven, broken }),
        Err(DischargeStop::NotDischarged(safe, volts)) => Err(HvStop::NotDischarged(safe, volts)),
        Err(DischargeStop::Rig(safe)) => Err(HvStop::RigWhileSafe(safe)),
        Err(DischargeStop::Memory(safe)) => Err(HvStop::Memory(safe.into_rig())),
    }
}
