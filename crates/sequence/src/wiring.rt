//! The wiring of a unit.

ghost use Rattle.std.specs.Prelude.{◌≡◌, ◌-◌, IfErr, IfOk};
ghost use Rattle.partition.specs.Digits.{digits_of};
ghost use Rattle.partition.specs.NetTable.{programmed_of};
ghost use Rattle.wirelist.specs.Programs.{IsProgram};
ghost use Rattle.unit_outcome.specs.Enough.{checking_readings, net_classes};
ghost use Rattle.sequence.specs.Wired.{Contradicts, IsOfJudged, ShowsDifference, StopsReading, Wires};

use difference::{Difference, difference};
use isolate::{ContinuityStop, IsolationStop, continuity, diagnose, isolation};
use learn::{LearnStop, Learned};
use rig::{Continuous, Proven, Rig, Seated};
use std::alloc::Global;
use unit_outcome::UnitStop;
use wirelist::Program;

/// What the readings show of a unit's wiring.
pub(crate) enum Wiring<R: Rig> {
    /// The partition is the programmed one.
    AsProgrammed(Proven<R>),
    /// Continuity or isolation stopped; this is the difference from the nets.
    Differs(Seated<R>, Difference),
}

/// Reads continuity and isolation, and where either stops the difference of the unit from the nets.
pub(crate) fn read_wiring<R: Rig>(
    alloc: Global,
    seat: Seated<R>,
    p: &Program,
) -> Result<Wiring<R>, UnitStop<R>>
    requires program { IsProgram p.now }
    requires points { p.now.nets.points ≡ (R.state seat).points }
    requires judged { IsOfJudged p.now (R.state seat) }
    ensures ok { IfOk result (Wires R.state p.now (checking_readings p.now) (R.state seat)) }
    ensures err { IfErr result (StopsReading R.state p.now (R.state seat)) }
{
    let _point_count = seat.points();
    match continuity(alloc, seat, &p.nets) {
        Ok(unit) => read_isolation(alloc, unit, p),
        Err(
            ContinuityStop::OpenAt {
                seat,
                net: _,
                point: _,
            },
        ) => read_difference(alloc, seat, p),
        Err(ContinuityStop::Rig(seat)) => Err(UnitStop::RigFault(seat.into_rig())),
        Err(ContinuityStop::Memory(seat)) => Err(UnitStop::Memory(seat.into_rig())),
    }
}

/// Reads isolation, and where that stops the difference of the unit from the nets.
fn read_isolation<R: Rig>(
    alloc: Global,
    unit: Continuous<R>,
    p: &Program,
) -> Result<Wiring<R>, UnitStop<R>>
    requires program { IsProgram p.now }
    requires points { p.now.nets.points ≡ (R.state unit.rig).points }
    requires judged { IsOfJudged p.now (R.state unit.rig) }
    requires partition { unit.partition ≡ programmed_of p.now.nets }
    ensures ok { IfOk result (Wires R.state p.now (digits_of (net_classes p.now - 1)) (R.state unit.rig)) }
    ensures err { IfErr result (StopsReading R.state p.now (R.state unit.rig)) }
{
    match isolation(alloc, unit) {
        Ok(proven) => Ok(Wiring::AsProgrammed(proven)),
        Err(IsolationStop::ShortAt { seat, bit: _ }) => read_difference(alloc, seat, p),
        Err(IsolationStop::Rig(seat)) => Err(UnitStop::RigFault(seat.into_rig())),
        Err(IsolationStop::Memory(seat)) => Err(UnitStop::Memory(seat.into_rig())),
    }
}

/// Finds by what a unit differs from the nets, whose readings do not agree with them.
fn read_difference<R: Rig>(
    alloc: Global,
    seat: Seated<R>,
    p: &Program,
) -> Result<Wiring<R>, UnitStop<R>>
    requires program { IsProgram p.now }
    requires points { p.now.nets.points ≡ (R.state seat).points }
    requires judged { IsOfJudged p.now (R.state seat) }
    requires contradiction { Contradicts p.now (R.state seat) }
    ensures ok { IfOk result (ShowsDifference R.state p.now (R.state seat)) }
    ensures err { IfErr result (StopsReading R.state p.now (R.state seat)) }
{
    match diagnose(alloc, seat, &p.nets) {
        Ok(Learned { seat, partition }) => {
            let _point_count = seat.points();
            match difference(alloc, &p.nets, &partition) {
                Ok(difference) => Ok(Wiring::Differs(seat, difference)),
                Err(_) => Err(UnitStop::Memory(seat.into_rig())),
            }
        }
        Err(LearnStop::Rig(seat)) => Err(UnitStop::RigFault(seat.into_rig())),
        Err(LearnStop::Memory(seat)) => Err(UnitStop::Memory(seat.into_rig())),
    }
}
