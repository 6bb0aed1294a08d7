//! One unit's whole test.

ghost use Rattle.std.specs.Prelude.{◌≡◌};
ghost use Rattle.wirelist.specs.Programs.{IsProgram};
ghost use Rattle.unit_outcome.specs.Tested.{RunsUnit};
ghost use Rattle.sequence.specs.Halted.{seat_stop};
ghost use Rattle.sequence.specs.Whole.{EndsSeated};
ghost use Rattle.sequence.specs.Wired.{IsOfJudged};

use crate::components::test_proven;
use crate::wiring::{Wiring, read_wiring};
use rig::{Rig, SeatStop, Seated};
use std::alloc::Global;
use unit_outcome::{UnitRun, UnitStop};
use wirelist::{Outcome, Program};

/// Tests the unit with this serial and attempt against a program. The nets have the rig's number of points, and the source is at zero.
///
/// # Errors
///
/// See [`UnitStop`]. The source is at zero but in `NotZero`.
pub fn run_unit<R: Rig>(
    alloc: Global,
    rig: R,
    p: &Program,
    serial: &str,
    attempt: u8,
) -> Result<UnitRun<R>, UnitStop<R>>
    requires unpowered { (R.state rig).volts ≡ 0 }
    requires program { IsProgram p.now }
    requires points { p.now.nets.points ≡ (R.state rig).points }
    ensures { RunsUnit R.state p.now serial.now attempt (R.state rig) result }
{
    match Seated::take(rig, serial, attempt) {
        Ok(seat) => test_seated(alloc, seat, p),
        Err(stop) => Err(unseated(stop)),
    }
}

/// The stop of a unit's test that the refusal of its seat is.
fn unseated<R: Rig>(stop: SeatStop<R>) -> UnitStop<R>
    ensures { result ≡ seat_stop stop }
{
    match stop {
        SeatStop::Absent(rig) => UnitStop::Empty(rig),
        SeatStop::Rig(rig) => UnitStop::RigFault(rig),
        SeatStop::Memory(rig) => UnitStop::Memory(rig),
    }
}

/// Tests a seated unit.
fn test_seated<R: Rig>(
    alloc: Global,
    seat: Seated<R>,
    p: &Program,
) -> Result<UnitRun<R>, UnitStop<R>>
    requires program { IsProgram p.now }
    requires points { p.now.nets.points ≡ (R.state seat).points }
    requires judged { IsOfJudged p.now (R.state seat) }
    ensures { EndsSeated R.state p.now (R.state seat) result }
{
    match read_wiring(alloc, seat, p)? {
        Wiring::AsProgrammed(proven) => test_proven(alloc, proven, p),
        Wiring::Differs(seat, difference) => Ok(UnitRun {
            rig: seat.into_rig(),
            outcome: Outcome::Wiring(difference),
        }),
    }
}
