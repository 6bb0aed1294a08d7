//! The trait of every rig.

ghost use Rattle.std.specs.Prelude.{◌≡◌, ◌<◌, ◌≤◌, IsTrue};

use crate::{Leak, Permit};
use base::Memory;
use partition::Point;
use thiserror::Error;

/// Why a call of a rig was refused.
#[derive(Clone, Copy, Debug, PartialEq, Eq, Error)]
pub enum RigStop {
    /// The device failed, which its count of faults tells.
    #[error("the rig failed")]
    Failed,
    /// Memory ran out before the device was asked.
    #[error("out of memory")]
    Memory,
}

impl From<Memory> for RigStop {
    ghost use Rattle.std.specs.Prelude.{◌≡◌};
    ghost use Rattle.rig.specs.declared.rig.RigStop.TheVariants.{Memory as NoMemory};

    ghost from_gives = { λ _ e. e ≡ NoMemory };

    fn from(_: Memory) -> Self {
        RigStop::Memory
    }
}

/// Whether the fixture has the unit that it was asked for.
#[derive(Clone, Copy, Debug, PartialEq, Eq)]
pub enum SeatAnswer {
    /// It is in the fixture.
    Present,
    /// There is no such unit, and nothing is in the fixture.
    Absent,
}

/// A fixture with a unit under test. Contracts see its state.
///
/// Each call but `points` and `zero` answers `Memory` where memory ran out before the device was asked, and `Failed` only where the
/// count of faults rose. Such a call adds no event, but for a raise and a zero that failed.
pub trait Rig {
    ghost use Rattle.rig.specs.RigState.{RigState};
    ghost use Rattle.rig.specs.Calls.{IsReady, IsPowered, AreGroups, Conducts, ReadsOhms, ReadsJunction, ReadsInterlock};
    ghost use Rattle.rig.specs.Calls.{Routes, CanRaise, Raises, ReadsLeak, Zeroes, ReadsResidual, Ticks};
    ghost use Rattle.rig.specs.Seating.{Seats};

    ghost state: { Self → RigState };

    /// The number of points, at least 1. It never changes.
    fn points(&self) -> u16
        ensures points { result ≡ (state self.now).points }
        ensures some { 1 ≤ result };

    /// Puts the unit with this serial and attempt into the fixture. With an answer the trail is empty; with `Absent` or a refusal no
    /// unit is seated.
    ///
    /// # Errors
    ///
    /// `Failed`, also where the count of seat calls stands at its last value, or `Memory`; the trail stays.
    fn seat(&mut self, serial: &str, attempt: u8) -> Result<SeatAnswer, RigStop>
        requires { (state self.old).volts ≡ 0 }
        ensures { Seats (state self.old) (state self.new) serial.now attempt result };

    /// Whether some point of the one group is joined with some point of the other: one group reading. The groups ascend, are not
    /// empty and have no common point.
    ///
    /// # Errors
    ///
    /// `Failed`, also where the count of readings stands at its last value, or `Memory`.
    fn conducts(&mut self, a: &[Point], b: &[Point]) -> Result<bool, RigStop>
        requires ready { IsReady (state self.old) }
        requires groups { AreGroups (state self.old).points a.now b.now }
        ensures { Conducts (state self.old) (state self.new) a.now b.now result };

    /// The milliohms between two points: 0 where they are joined, none where no resistor lies between their classes.
    ///
    /// # Errors
    ///
    /// `Failed` or `Memory`.
    fn ohms(&mut self, a: Point, b: Point) -> Result<Option<u64>, RigStop>
        requires ready { IsReady (state self.old) }
        requires first { a < (state self.old).points }
        requires second { b < (state self.old).points }
        ensures { ReadsOhms (state self.old) (state self.new) a b result };

    /// The millivolts from one point to another: 0 where they are joined, none where no diode leads from the one class to the other.
    ///
    /// # Errors
    ///
    /// `Failed` or `Memory`.
    fn junction(&mut self, from: Point, to: Point) -> Result<Option<u32>, RigStop>
        requires ready { IsReady (state self.old) }
        requires first { from < (state self.old).points }
        requires second { to < (state self.old).points }
        ensures { ReadsJunction (state self.old) (state self.new) from to result };

    /// Whether the interlock is closed.
    ///
    /// # Errors
    ///
    /// `Failed` or `Memory`.
    fn interlock(&mut self) -> Result<bool, RigStop>
        requires { IsTrue (state self.old).seated }
        ensures { ReadsInterlock (state self.old) (state self.new) result };

    /// Connects two groups to the source, and leaves room for three commands to zero. The groups are as in `conducts`.
    ///
    /// # Errors
    ///
    /// `Failed` or `Memory`; then the route that stood before still stands.
    fn route(&mut self, a: &[Point], b: &[Point]) -> Result<(), RigStop>
        requires ready { IsReady (state self.old) }
        requires groups { AreGroups (state self.old).points a.now b.now }
        ensures { Routes (state self.old) (state self.new) a.now b.now result };

    /// Commands the source to some volts, a multiple of 50, at most 2,000 and at most 50 above the last, and leaves room for three
    /// commands to zero.
    ///
    /// # Errors
    ///
    /// `Failed`, after which the volts count as commanded and the raise stands in the trail, or `Memory`, after which they do not.
    fn raise(&mut self, permit: &Permit, volts: u16) -> Result<(), RigStop>
        requires { CanRaise (state self.old) permit.now volts }
        ensures { Raises (state self.old) (state self.new) volts result };

    /// The leak between the groups of the route, at the volts that stand.
    ///
    /// # Errors
    ///
    /// `Failed` or `Memory`.
    fn leak(&mut self) -> Result<Leak, RigStop>
        requires { IsPowered (state self.old) }
        ensures { ReadsLeak (state self.old) (state self.new) result };

    /// Commands the source to zero. Takes no memory, but one event of the room that a route or a raise left.
    ///
    /// # Errors
    ///
    /// `Failed`; the volts stay, and the command stands in the trail.
    fn zero(&mut self) -> Result<(), RigStop>
        requires { 1 ≤ (state self.old).spare }
        ensures { Zeroes (state self.old) (state self.new) result };

    /// The volts that are still on the unit while the source is at zero.
    ///
    /// # Errors
    ///
    /// `Failed` or `Memory`.
    fn residual(&mut self) -> Result<u16, RigStop>
        requires { IsReady (state self.old) }
        ensures { ReadsResidual (state self.old) (state self.new) result };

    /// Lets a tick pass. The interlock must be read again before the next raise.
    ///
    /// # Errors
    ///
    /// `Failed` or `Memory`; then no tick passed.
    fn tick(&mut self) -> Result<(), RigStop>
        requires { IsTrue (state self.old).seated }
        ensures { Ticks (state self.old) (state self.new) result };
}
