//! A seated unit.

ghost use Rattle.std.specs.Prelude.{◌≡◌, ◌<◌, ◌≤◌, IfOk, MatchResult, Ok};
ghost use Rattle.std.specs.Result.{result_err};
ghost use Rattle.rig.specs.Calls.{AreGroups, Conducts, ReadsOhms, ReadsJunction, ReadsResidual, Ticks};
ghost use Rattle.rig.specs.Readings.{Reads, Teaches};
ghost use Rattle.rig.specs.Seating.{Seats, IsSeating};

use crate::seat_number::{SeatNumber, seat_number};
use crate::{Rig, RigStop, SeatAnswer};
use partition::Point;
use std::marker::Model;

/// A rig with a unit seated and no voltage. Contracts see the rig.
pub struct Seated<R: Rig> {
    rig: R,
}

/// Why a seating was refused. Each hands the rig back.
pub enum SeatStop<R> {
    /// There is no such unit.
    Absent(R),
    /// The rig failed.
    Rig(R),
    /// Memory ran out.
    Memory(R),
}

impl<R: Rig> Model for Seated<R> {
    ghost Value = { R };

    ghost view = { λ s. s.rig };

    ghost invariant = { λ s. IsSeating (R.state s.rig) };
}

impl<R: Rig> Seated<R> {
    ghost use Rattle.rig.specs.Stops.{seat_stop_rig, seat_stop_answer};

    /// Seats the unit with this serial and attempt.
    ///
    /// # Errors
    ///
    /// `Absent` where there is no such unit, `Rig` where the rig failed, or `Memory`; each hands the rig back.
    pub fn take(mut rig: R, serial: &str, attempt: u8) -> Result<Self, SeatStop<R>>
        requires { (R.state rig).volts ≡ 0 }
        ensures { MatchResult result
            (λ seat. Seats (R.state rig) (R.state seat) serial.now attempt (Ok SeatAnswer.Present))
            (λ stop. Seats (R.state rig) (R.state (seat_stop_rig stop)) serial.now attempt (seat_stop_answer stop)) }
    {
        match rig.seat(serial, attempt) {
            Ok(SeatAnswer::Present) => Ok(Seated { rig }),
            Ok(SeatAnswer::Absent) => Err(SeatStop::Absent(rig)),
            Err(RigStop::Failed) => Err(SeatStop::Rig(rig)),
            Err(RigStop::Memory) => Err(SeatStop::Memory(rig)),
        }
    }

    /// The number of points of the rig.
    pub fn points(&self) -> u16
        ensures points { result ≡ (R.state self.now).points }
        ensures some { 1 ≤ result }
        ensures seating { IsSeating (R.state self.now) }
    {
        self.rig.points()
    }

    /// Whether some point of the one group is joined with some point of the other: one group reading.
    ///
    /// # Errors
    ///
    /// `Failed` or `Memory`.
    pub fn conducts(&mut self, a: &[Point], b: &[Point]) -> Result<bool, RigStop>
        requires { AreGroups (R.state self.old).points a.now b.now }
        ensures call { Conducts (R.state self.old) (R.state self.new) a.now b.now result }
        ensures reads { Reads (R.state self.old) (R.state self.new) (result_err result) }
        ensures teaches { IfOk result (Teaches (R.state self.old) (R.state self.new) a.now b.now) }
    {
        self.rig.conducts(a, b)
    }

    /// A rig with a unit seated and no voltage.
    pub(crate) fn around(rig: R) -> Seated<R>
        requires { IsSeating (R.state rig) }
        ensures { result ≡ rig }
    {
        Seated { rig }
    }

    /// The milliohms between two points.
    pub(crate) fn ohms(&mut self, a: Point, b: Point) -> Result<Option<u64>, RigStop>
        requires first { a < (R.state self.old).points }
        requires second { b < (R.state self.old).points }
        ensures { ReadsOhms (R.state self.old) (R.state self.new) a b result }
    {
        self.rig.ohms(a, b)
    }

    /// The millivolts from one point to another.
    pub(crate) fn junction(&mut self, from: Point, to: Point) -> Result<Option<u32>, RigStop>
        requires first { from < (R.state self.old).points }
        requires second { to < (R.state self.old).points }
        ensures { ReadsJunction (R.state self.old) (R.state self.new) from to result }
    {
        self.rig.junction(from, to)
    }

    /// The volts that are still on the unit.
    pub(crate) fn residual(&mut self) -> Result<u16, RigStop>
        ensures { ReadsResidual (R.state self.old) (R.state self.new) result }
    {
        self.rig.residual()
    }

    /// Lets a tick pass.
    pub(crate) fn tick(&mut self) -> Result<(), RigStop>
        ensures { Ticks (R.state self.old) (R.state self.new) result }
    {
        self.rig.tick()
    }

    /// The number of the seating, for proofs.
    pub(crate) fn number(&self) -> SeatNumber
        ensures { result.number ≡ (R.state self.now).seats }
    {
        seat_number(&self.rig)
    }

    /// The rig, without voltage.
    pub fn into_rig(self) -> R
        ensures rig { result ≡ self }
        ensures seating { IsSeating (R.state result) }
    {
        let Seated { rig } = self;
        rig
    }
}
