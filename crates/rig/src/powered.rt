//! A unit with a route to the high-voltage source.

ghost use Rattle.std.specs.Prelude.{◌≡◌, ◌+◌, ◌-◌, ◌<◌, ◌≤◌, false, true, IfOk, MatchResult, IsTrue, Ok, Err};
ghost use Rattle.std.specs.Result.{result_err};
ghost use Rattle.partition.specs.Partitions.{Meets};
ghost use Rattle.rig.specs.Calls.{AreGroups, Permits, ReadsInterlock, ReadsLeak, Routes, Ticks};
ghost use Rattle.rig.specs.Powered.{GoesDown, IsStuck, Steps};
ghost use Rattle.rig.specs.Trail.{Determines};

use crate::{Leak, Permit, Proven, Rig, RigStop, Safe, Seated};
use partition::{Partition, Point};
use std::marker::Model;

/// A proven unit with a route to the source. It must be brought down. Contracts see the rig, the partition and the permit.
pub struct Live<R: Rig> {
    rig: R,
    partition: Partition,
    permit: Permit,
    volts: u16,
}

impl<R: Rig> Model for Live<R> {
    ghost use Rattle.rig.specs.Powered.{Powered, IsLive};
    ghost use Rattle.std.specs.Prelude.{◌≡◌};

    ghost Value = { Powered R };

    ghost view = { λ s. record { rig = s.rig; partition = s.partition; permit = s.permit } };

    ghost invariant = { λ s. IsLive (R.state s.rig) s.partition s.permit × (s.volts ≡ (R.state s.rig).volts) };
}

/// Why a route was refused. Each hands the proven unit back.
pub enum RouteStop<R: Rig> {
    /// The rig failed.
    Rig(Proven<R>),
    /// Memory ran out.
    Memory(Proven<R>),
}

/// Why a raise was refused.
#[derive(Clone, Copy, Debug, PartialEq, Eq)]
pub enum RaiseStop {
    /// The interlock was open.
    DoorOpen,
    /// The rig failed.
    Rig,
    /// Memory ran out.
    Memory,
}

impl From<RigStop> for RaiseStop {
    ghost use Rattle.std.specs.Prelude.{◌≡◌};
    ghost use Rattle.rig.specs.Powered.{raise_stop_of};

    ghost from_gives = { λ stop raised. raised ≡ raise_stop_of stop };

    fn from(stop: RigStop) -> Self {
        match stop {
            RigStop::Failed => RaiseStop::Rig,
            RigStop::Memory => RaiseStop::Memory,
        }
    }
}

/// A rig whose source did not go to zero. Contracts see the rig.
pub struct Stuck<R: Rig> {
    rig: R,
}

impl<R: Rig> Model for Stuck<R> {
    ghost Value = { R };

    ghost view = { λ s. s.rig };
}

impl<R: Rig> Proven<R> {
    ghost use Rattle.rig.specs.Stops.{route_stop_state, route_stop_answer};

    /// Connects two groups to the source.
    ///
    /// # Errors
    ///
    /// `Rig` where the rig failed, or `Memory`; each hands the proven unit back.
    pub fn route(self, permit: Permit, a: &[Point], b: &[Point]) -> Result<Live<R>, RouteStop<R>>
        requires groups { AreGroups (R.state self.rig).points a.now b.now }
        requires permitted { Permits (R.state self.rig) permit (record { left = a.now; right = b.now }) }
        ensures call { MatchResult result
            (λ live. Routes (R.state self.rig) (R.state live.rig) a.now b.now (Ok tt))
            (λ stop. Routes (R.state self.rig) (R.state (route_stop_state stop).rig) a.now b.now (Err (route_stop_answer stop))) }
        ensures partition { MatchResult result
            (λ live. live.partition ≡ self.partition)
            (λ stop. (route_stop_state stop).partition ≡ self.partition) }
        ensures permit { IfOk result (λ live. live.permit ≡ permit) }
        ensures zero { IfOk result (λ live. (R.state live.rig).volts ≡ 0) }
    {
        let (seat, partition) = self.into_parts();
        let mut rig = seat.into_rig();
        match rig.route(a, b) {
            Ok(()) => Ok(Live {
                rig,
                partition,
                permit,
                volts: 0,
            }),
            Err(RigStop::Failed) => Err(RouteStop::Rig(Proven::around(
                Seated::around(rig),
                partition,
            ))),
            Err(RigStop::Memory) => Err(RouteStop::Memory(Proven::around(
                Seated::around(rig),
                partition,
            ))),
        }
    }
}

impl<R: Rig> Live<R> {
    /// Reads the interlock and, where it is closed, raises the voltage by 50.
    ///
    /// # Errors
    ///
    /// `DoorOpen` exactly where the interlock was open, else `Rig` where a call failed, or `Memory`. A raise that failed counts as
    /// commanded.
    pub fn step(&mut self) -> Result<(), RaiseStop>
        requires { (R.state self.old.rig).volts + 50 ≤ 2000 }
        ensures steps { Steps (R.state self.old.rig) (R.state self.new.rig) result }
        ensures partition { self.new.partition ≡ self.old.partition }
        ensures permit { self.new.permit ≡ self.old.permit }
    {
        match self.rig.interlock() {
            Ok(true) => {}
            Ok(false) => return Err(RaiseStop::DoorOpen),
            Err(RigStop::Failed) => return Err(RaiseStop::Rig),
            Err(RigStop::Memory) => return Err(RaiseStop::Memory),
        }
        let volts = self.volts + 50;
        match self.rig.raise(&self.permit, volts) {
            Ok(()) => {
                self.volts = volts;
                Ok(())
            }
            Err(RigStop::Failed) => {
                self.volts = volts;
                Err(RaiseStop::Rig)
            }
            Err(RigStop::Memory) => Err(RaiseStop::Memory),
        }
    }

    /// Whether the interlock is closed.
    ///
    /// # Errors
    ///
    /// `Failed` or `Memory`.
    pub fn door(&mut self) -> Result<bool, RigStop>
        ensures call { ReadsInterlock (R.state self.old.rig) (R.state self.new.rig) result }
        ensures partition { self.new.partition ≡ self.old.partition }
        ensures permit { self.new.permit ≡ self.old.permit }
    {
        self.rig.interlock()
    }

    /// The leak between the groups of the route.
    ///
    /// # Errors
    ///
    /// `Failed` or `Memory`.
    pub fn leak(&mut self) -> Result<Leak, RigStop>
        requires { 0 < (R.state self.old.rig).volts }
        ensures call { ReadsLeak (R.state self.old.rig) (R.state self.new.rig) result }
        ensures partition { self.new.partition ≡ self.old.partition }
        ensures permit { self.new.permit ≡ self.old.permit }
    {
        self.rig.leak()
    }

    /// Lets a tick pass.
    ///
    /// # Errors
    ///
    /// `Failed` or `Memory`; then no tick passed.
    pub fn tick(&mut self) -> Result<(), RigStop>
        ensures call { Ticks (R.state self.old.rig) (R.state self.new.rig) result }
        ensures partition { self.new.partition ≡ self.old.partition }
        ensures permit { self.new.permit ≡ self.old.permit }
    {
        self.rig.tick()
    }

    /// Brings the source to zero, by at most three commands. Takes no memory.
    ///
    /// # Errors
    ///
    /// `Stuck` exactly where three commands failed.
    pub fn down(self) -> Result<Safe<R>, Stuck<R>>
        ensures down { MatchResult result
            (λ safe. GoesDown (R.state self.rig) (R.state safe.rig))
            (λ stuck. IsStuck (R.state self.rig) (R.state stuck)) }
        ensures partition { IfOk result (λ safe. safe.partition ≡ self.partition) }
    {
        let Live {
            mut rig,
            partition,
            permit: _,
            volts: _,
        } = self;
        if lower(&mut rig) {
            Ok(Safe::around(Proven::around(Seated::around(rig), partition)))
        } else {
            Err(Stuck { rig })
        }
    }
}

impl<R: Rig> Stuck<R> {
    /// The rig, whose source may stand at a voltage.
    pub fn into_rig(self) -> R
        ensures { result ≡ self }
    {
        let Stuck { rig } = self;
        rig
    }
}

/// Whether one of at most three zero calls succeeded.
fn lower<R: Rig>(rig: &mut R) -> bool
    requires { 3 ≤ (R.state rig.old).spare }
    ensures down { result ≡ true → GoesDown (R.state rig.old) (R.state rig.new) }
    ensures stuck { result ≡ false → IsStuck (R.state rig.old) (R.state rig.new) }
{
    for _i in 0..3u8 {
        match rig.zero() {
            Ok(()) => return true,
            Err(_) => {}
        }
    }
    false
}
