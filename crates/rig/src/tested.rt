//! What the readings so far have shown of the seated unit.

ghost use Rattle.std.specs.Prelude.{◌≡◌, ◌<◌, ◌≤◌, IfOk};
ghost use Rattle.std.specs.Result.{result_err};
ghost use Rattle.rig.specs.Calls.{AreGroups, Conducts, ReadsOhms, ReadsJunction, ReadsResidual, Ticks};
ghost use Rattle.partition.specs.Partitions.{JoinsAllOf};
ghost use Rattle.rig.specs.Readings.{Reads, Teaches};
ghost use Rattle.rig.specs.Seating.{IsSeating};
ghost use Rattle.rig.specs.States.{IsOfRig, IsProven};
ghost use Rattle.rig.specs.Trail.{Forces, Determines};

use crate::{Permit, Rig, RigStop, Seated};
use base::Memory;
use partition::{Partition, Point};
use std::alloc::Global;
use std::marker::Model;

/// A seated unit in which all is joined that the partition joins. Contracts see the rig and the partition.
pub struct Continuous<R: Rig> {
    seat: Seated<R>,
    programmed: Partition,
}

impl<R: Rig> Model for Continuous<R> {
    ghost use Rattle.rig.specs.States.{Tested, IsContinuous};

    ghost Value = { Tested R };

    ghost view = { λ s. record { rig = s.seat; partition = s.programmed } };

    ghost invariant = { λ s. IsContinuous (R.state s.seat) s.programmed };
}

/// A seated unit whose partition is known. Contracts see the rig and the partition.
pub struct Proven<R: Rig> {
    seat: Seated<R>,
    partition: Partition,
}

impl<R: Rig> Model for Proven<R> {
    ghost use Rattle.rig.specs.States.{Tested, IsProven};

    ghost Value = { Tested R };

    ghost view = { λ s. record { rig = s.seat; partition = s.partition } };

    ghost invariant = { λ s. IsProven (R.state s.seat) s.partition };
}

impl<R: Rig> Continuous<R> {
    /// Whether some point of the one group is joined with some point of the other: one group reading.
    ///
    /// # Errors
    ///
    /// `Failed` or `Memory`.
    pub fn conducts(&mut self, a: &[Point], b: &[Point]) -> Result<bool, RigStop>
        requires { AreGroups (R.state self.old.rig).points a.now b.now }
        ensures call { Conducts (R.state self.old.rig) (R.state self.new.rig) a.now b.now result }
        ensures reads { Reads (R.state self.old.rig) (R.state self.new.rig) (result_err result) }
        ensures teaches { IfOk result (Teaches (R.state self.old.rig) (R.state self.new.rig) a.now b.now) }
        ensures same { self.new.partition ≡ self.old.partition }
    {
        self.seat.conducts(a, b)
    }

    /// The partition all of whose joins the readings so far force.
    pub fn programmed(&self) -> &Partition
        ensures same { result.now ≡ self.now.partition }
        ensures partition { IsOfRig (R.state self.now.rig) result.now }
        ensures forces { Forces (R.state self.now.rig) result.now }
    {
        &self.programmed
    }
}

impl<R: Rig> Seated<R> {
    /// The readings so far have shown that all is joined that the programmed partition joins.
    pub fn continuous(self, programmed: Partition) -> Continuous<R>
        requires partition { IsOfRig (R.state self) programmed }
        requires forces { Forces (R.state self) programmed }
        ensures rig { result.rig ≡ self }
        ensures partition { result.partition ≡ programmed }
    {
        Continuous {
            seat: self,
            programmed,
        }
    }
}

impl<R: Rig> Continuous<R> {
    /// The readings so far have shown that nothing else is joined.
    pub fn proven(self) -> Proven<R>
        requires { Determines (R.state self.rig) self.partition }
        ensures same { result ≡ self }
        ensures seating { IsSeating (R.state result.rig) }
    {
        let Continuous { seat, programmed } = self;
        Proven {
            seat,
            partition: programmed,
        }
    }

    /// The seated unit, with its readings so far.
    pub fn back(self) -> Seated<R>
        ensures { result ≡ self.rig }
    {
        let Continuous {
            seat,
            programmed: _,
        } = self;
        seat
    }

    /// The number of points of the rig.
    pub fn points(&self) -> u16
        ensures points { result ≡ (R.state self.now.rig).points }
        ensures some { 1 ≤ result }
    {
        self.seat.points()
    }
}

impl<R: Rig> Proven<R> {
    /// The milliohms between two points: 0 where they are joined, none where no resistor lies between their classes.
    ///
    /// # Errors
    ///
    /// `Failed` or `Memory`.
    pub fn ohms(&mut self, a: Point, b: Point) -> Result<Option<u64>, RigStop>
        requires first { a < (R.state self.old.rig).points }
        requires second { b < (R.state self.old.rig).points }
        ensures call { ReadsOhms (R.state self.old.rig) (R.state self.new.rig) a b result }
        ensures same { self.new.partition ≡ self.old.partition }
    {
        self.seat.ohms(a, b)
    }

    /// The millivolts from one point to another: 0 where they are joined, none where no diode leads from the one class to the other.
    ///
    /// # Errors
    ///
    /// `Failed` or `Memory`.
    pub fn junction(&mut self, from: Point, to: Point) -> Result<Option<u32>, RigStop>
        requires first { from < (R.state self.old.rig).points }
        requires second { to < (R.state self.old.rig).points }
        ensures call { ReadsJunction (R.state self.old.rig) (R.state self.new.rig) from to result }
        ensures same { self.new.partition ≡ self.old.partition }
    {
        self.seat.junction(from, to)
    }

    /// The leave to raise a voltage in this seating, between groups that no class of the bonds meets both of.
    ///
    /// # Errors
    ///
    /// `Memory` where memory ran out.
    pub fn permit(&self, alloc: Global, bonds: &Partition) -> Result<Permit, Memory>
        requires { JoinsAllOf bonds.now self.now.partition }
        ensures { IfOk result (λ permit. permit ≡
            record { seat = (R.state self.now.rig).seats; partition = self.now.partition; bonds = bonds.now }) }
    {
        let partition = self.partition.copy(alloc)?;
        let bonds = bonds.copy(alloc)?;
        Ok(Permit::new(self.seat.number(), partition, bonds))
    }

    /// The volts that are still on the unit.
    pub(crate) fn residual(&mut self) -> Result<u16, RigStop>
        ensures call { ReadsResidual (R.state self.old.rig) (R.state self.new.rig) result }
        ensures same { self.new.partition ≡ self.old.partition }
    {
        self.seat.residual()
    }

    /// Lets a tick pass.
    pub(crate) fn tick(&mut self) -> Result<(), RigStop>
        ensures call { Ticks (R.state self.old.rig) (R.state self.new.rig) result }
        ensures same { self.new.partition ≡ self.old.partition }
    {
        self.seat.tick()
    }

    /// A proven unit, without voltage.
    pub(crate) fn around(seat: Seated<R>, partition: Partition) -> Proven<R>
        requires { IsProven (R.state seat) partition }
        ensures { result ≡ record { rig = seat; partition = partition } }
    {
        Proven { seat, partition }
    }

    /// The seated unit and its partition.
    pub(crate) fn into_parts(self) -> (Seated<R>, Partition)
        ensures rig { result.0 ≡ self.rig }
        ensures partition { result.1 ≡ self.partition }
        ensures proven { IsProven (R.state self.rig) self.partition }
    {
        let Proven { seat, partition } = self;
        (seat, partition)
    }

    /// The partition of the seated unit, which the readings so far determine.
    pub fn partition(&self) -> &Partition
        ensures same { result.now ≡ self.now.partition }
        ensures partition { IsOfRig (R.state self.now.rig) result.now }
        ensures determines { Determines (R.state self.now.rig) result.now }
    {
        &self.partition
    }

    /// The number of points of the rig.
    pub fn points(&self) -> u16
        ensures points { result ≡ (R.state self.now.rig).points }
        ensures some { 1 ≤ result }
        ensures seating { IsSeating (R.state self.now.rig) }
    {
        self.seat.points()
    }

    /// The seated unit, with its readings so far.
    pub fn back(self) -> Seated<R>
        ensures { result ≡ self.rig }
    {
        let Proven { seat, partition: _ } = self;
        seat
    }
}
