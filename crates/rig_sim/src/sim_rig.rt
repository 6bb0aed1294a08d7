//! A rig without a device.

ghost use Rattle.std.specs.Prelude.{◌≡◌, ◌⊎◌, ◌↔◌, ◌≤◌, ◌<◌, ◌-◌, ◌^◌, false, length, All, IsTrue, IfOk, IfSome, OnOk, OnErr, if◌then◌else◌};
ghost use Rattle.rig.specs.declared.rig.RigStop.TheVariants.{Failed};
ghost use Rattle.rig.specs.declared.event.Event.TheVariants.{Route as RouteEvent, Raise, Zero, Door};
ghost use Rattle.rig.specs.Calls.{AreGroups, AreJoined};
ghost use Rattle.rig.specs.Happened.{IsBelowLast, IsTold};
ghost use Rattle.rig.specs.Joins.{IsRowBelow};
ghost use Rattle.rig.specs.Source.{source_of, residual_of};
ghost use Rattle.rig.specs.Trail.{IsReading};
ghost use Rattle.rig.specs.Values.{ohms_of, junction_of, leak_of, charge_of as charge_in_rows};
ghost use Rattle.harness.specs.Rows.{ElementInRange};
ghost use Rattle.rig_sim.specs.Counters.{IsNext, next_count};
ghost use Rattle.rig_sim.specs.SimRig.{IsPlainEvent, failed_once, more_faults, with_call, with_command};

use crate::counter::Counter;
use crate::fixture::{Route, charge_of, find_unit, junction, leak, meets, ohms};
use crate::log::Log;
use base::Memory;
use harness::{Harness, HarnessRefusal, join};
use partition::{Partition, Point, PointList};
use rig::{Event, EventList, Leak, Permit, Rig, RigStop, Row, SeatAnswer, TallyList, Units};
use std::alloc::Global;
use std::marker::Model;

/// A rig that answers as its harness file says. It is honest and tells its units, the seated unit's rows, the trail and the
/// tallies. Its units do not move.
#[derive(Drop)]
pub struct SimRig {
    alloc: Global,
    points: u16,
    units: Units,
    place: Option<usize>,
    classes: Partition,
    route: Option<Route>,
    calls: Counter,
    doors: Counter,
    faults: u64,
    seats: u64,
    log: Log,
}

impl Model for SimRig {
    ghost use Rattle.rig_sim.specs.SimRig.{SimState};
    ghost use Rattle.rig_sim.specs.SimView.{sim_state, IsSim};

    ghost Value = { SimState };

    ghost view = { sim_state };

    ghost invariant = { IsSim };
}

impl SimRig {
    ghost use Rattle.std.specs.Prelude.{List, Some, IfErr};
    ghost use Rattle.harness.specs.declared.row.HarnessRow.{HarnessRow};
    ghost use Rattle.harness.specs.Harness.{IsHarness, IsRefused, IsOfRows, IsSound};
    ghost use Rattle.rig_sim.specs.SimRig.{IsNew, HasSmallConductance};

    /// The rig of a harness file, which no call was asked yet.
    ///
    /// # Errors
    ///
    /// The first refusal that the format gives, or `Memory` where memory ran out.
    pub fn read(alloc: Global, bytes: &[u8]) -> Result<Self, HarnessRefusal>
        ensures file { IfOk result (λ sim. (rows : List HarnessRow) × IsHarness bytes.now rows × IsNew rows sim) }
        ensures small { IfOk result (λ sim. IfSome sim.state.units (All (HasSmallConductance sim.state.points))) }
        ensures refused { IfErr result (λ refusal. (refusal ≡ HarnessRefusal.Memory) ⊎ IsRefused bytes.now refusal) }
    {
        let harness = Harness::read(alloc, bytes)?;
        Ok(Self::of_harness(alloc, harness)?)
    }

    /// The rig of a harness, which no call was asked yet.
    pub fn of_harness(alloc: Global, harness: Harness) -> Result<Self, Memory>
        requires { IsSound harness }
        ensures rows { IfOk result (λ sim. (rows : List HarnessRow) → IsOfRows rows harness → IsNew rows sim) }
        ensures small { IfOk result (λ sim. IfSome sim.state.units (All (HasSmallConductance sim.state.points))) }
    {
        let Harness {
            points,
            faults,
            doors,
            units,
        } = harness;
        Ok(SimRig {
            alloc,
            points,
            units,
            place: None,
            classes: Partition::singles(alloc, points)?,
            route: None,
            calls: Counter::new(faults),
            doors: Counter::new(doors),
            faults: 0,
            seats: 0,
            log: Log::new(alloc),
        })
    }

    /// The events since the last seat that answered. Takes no memory.
    pub fn events(&self) -> &EventList
        ensures { self.now.state.trail ≡ Some result.now.list }
    {
        self.log.trail()
    }

    /// The number of group readings. Takes no memory.
    pub fn readings(&self) -> u64
        ensures { result ≡ self.now.state.spent }
    {
        self.log.meter().spent
    }

    /// One tally for each seating that found its unit. Takes no memory.
    pub fn tallies(&self) -> &TallyList
        ensures { self.now.state.tallies ≡ Some result.now }
    {
        self.log.tallies()
    }

    /// Whether the next call fails by its number. Takes no memory.
    fn fails(&self) -> bool
        ensures fails { IsTrue result ↔ IsNext self.now.calls }
        ensures told { IsTold self.now.state }
    {
        self.calls.is_next()
    }

    /// Whether the count of group readings stands at its last value. Takes no memory.
    fn is_spent(&self) -> bool
        ensures spent { IsTrue result ↔ (self.now.state.spent ≡ 2 ^ 64 - 1) }
        ensures fits { self.now.state.spent ≤ 2 ^ 64 - 1 }
    {
        self.log.meter().spent == u64::MAX
    }

    /// Counts a call that failed, and its fault. Takes no memory.
    fn fail(&mut self) -> RigStop
        requires { IsNext self.old.calls ⊎ ((self.old.state.spent ≡ 2 ^ 64 - 1) ⊎ (self.old.state.seats ≡ 2 ^ 64 - 1)) }
        ensures stop { result ≡ Failed }
        ensures sim { self.new ≡ failed_once self.old }
        ensures later { self.old.state.faults ≤ self.new.state.faults }
        ensures told { IsTold self.new.state }
    {
        self.calls.count();
        self.faults = self.faults.saturating_add(1);
        RigStop::Failed
    }

    /// Records a reading or a tick.
    fn record(&mut self, event: Event) -> Result<(), Memory>
        requires seated { IsTrue self.old.state.seated }
        requires plain { IsPlainEvent event }
        requires spent { IsReading event → IsBelowLast self.old.state.spent }
        ensures ok { OnOk result (self.new ≡ with_call event self.old.state.spare self.old) }
        ensures err { OnErr result (self.new ≡ self.old) }
        ensures told { IsTold self.new.state }
    {
        self.log.add(event)?;
        self.calls.count();
        Ok(())
    }

    /// Records a reading of the interlock, which is open where its number is listed.
    fn record_door(&mut self) -> Result<bool, Memory>
        requires { IsTrue self.old.state.seated }
        ensures ok { IfOk result (λ closed. self.new ≡ record (with_call (Door closed) self.old.state.spare self.old) { doors = next_count self.old.doors }) }
        ensures open { IfOk result (λ closed. (closed ≡ false) ↔ IsNext self.old.doors) }
        ensures err { OnErr result (self.new ≡ self.old) }
        ensures told { IsTold self.new.state }
    {
        let closed = !self.doors.is_next();
        self.log.add(Event::Door(closed))?;
        self.calls.count();
        self.doors.count();
        Ok(closed)
    }

    /// Records a route, with room for three commands to zero.
    fn record_route(&mut self, a: &[Point], b: &[Point]) -> Result<(), Memory>
        requires seated { IsTrue self.old.state.seated }
        requires groups { AreGroups self.old.state.points a.now b.now }
        ensures ok { OnOk result (self.new ≡ with_call (RouteEvent a.now b.now) 3 self.old) }
        ensures err { OnErr result (self.new ≡ self.old) }
        ensures told { IsTold self.new.state }
    {
        let route = Route::new(self.alloc, a, b)?;
        let event = Event::Route(
            PointList::from_slice(self.alloc, a)?,
            PointList::from_slice(self.alloc, b)?,
        );
        self.log.add_with_room(event)?;
        self.route = Some(route);
        self.calls.count();
        Ok(())
    }

    /// Records a raise, with room for three commands to zero. One that failed is a fault.
    fn record_raise(&mut self, volts: u16, done: bool) -> Result<(), Memory>
        requires seated { IsTrue self.old.state.seated }
        requires failed { done ≡ false → IsNext self.old.calls }
        ensures room { self.old.state.spare ≤ 3 }
        ensures ok { OnOk result (self.new ≡ with_command (Raise volts done) 3 done self.old) }
        ensures err { OnErr result (self.new ≡ self.old) }
        ensures later { self.old.state.faults ≤ self.new.state.faults }
        ensures told { IsTold self.new.state }
    {
        self.log.add_with_room(Event::Raise(volts, done))?;
        self.faults = faults_after(self.faults, done);
        self.calls.count();
        Ok(())
    }

    /// Records a command to zero, in the room set aside. One that failed is a fault. Takes no memory.
    fn record_zero(&mut self, done: bool)
        requires room { 1 ≤ self.old.state.spare }
        requires failed { done ≡ false → IsNext self.old.calls }
        ensures sim { self.new ≡ with_command (Zero done) (self.old.state.spare - 1) done self.old }
        ensures later { self.old.state.faults ≤ self.new.state.faults }
        ensures told { IsTold self.new.state }
    {
        self.log.add_zero(done);
        self.faults = faults_after(self.faults, done);
        self.calls.count();
    }

    /// The rows of the unit in the fixture; none before the first.
    fn rows(&self) -> &[Row]
        ensures truth { IfSome self.now.state.truth (λ rows. result.now ≡ rows) }
        ensures below { All (IsRowBelow self.now.state.points) result.now }
        ensures in_range { All ElementInRange result.now }
        ensures few { length result.now ≤ 200000 }
    {
        match self.place {
            Some(place) => self.units.as_slice()[place].rows.as_slice(),
            None => &[],
        }
    }

    /// Whether some point of the one group is joined with some point of the other.
    fn read_groups(&self, a: &[Point], b: &[Point]) -> Result<bool, Memory>
        requires { AreGroups self.now.state.points a.now b.now }
        ensures { IfOk result (λ met. IfSome self.now.state.truth (λ rows. IsTrue met ↔ AreJoined rows a.now b.now)) }
    {
        meets(self.alloc, &self.classes, a, b)
    }

    /// The resistor between two points.
    fn read_ohms(&self, a: Point, b: Point) -> Option<u64>
        requires a { a < self.now.state.points }
        requires b { b < self.now.state.points }
        ensures { IfSome self.now.state.truth (λ rows. result ≡ ohms_of rows self.now.state.points a b) }
    {
        ohms(&self.classes, self.rows(), a, b)
    }

    /// The diode from one point to another.
    fn read_junction(&self, from: Point, to: Point) -> Option<u32>
        requires from { from < self.now.state.points }
        requires to { to < self.now.state.points }
        ensures { IfSome self.now.state.truth (λ rows. result ≡ junction_of rows self.now.state.points from to) }
    {
        junction(&self.classes, self.rows(), from, to)
    }

    /// The leak between the groups of the route, at the volts that stand.
    fn read_leak(&self) -> Result<Leak, Memory>
        ensures { let now = self.now.state in
            IfOk result (λ leak. IfSome now.truth (λ rows. IfSome now.route (λ groups.
            leak ≡ leak_of rows now.points groups.left groups.right now.volts))) }
    {
        match &self.route {
            Some(route) => {
                let volts = self.log.meter().volts;
                leak(self.alloc, &self.classes, self.rows(), route, volts)
            }
            None => Ok(Leak::PicoSiemens(0)),
        }
    }

    /// The volts that are still on the unit.
    fn read_residual(&self) -> u16
        ensures { IfSome self.now.state.truth (λ rows. IfSome self.now.state.trail (λ trail. result ≡ residual_of (charge_in_rows rows) (source_of trail))) }
    {
        self.log.residual(charge_of(self.rows()))
    }
}

/// The count of faults after a command that was done or failed.
fn faults_after(faults: u64, done: bool) -> u64
    ensures { result ≡ (if done then faults else more_faults faults) }
{
    if done {
        faults
    } else {
        faults.saturating_add(1)
    }
}

impl Rig for SimRig {
    ghost use Rattle.std.specs.Prelude.{◌≡◌};
    ghost use Rattle.std.specs.Result.{result_err};
    ghost use Rattle.rig.specs.Calls.{IsReady, IsPowered, Conducts, ReadsOhms, ReadsJunction, ReadsInterlock};
    ghost use Rattle.rig.specs.Calls.{Routes, CanRaise, Raises, ReadsLeak, Zeroes, ReadsResidual, Ticks};
    ghost use Rattle.rig.specs.Seating.{Seats};
    ghost use Rattle.rig_sim.specs.SimRig.{Counts, CountsDoor};

    ghost state = { λ sim. sim.state };

    fn points(&self) -> u16 {
        self.points
    }

    fn seat(&mut self, serial: &str, attempt: u8) -> Result<SeatAnswer, RigStop>
        requires { self.old.state.volts ≡ 0 }
        ensures seats { Seats self.old.state self.new.state serial.now attempt result }
        ensures counts { Counts self.old self.new (self.old.state.seats ≡ 2 ^ 64 - 1) (result_err result) }
    {
        self.log.unseat();
        if self.calls.is_next() || self.seats == u64::MAX {
            self.seats = self.seats.saturating_add(1);
            return Err(self.fail());
        }
        let Some((place, unit)) = find_unit(&self.units, serial, attempt) else {
            self.log.end();
            self.route = None;
            self.seats += 1;
            self.calls.count();
            return Ok(SeatAnswer::Absent);
        };
        let classes = join(self.alloc, self.points, unit.rows.as_slice())?;
        self.log.begin(self.alloc, serial, attempt)?;
        self.classes = classes;
        self.place = Some(place);
        self.route = None;
        self.seats += 1;
        self.calls.count();
        Ok(SeatAnswer::Present)
    }

    fn conducts(&mut self, a: &[Point], b: &[Point]) -> Result<bool, RigStop>
        requires ready { IsReady self.old.state }
        requires groups { AreGroups self.old.state.points a.now b.now }
        ensures conducts { Conducts self.old.state self.new.state a.now b.now result }
        ensures counts { Counts self.old self.new (self.old.state.spent ≡ 2 ^ 64 - 1) (result_err result) }
    {
        if self.is_spent() || self.fails() {
            return Err(self.fail());
        }
        let met = self.read_groups(a, b)?;
        let event = Event::Reading(
            PointList::from_slice(self.alloc, a)?,
            PointList::from_slice(self.alloc, b)?,
            met,
        );
        self.record(event)?;
        Ok(met)
    }

    fn ohms(&mut self, a: Point, b: Point) -> Result<Option<u64>, RigStop>
        requires ready { IsReady self.old.state }
        requires first { a < self.old.state.points }
        requires second { b < self.old.state.points }
        ensures ohms { ReadsOhms self.old.state self.new.state a b result }
        ensures counts { Counts self.old self.new ⊥ (result_err result) }
    {
        if self.fails() {
            return Err(self.fail());
        }
        let ohms = self.read_ohms(a, b);
        self.record(Event::Ohms(a, b, ohms))?;
        Ok(ohms)
    }

    fn junction(&mut self, from: Point, to: Point) -> Result<Option<u32>, RigStop>
        requires ready { IsReady self.old.state }
        requires first { from < self.old.state.points }
        requires second { to < self.old.state.points }
        ensures junction { ReadsJunction self.old.state self.new.state from to result }
        ensures counts { Counts self.old self.new ⊥ (result_err result) }
    {
        if self.fails() {
            return Err(self.fail());
        }
        let drop = self.read_junction(from, to);
        self.record(Event::Junction(from, to, drop))?;
        Ok(drop)
    }

    fn interlock(&mut self) -> Result<bool, RigStop>
        requires { IsTrue self.old.state.seated }
        ensures interlock { ReadsInterlock self.old.state self.new.state result }
        ensures counts { Counts self.old self.new ⊥ (result_err result) }
        ensures door { CountsDoor self.old self.new result }
    {
        if self.fails() {
            return Err(self.fail());
        }
        Ok(self.record_door()?)
    }

    fn route(&mut self, a: &[Point], b: &[Point]) -> Result<(), RigStop>
        requires ready { IsReady self.old.state }
        requires groups { AreGroups self.old.state.points a.now b.now }
        ensures routes { Routes self.old.state self.new.state a.now b.now result }
        ensures counts { Counts self.old self.new ⊥ (result_err result) }
    {
        if self.fails() {
            return Err(self.fail());
        }
        self.record_route(a, b)?;
        Ok(())
    }

    fn raise(&mut self, permit: &Permit, volts: u16) -> Result<(), RigStop>
        requires { CanRaise self.old.state permit.now volts }
        ensures raises { Raises self.old.state self.new.state volts result }
        ensures counts { Counts self.old self.new ⊥ (result_err result) }
    {
        let fails = self.fails();
        self.record_raise(volts, !fails)?;
        if fails { Err(RigStop::Failed) } else { Ok(()) }
    }

    fn leak(&mut self) -> Result<Leak, RigStop>
        requires { IsPowered self.old.state }
        ensures leak { ReadsLeak self.old.state self.new.state result }
        ensures counts { Counts self.old self.new ⊥ (result_err result) }
    {
        if self.fails() {
            return Err(self.fail());
        }
        let leak = self.read_leak()?;
        self.record(Event::Leak(leak))?;
        Ok(leak)
    }

    fn zero(&mut self) -> Result<(), RigStop>
        requires { 1 ≤ self.old.state.spare }
        ensures zero { Zeroes self.old.state self.new.state result }
        ensures counts { Counts self.old self.new ⊥ (result_err result) }
    {
        let fails = self.fails();
        self.record_zero(!fails);
        if fails { Err(RigStop::Failed) } else { Ok(()) }
    }

    fn residual(&mut self) -> Result<u16, RigStop>
        requires { IsReady self.old.state }
        ensures residual { ReadsResidual self.old.state self.new.state result }
        ensures counts { Counts self.old self.new ⊥ (result_err result) }
    {
        if self.fails() {
            return Err(self.fail());
        }
        let volts = self.read_residual();
        self.record(Event::Residual(volts))?;
        Ok(volts)
    }

    fn tick(&mut self) -> Result<(), RigStop>
        requires { IsTrue self.old.state.seated }
        ensures ticks { Ticks self.old.state self.new.state result }
        ensures counts { Counts self.old self.new ⊥ (result_err result) }
    {
        if self.fails() {
            return Err(self.fail());
        }
        self.record(Event::Tick)?;
        Ok(())
    }
}
