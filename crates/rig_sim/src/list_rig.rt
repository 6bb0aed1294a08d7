//! A rig that may lie.

ghost use Rattle.std.specs.Prelude.{◌≡◌, ◌↔◌, ◌≤◌, ◌<◌, ◌-◌, ◌^◌, true, false, Some, None, Err, length};
ghost use Rattle.std.specs.Prelude.{IsTrue, IsOk, IsOkUnless, IfOk, OnOk, OnErr, MatchResult};
ghost use Rattle.rig.specs.declared.rig.RigStop.TheVariants.{Failed, Memory as NoMemory};
ghost use Rattle.rig.specs.declared.rig.SeatAnswer.TheVariants.{Present};
ghost use Rattle.rig.specs.declared.event.Event.TheVariants.{Route as RouteEvent, Raise, Zero};
ghost use Rattle.rig.specs.declared.event.Leak.TheVariants.{PicoSiemens};
ghost use Rattle.rig.specs.Calls.{AreGroups};
ghost use Rattle.rig.specs.Happened.{IsBelowLast, IsTold, route_after};
ghost use Rattle.rig.specs.Trail.{IsReading};
ghost use Rattle.rig_sim.specs.ListRig.{after_event, after_failure, new_list, next_answer};

use crate::fixture::Route;
use crate::log::Log;
use base::{Items, Memory};
use partition::{Point, PointList};
use rig::{Event, EventList, Leak, Permit, Rig, RigStop, SeatAnswer, TallyList};
use std::alloc::Global;
use std::marker::Model;

/// A list of truth values.
pub type Flags = Items<bool>;

/// A rig whose group readings are those of a list, one after the other, anew after the last. It tells the trail and the tallies,
/// but not what is in the fixture: every unit is there, no component, leak or charge is found, and the interlock is closed.
#[derive(Drop)]
pub struct ListRig {
    alloc: Global,
    points: u16,
    answers: Flags,
    route: Option<Route>,
    faults: u64,
    seats: u64,
    log: Log,
}

impl Model for ListRig {
    ghost use Rattle.rig_sim.specs.ListRig.{ListState};
    ghost use Rattle.rig_sim.specs.ListView.{list_state, IsListRig};

    ghost Value = { ListState };

    ghost view = { list_state };

    ghost invariant = { IsListRig };
}

impl ListRig {
    /// The rig of so many points that gives these answers, which no call was asked yet. Takes no memory.
    pub fn new(alloc: Global, points: u16, answers: Flags) -> Self
        requires some_points { 1 ≤ points }
        requires some_answers { 0 < length answers }
        ensures { result ≡ new_list points answers }
    {
        ListRig {
            alloc,
            points,
            answers,
            route: None,
            faults: 0,
            seats: 0,
            log: Log::new(alloc),
        }
    }

    /// The events since the last seat that answered. Takes no memory.
    pub fn events(&self) -> &EventList
        ensures { self.now.state.trail ≡ Some result.now.list }
    {
        self.log.trail()
    }

    /// The number of group readings. Takes no memory.
    pub fn readings(&self) -> u64
        ensures { result ≡ self.now.state.spent }
    {
        self.log.meter().spent
    }

    /// One tally for each seating. Takes no memory.
    pub fn tallies(&self) -> &TallyList
        ensures { self.now.state.tallies ≡ Some result.now }
    {
        self.log.tallies()
    }

    /// Whether the count of group readings stands at its last value. Takes no memory.
    fn is_spent(&self) -> bool
        ensures spent { IsTrue result ↔ (self.now.state.spent ≡ 2 ^ 64 - 1) }
        ensures fits { self.now.state.spent ≤ 2 ^ 64 - 1 }
    {
        self.log.meter().spent == u64::MAX
    }

    /// The answer to the next group reading. Takes no memory.
    fn answer(&self) -> bool
        ensures { next_answer self.now ≡ Some result }
    {
        let answers = self.answers.as_slice();
        let place = self.log.meter().spent % answers.len() as u64;
        answers[place as usize]
    }

    /// Counts the fault of a call. Takes no memory.
    fn fail(&mut self) -> RigStop
        ensures stop { result ≡ Failed }
        ensures rig { self.new ≡ after_failure self.old }
        ensures later { self.old.state.faults ≤ self.new.state.faults }
        ensures told { IsTold self.new.state }
    {
        self.faults = self.faults.saturating_add(1);
        RigStop::Failed
    }

    /// Records a call that leaves the route as it is.
    fn record(&mut self, event: Event) -> Result<(), Memory>
        requires seated { IsTrue self.old.state.seated }
        requires route { route_after self.old.state.route event ≡ self.old.state.route }
        requires spent { IsReading event → IsBelowLast self.old.state.spent }
        ensures lies { self.old.state.honest ≡ false }
        ensures ok { OnOk result (self.new ≡ after_event event self.old.state.spare self.old) }
        ensures err { OnErr result (self.new ≡ self.old) }
        ensures told { IsTold self.new.state }
    {
        self.log.add(event)?;
        Ok(())
    }

    /// Records a route, with room for three commands to zero.
    fn record_route(&mut self, a: &[Point], b: &[Point]) -> Result<(), Memory>
        requires seated { IsTrue self.old.state.seated }
        ensures ok { OnOk result (self.new ≡ after_event (RouteEvent a.now b.now) 3 self.old) }
        ensures err { OnErr result (self.new ≡ self.old) }
        ensures told { IsTold self.new.state }
    {
        let route = Route::new(self.alloc, a, b)?;
        let event = Event::Route(
            PointList::from_slice(self.alloc, a)?,
            PointList::from_slice(self.alloc, b)?,
        );
        self.log.add_with_room(event)?;
        self.route = Some(route);
        Ok(())
    }

    /// Records a raise, with room for three commands to zero.
    fn record_raise(&mut self, volts: u16) -> Result<(), Memory>
        requires seated { IsTrue self.old.state.seated }
        ensures room { self.old.state.spare ≤ 3 }
        ensures ok { OnOk result (self.new ≡ after_event (Raise volts true) 3 self.old) }
        ensures err { OnErr result (self.new ≡ self.old) }
        ensures told { IsTold self.new.state }
    {
        self.log.add_with_room(Event::Raise(volts, true))?;
        Ok(())
    }

    /// Records a command to zero, in the room set aside. Takes no memory.
    fn record_zero(&mut self)
        requires room { 1 ≤ self.old.state.spare }
        ensures rig { self.new ≡ after_event (Zero true) (self.old.state.spare - 1) self.old }
        ensures told { IsTold self.new.state }
    {
        self.log.add_zero(true);
    }
}

impl Rig for ListRig {
    ghost use Rattle.rig.specs.Calls.{IsReady, IsPowered, Conducts, ReadsOhms, ReadsJunction, ReadsInterlock};
    ghost use Rattle.rig.specs.Calls.{Routes, CanRaise, Raises, ReadsLeak, Zeroes, ReadsResidual, Ticks};
    ghost use Rattle.rig.specs.Seating.{Seats};

    ghost state = { λ rig. rig.state };

    fn points(&self) -> u16 {
        self.points
    }

    fn seat(&mut self, serial: &str, attempt: u8) -> Result<SeatAnswer, RigStop>
        requires { self.old.state.volts ≡ 0 }
        ensures seats { Seats self.old.state self.new.state serial.now attempt result }
        ensures present { IfOk result (λ answer. answer ≡ Present) }
        ensures fails { (result ≡ Err Failed) ↔ (self.old.state.seats ≡ 2 ^ 64 - 1) }
        ensures kept { self.new.answers ≡ self.old.answers }
    {
        self.log.unseat();
        if self.seats == u64::MAX {
            return Err(self.fail());
        }
        self.log.begin(self.alloc, serial, attempt)?;
        self.route = None;
        self.seats += 1;
        Ok(SeatAnswer::Present)
    }

    fn conducts(&mut self, a: &[Point], b: &[Point]) -> Result<bool, RigStop>
        requires ready { IsReady self.old.state }
        requires groups { AreGroups self.old.state.points a.now b.now }
        ensures conducts { Conducts self.old.state self.new.state a.now b.now result }
        ensures answer { IfOk result (λ met. next_answer self.old ≡ Some met) }
        ensures fails { (result ≡ Err Failed) ↔ (self.old.state.spent ≡ 2 ^ 64 - 1) }
        ensures kept { self.new.answers ≡ self.old.answers }
    {
        if self.is_spent() {
            return Err(self.fail());
        }
        let met = self.answer();
        let event = Event::Reading(
            PointList::from_slice(self.alloc, a)?,
            PointList::from_slice(self.alloc, b)?,
            met,
        );
        self.record(event)?;
        Ok(met)
    }

    fn ohms(&mut self, a: Point, b: Point) -> Result<Option<u64>, RigStop>
        requires ready { IsReady self.old.state }
        requires first { a < self.old.state.points }
        requires second { b < self.old.state.points }
        ensures ohms { ReadsOhms self.old.state self.new.state a b result }
        ensures answer { MatchResult result (λ ohms. ohms ≡ None) (λ stop. stop ≡ NoMemory) }
        ensures kept { self.new.answers ≡ self.old.answers }
    {
        self.record(Event::Ohms(a, b, None))?;
        Ok(None)
    }

    fn junction(&mut self, from: Point, to: Point) -> Result<Option<u32>, RigStop>
        requires ready { IsReady self.old.state }
        requires first { from < self.old.state.points }
        requires second { to < self.old.state.points }
        ensures junction { ReadsJunction self.old.state self.new.state from to result }
        ensures answer { MatchResult result (λ drop. drop ≡ None) (λ stop. stop ≡ NoMemory) }
        ensures kept { self.new.answers ≡ self.old.answers }
    {
        self.record(Event::Junction(from, to, None))?;
        Ok(None)
    }

    fn interlock(&mut self) -> Result<bool, RigStop>
        requires { IsTrue self.old.state.seated }
        ensures interlock { ReadsInterlock self.old.state self.new.state result }
        ensures answer { MatchResult result (λ closed. IsTrue closed) (λ stop. stop ≡ NoMemory) }
        ensures kept { self.new.answers ≡ self.old.answers }
    {
        self.record(Event::Door(true))?;
        Ok(true)
    }

    fn route(&mut self, a: &[Point], b: &[Point]) -> Result<(), RigStop>
        requires ready { IsReady self.old.state }
        requires groups { AreGroups self.old.state.points a.now b.now }
        ensures routes { Routes self.old.state self.new.state a.now b.now result }
        ensures memory { IsOkUnless result NoMemory }
        ensures kept { self.new.answers ≡ self.old.answers }
    {
        self.record_route(a, b)?;
        Ok(())
    }

    fn raise(&mut self, permit: &Permit, volts: u16) -> Result<(), RigStop>
        requires { CanRaise self.old.state permit.now volts }
        ensures raises { Raises self.old.state self.new.state volts result }
        ensures memory { IsOkUnless result NoMemory }
        ensures kept { self.new.answers ≡ self.old.answers }
    {
        self.record_raise(volts)?;
        Ok(())
    }

    fn leak(&mut self) -> Result<Leak, RigStop>
        requires { IsPowered self.old.state }
        ensures leak { ReadsLeak self.old.state self.new.state result }
        ensures answer { MatchResult result (λ leak. leak ≡ PicoSiemens 0) (λ stop. stop ≡ NoMemory) }
        ensures kept { self.new.answers ≡ self.old.answers }
    {
        self.record(Event::Leak(Leak::PicoSiemens(0)))?;
        Ok(Leak::PicoSiemens(0))
    }

    fn zero(&mut self) -> Result<(), RigStop>
        requires { 1 ≤ self.old.state.spare }
        ensures zero { Zeroes self.old.state self.new.state result }
        ensures done { IsOk result }
        ensures kept { self.new.answers ≡ self.old.answers }
    {
        self.record_zero();
        Ok(())
    }

    fn residual(&mut self) -> Result<u16, RigStop>
        requires { IsReady self.old.state }
        ensures residual { ReadsResidual self.old.state self.new.state result }
        ensures answer { MatchResult result (λ volts. volts ≡ 0) (λ stop. stop ≡ NoMemory) }
        ensures kept { self.new.answers ≡ self.old.answers }
    {
        self.record(Event::Residual(0))?;
        Ok(0)
    }

    fn tick(&mut self) -> Result<(), RigStop>
        requires { IsTrue self.old.state.seated }
        ensures ticks { Ticks self.old.state self.new.state result }
        ensures memory { IsOkUnless result NoMemory }
        ensures kept { self.new.answers ≡ self.old.answers }
    {
        self.record(Event::Tick)?;
        Ok(())
    }
}
