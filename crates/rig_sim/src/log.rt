//! What is recorded of the calls of a rig.

ghost use Rattle.std.specs.Prelude.{◌≡◌, ◌≤◌, ◌<◌, ◌-◌, ◌++◌, ◌∷◌, [], length, true, false, OnOk, OnErr};
ghost use Rattle.rig.specs.declared.event.Event.TheVariants.{Zero};
ghost use Rattle.rig.specs.Happened.{IsBelowLast, tally_after, with_last};
ghost use Rattle.rig.specs.Seating.{empty_tally};
ghost use Rattle.rig.specs.Source.{source_of, residual_of};
ghost use Rattle.rig.specs.Trail.{IsReading};
ghost use Rattle.rig_sim.specs.Meters.{meter_after};
ghost use Rattle.rig_sim.specs.Logs.{no_log, begun, with_event, CanAdd, LastWithin, last_event};

use crate::meter::Meter;
use base::{Memory, Text};
use rig::{Event, EventList, Tally, TallyList};
use std::alloc::Global;
use std::marker::Model;

/// The events since the last seat that answered, and what they come to. Contracts see all of it.
#[derive(Drop)]
pub(crate) struct Log {
    seated: bool,
    trail: EventList,
    tallies: TallyList,
    meter: Meter,
}

impl Model for Log {
    ghost use Rattle.rig_sim.specs.Logs.{Logged, IsLog};

    ghost Value = { Logged };

    ghost view = { λ l. record { seated = l.seated; trail = l.trail; tallies = l.tallies; meter = l.meter } };

    ghost invariant = { λ l. IsLog (record { seated = l.seated; trail = l.trail; tallies = l.tallies; meter = l.meter }) };
}

impl Log {
    /// Nothing recorded.
    pub(crate) fn new(alloc: Global) -> Self
        ensures { result ≡ no_log }
    {
        Log {
            seated: false,
            trail: EventList::new(alloc),
            tallies: TallyList::new(alloc),
            meter: Meter::new(),
        }
    }

    pub(crate) fn is_seated(&self) -> bool
        ensures { result ≡ self.now.seated }
    {
        self.seated
    }

    pub(crate) fn trail(&self) -> &EventList
        ensures { result.now ≡ self.now.trail }
    {
        &self.trail
    }

    pub(crate) fn tallies(&self) -> &TallyList
        ensures { result.now ≡ self.now.tallies }
    {
        &self.tallies
    }

    pub(crate) fn meter(&self) -> Meter
        ensures { result ≡ self.now.meter }
    {
        self.meter
    }

    /// Leaves no unit seated.
    pub(crate) fn unseat(&mut self)
        ensures { self.new ≡ record self.old { seated = false } }
    {
        self.seated = false;
    }

    /// Begins the trail of no unit.
    pub(crate) fn end(&mut self)
        ensures { self.new ≡ begun false self.old }
    {
        self.seated = false;
        self.trail.clear();
        self.meter.restart();
    }

    /// Begins the trail of a unit, with a tally that has counted nothing.
    pub(crate) fn begin(&mut self, alloc: Global, serial: &str, attempt: u8) -> Result<(), Memory>
        ensures ok { OnOk result (self.new ≡ begun true (record self.old { tallies = self.old.tallies ++ empty_tally serial.now attempt ∷ [] })) }
        ensures err { OnErr result (self.new ≡ self.old) }
    {
        let serial = Text::from_text(alloc, serial)?;
        self.tallies.push(Tally {
            serial,
            attempt,
            readings: 0,
            probes: 0,
            routes: 0,
            raises: 0,
            ticks: 0,
            leaks: 0,
        })?;
        self.seated = true;
        self.trail.clear();
        self.meter.restart();
        Ok(())
    }

    /// The volts that a charge, of so many volts for so many ticks, leaves on the unit.
    pub(crate) fn residual(&self, charge: Option<(u16, u16)>) -> u16
        ensures { result ≡ residual_of charge (source_of self.now.trail.list) }
    {
        match charge {
            Some((volts, ticks)) if self.meter.raised && self.meter.ticks < ticks as u64 => volts,
            _ => 0,
        }
    }

    /// Adds an event, and keeps the room set aside.
    pub(crate) fn add(&mut self, event: Event) -> Result<(), Memory>
        requires { CanAdd self.old event }
        ensures ok { OnOk result (self.new ≡ with_event event self.old.trail.spare self.old) }
        ensures err { OnErr result (self.new ≡ self.old) }
    {
        self.trail.push(event)?;
        count_last(&self.trail, &mut self.tallies, &mut self.meter);
        Ok(())
    }

    /// Adds an event, and sets room aside for three more.
    pub(crate) fn add_with_room(&mut self, event: Event) -> Result<(), Memory>
        requires { CanAdd self.old event }
        ensures ok { OnOk result (self.new ≡ with_event event 3 self.old) }
        ensures err { OnErr result (self.new ≡ self.old) }
    {
        self.trail.push_with_room(event)?;
        count_last(&self.trail, &mut self.tallies, &mut self.meter);
        Ok(())
    }

    /// Adds a command to zero, into the room set aside. Takes no memory.
    pub(crate) fn add_zero(&mut self, done: bool)
        requires { 1 ≤ self.old.trail.spare }
        ensures { self.new ≡ with_event (Zero done) (self.old.trail.spare - 1) self.old }
    {
        self.meter.count(&Event::Zero(done));
        self.trail.push_into_room(Event::Zero(done));
    }
}

/// Counts the last event of a trail, in the last tally and in the meter. Takes no memory.
fn count_last(trail: &EventList, tallies: &mut TallyList, meter: &mut Meter)
    requires some { 0 < length trail.now.list }
    requires tallied { LastWithin (length trail.now.list - 1) tallies.old }
    requires ticks { meter.old.ticks ≤ length trail.now.list - 1 }
    requires spent { IsReading (last_event trail.now.list) → IsBelowLast meter.old.spent }
    ensures tallies { tallies.new ≡ with_last (tally_after meter.old.volts (last_event trail.now.list)) tallies.old }
    ensures meter { meter.new ≡ meter_after (last_event trail.now.list) meter.old }
{
    let place = trail.len() - 1;
    let event = &trail.as_slice()[place];
    tallies.count(event, meter.volts);
    meter.count(event);
}
