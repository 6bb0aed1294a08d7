//! What happens at a rig, and how often.

use base::{Memory, Text};
use partition::{Point, PointList};
use std::alloc::Global;
use std::marker::Model;

/// A reading of the leak between two groups.
#[derive(Clone, Copy, Debug, PartialEq, Eq)]
pub enum Leak {
    /// The groups arc.
    Arc,
    /// The conductance between them, in picosiemens.
    PicoSiemens(u64),
}

/// What a rig was asked and what it answered.
#[derive(Debug, Drop)]
pub enum Event {
    /// A group reading of two groups: true where they are joined.
    Reading(PointList, PointList, bool),
    /// Two points, and the milliohms between them.
    Ohms(Point, Point, Option<u64>),
    /// From one point to another, with the millivolts that dropped.
    Junction(Point, Point, Option<u32>),
    /// An interlock reading: true is closed.
    Door(bool),
    /// The two groups that were connected to the source.
    Route(PointList, PointList),
    /// The source was commanded to these volts: true where it did so.
    Raise(u16, bool),
    /// A reading of the leak between the groups of the route.
    Leak(Leak),
    /// The source was commanded to zero: true where it went.
    Zero(bool),
    /// The volts that were still on the unit.
    Residual(u16),
    /// A tick passed.
    Tick,
}

/// The zero calls that there is room for after a route and a raise.
const ZEROS: u16 = 3;

/// The events since the last seat that answered, the oldest first. Contracts see the list, and how many more events, of at most 3, it takes without memory.
#[derive(Debug, Drop)]
pub struct EventList {
    events: Vec<Event>,
    spare: u16,
}

impl Model for EventList {
    ghost use Rattle.std.specs.Prelude.{◌+◌, ◌≤◌, vec_len, vec_capacity};
    ghost use Rattle.rig.specs.EventRoom.{EventRoom};

    ghost Value = { EventRoom };

    ghost view = { λ l. record { list = l.events.items; spare = l.spare } };

    ghost invariant = { λ l. (vec_len l.events + l.spare ≤ vec_capacity l.events) × (l.spare ≤ 3) };
}

impl EventList {
    ghost use Rattle.std.specs.Prelude.{◌≡◌, ◌↔◌, ◌-◌, ◌≤◌, ◌++◌, ◌∷◌, [], length, IsTrue, OnOk, OnErr};

    /// The empty list.
    pub fn new(alloc: Global) -> Self
        ensures { result ≡ record { list = []; spare = 0 } }
    {
        EventList {
            events: Vec::new(alloc),
            spare: 0,
        }
    }

    /// The events, the oldest first.
    pub fn as_slice(&self) -> &[Event]
        ensures { result.now ≡ self.now.list }
    {
        self.events.as_slice()
    }

    /// The number of events.
    pub fn len(&self) -> usize
        ensures { result ≡ length self.now.list }
    {
        self.events.len()
    }

    /// Whether there is no event.
    pub fn is_empty(&self) -> bool
        ensures { IsTrue result ↔ (self.now.list ≡ []) }
    {
        self.events.is_empty()
    }

    /// Forgets all events, and keeps the room set aside.
    pub fn clear(&mut self)
        ensures { self.new ≡ record { list = []; spare = self.old.spare } }
    {
        self.events.clear();
    }

    /// Appends an event, and keeps the room set aside.
    ///
    /// # Errors
    ///
    /// `Memory` where memory ran out; the list stays as it was.
    pub fn push(&mut self, event: Event) -> Result<(), Memory>
        ensures ok { OnOk result (self.new ≡ record { list = self.old.list ++ event ∷ []; spare = self.old.spare }) }
        ensures err { OnErr result (self.new ≡ self.old) }
    {
        self.events.reserve(self.spare as usize + 1)?;
        self.events.push(event).unwrap();
        Ok(())
    }

    /// Appends an event, and sets room aside for three more.
    ///
    /// # Errors
    ///
    /// `Memory` where memory ran out; the list stays as it was.
    pub fn push_with_room(&mut self, event: Event) -> Result<(), Memory>
        ensures ok { OnOk result (self.new ≡ record { list = self.old.list ++ event ∷ []; spare = 3 }) }
        ensures err { OnErr result (self.new ≡ self.old) }
    {
        self.events.reserve(ZEROS as usize + 1)?;
        self.events.push(event).unwrap();
        self.spare = ZEROS;
        Ok(())
    }

    /// Appends an event into the room set aside. Takes no memory.
    pub fn push_into_room(&mut self, event: Event)
        requires { 1 ≤ self.old.spare }
        ensures { self.new ≡ record { list = self.old.list ++ event ∷ []; spare = self.old.spare - 1 } }
    {
        self.events.push(event).unwrap();
        self.spare -= 1;
    }
}

/// The events of one seating, counted.
#[derive(Debug, Drop)]
pub struct Tally {
    /// The serial and the attempt of the seated unit.
    pub serial: Text,
    pub attempt: u8,
    /// Group readings.
    pub readings: u64,
    /// Readings of components.
    pub probes: u64,
    /// Routes to the source.
    pub routes: u64,
    /// Raises that were done.
    pub raises: u64,
    /// Ticks at which a voltage stood.
    pub ticks: u64,
    /// Readings of leaks.
    pub leaks: u64,
}

impl Tally {
    ghost use Rattle.std.specs.Prelude.{◌≡◌};
    ghost use Rattle.rig.specs.Happened.{CanCount, tally_after};

    /// Counts an event at so many volts. Takes no memory.
    pub fn count(&mut self, event: &Event, volts: u16)
        requires { CanCount self.old }
        ensures { self.new ≡ tally_after volts event.now self.old }
    {
        match event {
            Event::Reading(_, _, _) => self.readings += 1,
            Event::Ohms(_, _, _) | Event::Junction(_, _, _) => self.probes += 1,
            Event::Route(_, _) => self.routes += 1,
            Event::Raise(_, true) => self.raises += 1,
            Event::Leak(_) => self.leaks += 1,
            Event::Tick => {
                if volts > 0 {
                    self.ticks += 1;
                }
            }
            Event::Door(_) | Event::Raise(_, false) | Event::Zero(_) | Event::Residual(_) => {}
        }
    }
}

/// One tally for each seating that found its unit, in order.
#[derive(Debug, Drop)]
pub struct TallyList {
    tallies: Vec<Tally>,
}

impl Model for TallyList {
    ghost use Rattle.std.specs.Prelude.{List};
    ghost use Rattle.rig.specs.declared.event.Tally.{Tally};

    ghost Value = { List Tally };

    ghost view = { λ l. l.tallies.items };
}

impl TallyList {
    ghost use Rattle.std.specs.Prelude.{◌≡◌, ◌↔◌, ◌++◌, ◌∷◌, [], length, IsTrue, OnOk, OnErr};
    ghost use Rattle.rig.specs.Happened.{LastCanCount, tally_after, with_last};

    /// The empty list.
    pub fn new(alloc: Global) -> Self
        ensures { result ≡ [] }
    {
        TallyList {
            tallies: Vec::new(alloc),
        }
    }

    /// The tallies, the oldest first.
    pub fn as_slice(&self) -> &[Tally]
        ensures { result.now ≡ self.now }
    {
        self.tallies.as_slice()
    }

    /// The number of tallies.
    pub fn len(&self) -> usize
        ensures { result ≡ length self.now }
    {
        self.tallies.len()
    }

    /// Whether there is no tally.
    pub fn is_empty(&self) -> bool
        ensures { IsTrue result ↔ (self.now ≡ []) }
    {
        self.tallies.is_empty()
    }

    /// Counts an event at so many volts in the last tally, if there is one. Takes no memory.
    pub fn count(&mut self, event: &Event, volts: u16)
        requires { LastCanCount self.old }
        ensures { self.new ≡ with_last (tally_after volts event.now) self.old }
    {
        let count = self.tallies.len();
        if count > 0 {
            self.tallies[count - 1].count(event, volts);
        }
    }

    /// Appends a tally.
    ///
    /// # Errors
    ///
    /// `Memory` where memory ran out; the list stays as it was.
    pub fn push(&mut self, tally: Tally) -> Result<(), Memory>
        ensures ok { OnOk result (self.new ≡ self.old ++ tally ∷ []) }
        ensures err { OnErr result (self.new ≡ self.old) }
    {
        self.tallies.push(tally)?;
        Ok(())
    }
}
