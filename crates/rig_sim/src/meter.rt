//! What the events of a rig count.

ghost use Rattle.std.specs.Prelude.{◌≡◌, false};
ghost use Rattle.rig_sim.specs.Meters.{CanMeter, meter_after};

use rig::Event;

/// What the events so far come to.
#[derive(Clone, Copy, Debug)]
pub(crate) struct Meter {
    /// Group readings.
    pub spent: u64,
    /// Interlock readings that were open.
    pub opens: u64,
    /// The last commanded volts.
    pub volts: u16,
    /// Whether the interlock was read closed, with no tick since.
    pub closed_now: bool,
    /// Whether a raise stands in the trail.
    pub raised: bool,
    /// The ticks since the last zero that was done, or since the seat that answered.
    pub ticks: u64,
}

impl Meter {
    /// Nothing so far.
    pub(crate) fn new() -> Self
        ensures { result ≡ record { spent = 0; opens = 0; volts = 0; closed_now = false; raised = false; ticks = 0 } }
    {
        Meter {
            spent: 0,
            opens: 0,
            volts: 0,
            closed_now: false,
            raised: false,
            ticks: 0,
        }
    }

    /// Begins another trail: no raise and no tick, and the interlock was not read. Takes no memory.
    pub(crate) fn restart(&mut self)
        ensures { self.new ≡ record self.old { closed_now = false; raised = false; ticks = 0 } }
    {
        self.closed_now = false;
        self.raised = false;
        self.ticks = 0;
    }

    /// Counts an event. Takes no memory.
    pub(crate) fn count(&mut self, event: &Event)
        requires { CanMeter self.old event.now }
        ensures { self.new ≡ meter_after event.now self.old }
    {
        match event {
            Event::Reading(_, _, _) => self.spent += 1,
            Event::Door(true) => self.closed_now = true,
            Event::Door(false) => {
                self.closed_now = false;
                self.opens = self.opens.saturating_add(1);
            }
            Event::Raise(volts, _) => {
                self.volts = *volts;
                self.raised = true;
            }
            Event::Zero(true) => {
                self.volts = 0;
                self.ticks = 0;
            }
            Event::Tick => {
                self.closed_now = false;
                self.ticks += 1;
            }
            Event::Ohms(_, _, _)
            | Event::Junction(_, _, _)
            | Event::Route(_, _)
            | Event::Leak(_)
            | Event::Zero(false)
            | Event::Residual(_) => {}
        }
    }
}
