//! A unit under high voltage, led call by call, and the trail that the calls leave.

ghost use Rattle.std.specs.Prelude.{◌≡◌, ◌∷◌, [], IfOk, length, true};
ghost use Rattle.partition.specs.Partitions.{Meets};

use crate::unit::{Ended, harness, program, prove};
use partition::{Partition, Point, PointList};
use rig::{DischargeStop, Event, Leak, Live, Proven, RaiseStop, RouteStop, Safe};
use rig_sim::SimRig;
use std::alloc::Global;
use std::test::Fail;

/// Whether no point of the first net is joined with a point of the second.
fn are_apart(classes: &Partition) -> bool
    requires { length classes.now ≡ 5 }
    ensures { result ≡ true → Meets classes.now (0 ∷ 1 ∷ []) (2 ∷ 3 ∷ []) → ⊥ }
{
    let first = classes.class_of(Point(0));
    let second = classes.class_of(Point(1));
    let third = classes.class_of(Point(2));
    let fourth = classes.class_of(Point(3));
    first != third && first != fourth && second != third && second != fourth
}

/// The unit between the ends of the source, one net at each.
fn routed(alloc: Global, proven: Proven<SimRig>) -> Result<Live<SimRig>, Ended>
    ensures { IfOk result (λ live. live.rig.state.volts ≡ 0) }
{
    let bonds = match proven.partition().copy(alloc) {
        Ok(bonds) => bonds,
        Err(_) => return Err(unrouted("memory", proven)),
    };
    if proven.points() != 5 || !are_apart(&bonds) {
        return Err(unrouted("wiring", proven));
    }
    let permit = match proven.permit(alloc, &bonds) {
        Ok(permit) => permit,
        Err(_) => return Err(unrouted("memory", proven)),
    };
    match proven.route(permit, &[Point(0), Point(1)], &[Point(2), Point(3)]) {
        Ok(live) => Ok(live),
        Err(RouteStop::Rig(proven)) => Err(unrouted("fault", proven)),
        Err(RouteStop::Memory(proven)) => Err(unrouted("memory", proven)),
    }
}

/// A unit that got no route.
fn unrouted(word: &'static str, proven: Proven<SimRig>) -> Ended {
    Ended {
        word,
        rig: proven.back().into_rig(),
    }
}

/// Two steps of 50 volts, a tick, and the leak.
fn held(live: &mut Live<SimRig>) -> Result<Leak, RaiseStop>
    requires { live.old.rig.state.volts ≡ 0 }
{
    live.step()?;
    live.step()?;
    live.tick()?;
    Ok(live.leak()?)
}

/// The unit brought down, and discharged where the voltage was held.
fn lowered(live: Live<SimRig>, held: Result<Leak, RaiseStop>) -> Ended {
    match live.down() {
        Ok(safe) => match held {
            Ok(_) => discharged(safe),
            Err(RaiseStop::DoorOpen) => not_held("open", safe),
            Err(RaiseStop::Rig) => not_held("fault", safe),
            Err(RaiseStop::Memory) => not_held("memory", safe),
        },
        Err(stuck) => Ended {
            word: "stuck",
            rig: stuck.into_rig(),
        },
    }
}

/// The unit discharged.
fn discharged(safe: Safe<SimRig>) -> Ended {
    match safe.discharge() {
        Ok(proven) => Ended {
            word: "discharged",
            rig: proven.back().into_rig(),
        },
        Err(DischargeStop::NotDischarged(safe, _)) => not_held("charged", safe),
        Err(DischargeStop::Rig(safe)) => not_held("fault", safe),
        Err(DischargeStop::Memory(safe)) => not_held("memory", safe),
    }
}

/// A unit whose source went to zero, and that was not discharged.
fn not_held(word: &'static str, safe: Safe<SimRig>) -> Ended {
    Ended {
        word,
        rig: safe.into_rig(),
    }
}

/// A proven unit led through all calls of a voltage.
fn powered(alloc: Global, proven: Proven<SimRig>) -> Ended {
    match routed(alloc, proven) {
        Ok(live) => {
            let mut live = live;
            let held = held(&mut live);
            lowered(live, held)
        }
        Err(ended) => ended,
    }
}

/// The unit SN1 of a harness file led through all calls, from its seat on.
fn led(alloc: Global, harness: &str) -> Result<Ended, Fail> {
    let p = program(alloc, "withstand,100,1,1000\n")?;
    let rig = SimRig::read(alloc, harness.as_bytes())?;
    match prove(alloc, rig, &p) {
        Ok(proven) => Ok(powered(alloc, proven)),
        Err(ended) => Ok(ended),
    }
}

/// The points of a group in words.
fn group(alloc: Global, points: &PointList) -> Result<String, Fail> {
    let mut words = String::new(alloc);
    for point in points.as_slice() {
        let number = point.0;
        let more = format!(in alloc; " {number}")?;
        words.push_str(more.as_str())?;
    }
    Ok(words)
}

/// An event in words.
fn event_words(alloc: Global, event: &Event) -> Result<String, Fail> {
    match event {
        Event::Reading(_, _, met) => Ok(format!(in alloc; "reading {met}")?),
        Event::Ohms(_, _, _) | Event::Junction(_, _, _) => Ok(String::from_str(alloc, "probe")?),
        Event::Door(closed) => Ok(format!(in alloc; "door {closed}")?),
        Event::Route(a, b) => {
            let left = group(alloc, a)?;
            let right = group(alloc, b)?;
            Ok(format!(in alloc; "route{left} to{right}")?)
        }
        Event::Raise(volts, done) => Ok(format!(in alloc; "raise {volts} {done}")?),
        Event::Leak(Leak::Arc) => Ok(String::from_str(alloc, "leak arc")?),
        Event::Leak(Leak::PicoSiemens(leak)) => Ok(format!(in alloc; "leak {leak}")?),
        Event::Zero(done) => Ok(format!(in alloc; "zero {done}")?),
        Event::Residual(volts) => Ok(format!(in alloc; "residual {volts}")?),
        Event::Tick => Ok(String::from_str(alloc, "tick")?),
    }
}

/// The events in words, each followed by a line feed.
fn trail_words(alloc: Global, events: &[Event]) -> Result<String, Fail> {
    let mut words = String::new(alloc);
    for event in events {
        let more = event_words(alloc, event)?;
        words.push_str(more.as_str())?;
        words.push_str("\n")?;
    }
    Ok(words)
}

/// The readings that prove the unit: each net's second point against its first, and two bits of three nets.
const READINGS: &str = "reading true\nreading true\nreading false\nreading false\n";

/// The events from the route to a voltage of 100, with a tick and a leak at it.
const HELD: &str =
    "route 0 1 to 2 3\ndoor true\nraise 50 true\ndoor true\nraise 100 true\ntick\nleak 300\n";

#[test]
fn the_trail_is_that_of_the_calls(rt: HostRuntime) -> Result<(), Fail> {
    let alloc = rt.alloc();
    let first_step = "route 0 1 to 2 3\ndoor true\nraise 50 true\n";
    let units = [
        ("", "", "discharged", HELD, "zero true\nresidual 0\n"),
        (
            "",
            "charge 45 2\n",
            "discharged",
            HELD,
            "zero true\nresidual 45\ntick\nresidual 45\ntick\nresidual 0\n",
        ),
        (
            "fault 13\nfault 14\n",
            "",
            "discharged",
            HELD,
            "zero false\nzero false\nzero true\nresidual 0\n",
        ),
        (
            "fault 13\nfault 14\nfault 15\n",
            "",
            "stuck",
            HELD,
            "zero false\nzero false\nzero false\n",
        ),
        (
            "door 2\n",
            "",
            "open",
            first_step,
            "door false\nzero true\n",
        ),
    ];
    for (above, rows, word, powered, rest) in units {
        let rows = format!(in alloc; "leak 0 2 300\n{rows}")?;
        let text = harness(alloc, above, rows.as_str())?;
        let wanted = format!(in alloc; "{READINGS}{powered}{rest}")?;
        let ended = led(alloc, text.as_str())?;
        let words = trail_words(alloc, ended.rig.events().as_slice())?;
        assert_eq!(rt; ended.word, word);
        assert_eq!(rt; words.as_str(), wanted.as_str());
    }
    Ok(())
}
