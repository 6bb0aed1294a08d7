//! What the test of a unit came to, in words.

use difference::{Difference, Pieces, Shorts};
use rig_sim::SimRig;
use std::alloc::Global;
use std::test::Fail;
use unit_outcome::UnitStop;
use wirelist::{LeakFaults, Outcome, PartFaultKind, PartFaults};

/// Pieces: the net, the class and the points of each.
fn pieces(alloc: Global, words: &mut String, name: &str, pieces: &Pieces) -> Result<(), Fail> {
    for piece in pieces.as_slice() {
        let net = piece.net;
        let class = piece.class.0;
        words.push_str(&format!(in alloc; " {name} {net}:{class}")?)?;
        for point in piece.points.as_slice() {
            let point = point.0;
            words.push_str(&format!(in alloc; ",{point}")?)?;
        }
    }
    Ok(())
}

/// Shorts: the class and the nets of each.
fn shorts(alloc: Global, words: &mut String, shorts: &Shorts) -> Result<(), Fail> {
    for short in shorts.as_slice() {
        let class = short.class.0;
        words.push_str(&format!(in alloc; " short {class}")?)?;
        for net in short.nets.as_slice() {
            words.push_str(&format!(in alloc; ",{net}")?)?;
        }
    }
    Ok(())
}

/// By what a unit differs from the nets.
fn wiring(alloc: Global, found: &Difference) -> Result<String, Fail> {
    let mut words = String::from_str(alloc, "wiring")?;
    pieces(alloc, &mut words, "open", &found.opens)?;
    shorts(alloc, &mut words, &found.shorts)?;
    pieces(alloc, &mut words, "miswire", &found.miswires)?;
    Ok(words)
}

/// What is wrong with a component.
fn part(alloc: Global, kind: PartFaultKind) -> Result<String, Fail> {
    match kind {
        PartFaultKind::Low(n) => Ok(format!(in alloc; "low {n}")?),
        PartFaultKind::High(n) => Ok(format!(in alloc; "high {n}")?),
        PartFaultKind::OpenPart => Ok(String::from_str(alloc, "open")?),
        PartFaultKind::WrongWay(n) => Ok(format!(in alloc; "wrong way {n}")?),
        PartFaultKind::Leaky(n) => Ok(format!(in alloc; "leaky {n}")?),
    }
}

/// The faulty components.
fn parts(alloc: Global, faults: &PartFaults) -> Result<String, Fail> {
    let mut words = String::from_str(alloc, "parts")?;
    for fault in faults.as_slice() {
        let number = fault.part;
        let kind = part(alloc, fault.kind)?;
        words.push_str(&format!(in alloc; " {number}:{kind}")?)?;
    }
    Ok(words)
}

/// A leak.
fn reading(alloc: Global, leak: Option<u64>) -> Result<String, Fail> {
    match leak {
        Some(leak) => Ok(format!(in alloc; "{leak}")?),
        None => Ok(String::from_str(alloc, "arc")?),
    }
}

/// The clusters that leak too much.
fn leaks(alloc: Global, faults: &LeakFaults) -> Result<String, Fail> {
    let mut words = String::from_str(alloc, "insulation")?;
    for fault in faults.as_slice() {
        let cluster = fault.cluster;
        let leak = reading(alloc, fault.reading)?;
        words.push_str(&format!(in alloc; " {cluster}:{leak}")?)?;
    }
    Ok(words)
}

/// An outcome.
pub(crate) fn found(alloc: Global, outcome: &Outcome) -> Result<String, Fail> {
    match outcome {
        Outcome::Pass => Ok(String::from_str(alloc, "pass")?),
        Outcome::Wiring(difference) => wiring(alloc, difference),
        Outcome::Parts(faults) => parts(alloc, faults),
        Outcome::Insulation(faults) => leaks(alloc, faults),
        Outcome::Withstand { bit, volts, leak } => {
            let leak = reading(alloc, *leak)?;
            Ok(format!(in alloc; "withstand {bit} {volts} {leak}")?)
        }
    }
}

/// The name of a stop.
fn stop_name(stop: &UnitStop<SimRig>) -> &'static str {
    match stop {
        UnitStop::Empty(_) => "empty",
        UnitStop::InterlockOpen(_) => "open",
        UnitStop::NotDischarged(_, _) => "charged",
        UnitStop::RigFault(_) => "fault",
        UnitStop::NotZero(_) => "stuck",
        UnitStop::Memory(_) => "memory",
    }
}

/// The volts that a unit was left at, where it is not discharged.
fn volts_left(stop: &UnitStop<SimRig>) -> Option<u16> {
    match stop {
        UnitStop::NotDischarged(_, volts) => Some(*volts),
        _ => None,
    }
}

/// The rig that a stop hands back.
fn rig_of(stop: UnitStop<SimRig>) -> SimRig {
    match stop {
        UnitStop::Empty(rig) => rig,
        UnitStop::InterlockOpen(rig) => rig,
        UnitStop::NotDischarged(rig, _) => rig,
        UnitStop::RigFault(rig) => rig,
        UnitStop::NotZero(stuck) => stuck.into_rig(),
        UnitStop::Memory(rig) => rig,
    }
}

/// A name, and the volts after it.
fn name_and_volts(alloc: Global, name: &str, volts: Option<u16>) -> Result<String, Fail> {
    match volts {
        Some(volts) => Ok(format!(in alloc; "{name} {volts}")?),
        None => Ok(String::from_str(alloc, name)?),
    }
}

/// A stop, and the rig that it hands back.
pub(crate) fn stopped(alloc: Global, stop: UnitStop<SimRig>) -> Result<(String, SimRig), Fail> {
    let name = stop_name(&stop);
    let volts = volts_left(&stop);
    let rig = rig_of(stop);
    let words = name_and_volts(alloc, name, volts)?;
    Ok((words, rig))
}
