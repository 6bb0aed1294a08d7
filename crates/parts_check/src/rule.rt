//! Which fault a component's readings give.

ghost use Rattle.std.specs.Prelude.{◌≡◌, ◌++◌, [], IfSome, OnOk, OnErr};
ghost use Rattle.std.specs.List.{cons_option};
ghost use Rattle.wirelist.specs.Ranges.{IsReading};
ghost use Rattle.parts_check.specs.PartRule.{window_fault, resistor_fault, diode_fault, numbered_fault};

use base::Memory;
use wirelist::{Diode, PartFault, PartFaultKind, PartFaults, Resistor};

/// The fault of a reading that lies outside its window.
fn outside(min: u64, max: u64, reading: u64) -> Option<PartFaultKind>
    ensures { result ≡ window_fault min max reading }
{
    if reading < min {
        Some(PartFaultKind::Low(reading))
    } else if max < reading {
        Some(PartFaultKind::High(reading))
    } else {
        None
    }
}

/// A resistor's fault at the reading of its two ends, in milliohms.
pub(crate) fn fault_of_resistor(resistor: &Resistor, ohms: Option<u64>) -> Option<PartFaultKind>
    ensures fault { result ≡ resistor_fault resistor.now ohms }
    ensures fits { IfSome ohms IsReading }
{
    match ohms {
        None => Some(PartFaultKind::OpenPart),
        Some(ohms) => outside(resistor.min, resistor.max, ohms),
    }
}

/// A diode's fault at its forward reading and the one back, in millivolts.
pub(crate) fn fault_of_diode(
    diode: &Diode,
    forward: Option<u32>,
    back: Option<u32>,
) -> Option<PartFaultKind>
    ensures fault { result ≡ diode_fault diode.now forward back }
    ensures fits { IfSome forward IsReading × IfSome back IsReading }
{
    match forward {
        None => match back {
            None => Some(PartFaultKind::OpenPart),
            Some(drop) => Some(PartFaultKind::WrongWay(drop as u64)),
        },
        Some(drop) => {
            if drop < diode.min {
                Some(PartFaultKind::Low(drop as u64))
            } else if diode.max < drop {
                Some(PartFaultKind::High(drop as u64))
            } else {
                match back {
                    None => None,
                    Some(drop) => Some(PartFaultKind::Leaky(drop as u64)),
                }
            }
        }
    }
}

/// Notes a component's fault, if it has one.
pub(crate) fn note(
    faults: &mut PartFaults,
    part: u32,
    fault: Option<PartFaultKind>,
) -> Result<(), Memory>
    ensures ok { OnOk result (faults.new ≡ faults.old ++ cons_option (numbered_fault part fault) []) }
    ensures err { OnErr result (faults.new ≡ faults.old) }
{
    match fault {
        None => Ok(()),
        Some(kind) => faults.push(PartFault { part, kind }),
    }
}
