//! What the test of a unit found.

ghost use Rattle.std.specs.Prelude.{◌≡◌};
ghost use Rattle.wirelist.specs.Outcomes.{verdict_of, AreCountable};

use crate::{LeakFaults, PartFaults};
use difference::Difference;

/// What a test found.
#[derive(Debug, Drop)]
pub enum Outcome {
    Pass,
    Wiring(Difference),
    Parts(PartFaults),
    Insulation(LeakFaults),
    /// The bit and the voltage of the leak that ended it; no reading is an arc.
    Withstand {
        bit: u8,
        volts: u16,
        leak: Option<u64>,
    },
}

/// An outcome with the lengths of its lists alone.
#[derive(Clone, Copy, Debug, PartialEq, Eq)]
pub enum Verdict {
    Pass,
    Wiring {
        opens: u32,
        shorts: u32,
        miswires: u32,
    },
    Parts(u32),
    Insulation(u32),
    Withstand {
        bit: u8,
        volts: u16,
    },
}

impl Outcome {
    /// The outcome with the lengths of its lists alone. Takes no memory.
    pub fn verdict(&self) -> Verdict
        requires { AreCountable self.now }
        ensures { result ≡ verdict_of self.now }
    {
        match self {
            Outcome::Pass => Verdict::Pass,
            Outcome::Wiring(found) => Verdict::Wiring {
                opens: found.opens.len() as u32,
                shorts: found.shorts.len() as u32,
                miswires: found.miswires.len() as u32,
            },
            Outcome::Parts(faults) => Verdict::Parts(faults.len() as u32),
            Outcome::Insulation(faults) => Verdict::Insulation(faults.len() as u32),
            Outcome::Withstand { bit, volts, .. } => Verdict::Withstand {
                bit: *bit,
                volts: *volts,
            },
        }
    }
}
