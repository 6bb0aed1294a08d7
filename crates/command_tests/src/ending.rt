//! How the rig that a command hands out was left.

use rig::Event;
use rig_sim::SimRig;

/// How the source was left.
#[derive(Clone, Copy, Debug, PartialEq, Eq)]
pub enum End {
    /// The last raise or zero is a zero that was done, or there is none.
    Zero,
    /// The last three raises and zeros are zeros that failed.
    Stuck,
    /// Neither: volts may stand.
    Powered,
    /// No rig was handed out.
    NoRig,
}

/// How a rig was left, by its trail.
pub fn end_of(rig: Option<SimRig>) -> End {
    match rig {
        Some(sim) => end_of_trail(sim.events().as_slice()),
        None => End::NoRig,
    }
}

fn end_of_trail(trail: &[Event]) -> End {
    let mut powered = false;
    let mut failed_zeros = 0u32;
    for event in trail {
        match event {
            Event::Raise(_, _) => {
                powered = true;
                failed_zeros = 0;
            }
            Event::Zero(true) => {
                powered = false;
                failed_zeros = 0;
            }
            Event::Zero(false) => {
                powered = true;
                failed_zeros = failed_zeros.saturating_add(1);
            }
            _ => {}
        }
    }
    if failed_zeros >= 3 {
        End::Stuck
    } else if powered {
        End::Powered
    } else {
        End::Zero
    }
}
