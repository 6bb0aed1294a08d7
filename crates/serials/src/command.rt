//! What the station is asked.

use partition::Name;
use records::Staff;

/// A command to the station. Its id is the id of the record that is kept of it.
#[derive(Clone, Copy, Debug)]
pub enum Command {
    /// The program of the wirelist is adopted.
    Adopt {
        id: Name,
    },
    /// A unit is enrolled under its serial.
    Enrol {
        id: Name,
        serial: Name,
    },
    /// The station is calibrated until the end of a day, counted from 1970-01-01.
    Calibrate {
        id: Name,
        day: u32,
    },
    /// From here on a test names who made it and where.
    Mark {
        id: Name,
    },
    /// A unit is tested.
    Test {
        id: Name,
        serial: Name,
        staff: Option<Staff>,
    },
    /// A unit was reworked.
    Rework {
        id: Name,
        serial: Name,
    },
    /// A unit is released.
    Release {
        id: Name,
        serial: Name,
    },
    /// A unit is scrapped.
    Scrap {
        id: Name,
        serial: Name,
    },
}

impl Command {
    ghost use Rattle.std.specs.Prelude.{◌≡◌};
    ghost use Rattle.serials.specs.Commands.{id_of};

    /// The id that its record and its answer have.
    pub fn id(&self) -> Name
        ensures { result ≡ id_of self.now }
    {
        match self {
            Command::Adopt { id } => *id,
            Command::Enrol { id, .. } => *id,
            Command::Calibrate { id, .. } => *id,
            Command::Mark { id } => *id,
            Command::Test { id, .. } => *id,
            Command::Rework { id, .. } => *id,
            Command::Release { id, .. } => *id,
            Command::Scrap { id, .. } => *id,
        }
    }
}
