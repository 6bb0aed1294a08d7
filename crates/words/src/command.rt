//! What the program can be asked for.

use partition::Name;

/// A unit as the words name it: one attempt, from 1 to 9, of one serial.
#[derive(Clone, Copy, Debug)]
pub struct UnitName {
    pub serial: Name,
    pub attempt: u8,
}

/// Where the station is served, and for how many connections.
#[derive(Clone, Copy, Debug)]
pub struct Service {
    /// From 1 to 65,535.
    pub port: u16,
    /// From 1 to 1,000,000.
    pub count: u32,
}

/// What the program is asked for.
#[derive(Clone, Copy, Debug)]
pub enum Command {
    /// The check of the unit's continuity.
    Continuity(UnitName),
    /// The wiring of the unit, learned.
    Learn(UnitName),
    /// The commands of a script, answered.
    Run,
    /// The serials of a list, enrolled.
    Import,
    /// The commands of HTTP requests, answered.
    Serve(Service),
    /// The lot report.
    Report,
    /// The report of the unit with this serial.
    Unit(Name),
    /// The results file.
    Export,
    /// Two units of known wiring over this many points, from 4 to 4,096, tested after each other.
    Soak(u16),
}
