//! What a plain list of records says of one serial, by a scan.

ghost use Rattle.std.specs.Prelude.{◌≡◌, ◌<◌, ◌^◌, length};
ghost use Rattle.serials.specs.Scan.{names_in};
ghost use Rattle.serials.specs.Facts.{history};

use crate::SerialFacts;
use crate::index::serial_of;
use partition::Name;
use records::{Body, StationRecord};

/// What the records say of a serial, whether one names it or not. Takes no memory.
pub fn history_in(records: &[StationRecord], serial: &Name) -> SerialFacts
    requires { length records.now < 2 ^ 32 }
    ensures { result ≡ history records.now serial.now }
{
    let mut facts = SerialFacts::none();
    for (place, noted) in records.iter().enumerate() {
        if names_serial(&noted.body, serial) {
            facts = facts.after(&noted.body, place as u32 + 1);
        }
    }
    facts
}

/// Whether the fields of a record name a serial. Takes no memory.
pub fn names_serial(body: &Body, serial: &Name) -> bool
    ensures { result ≡ names_in serial.now body.now }
{
    match serial_of(body) {
        Some(named) => named == *serial,
        None => false,
    }
}
