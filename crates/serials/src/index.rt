//! What is looked up: maps and numbers beside the list of records.

ghost use Rattle.std.specs.Prelude.{◌≡◌, ◌+◌, ◌^◌, ◌<◌, ℕ, List, is_none, unwrap_or, IfOk, OnOk, OnErr};
ghost use Rattle.std.specs.BTreeMap.{IsUnchanged};
ghost use Rattle.serials.specs.NameMaps.{at_name};
ghost use Rattle.serials.specs.FactsAfter.{no_facts, entry_after, number_after};
ghost use Rattle.serials.specs.Scan.{serial_in};

use crate::SerialFacts;
use crate::facts::StationFacts;
use base::Memory;
use partition::Name;
use records::{Body, StationRecord};
use std::alloc::Global;
use std::collections::BTreeMap;

/// What decisions ask of the records, so that none of them is a scan.
#[derive(Debug, Drop)]
pub(crate) struct Index {
    /// The number of the first record with each id.
    pub(crate) numbers: BTreeMap<Name, u32>,
    /// What the records say of each serial that they name.
    pub(crate) units: BTreeMap<Name, SerialFacts>,
    /// What they say of the station.
    pub(crate) station: StationFacts,
}

impl Index {
    ghost use Rattle.std.specs.Prelude.{[], take, length};
    ghost use Rattle.serials.specs.IsIndex.{IsIndex};

    /// The index of no records.
    pub(crate) fn new(alloc: Global) -> Self
        ensures { IsIndex [] result }
    {
        Index {
            numbers: BTreeMap::new(alloc),
            units: BTreeMap::new(alloc),
            station: StationFacts::none(),
        }
    }

    /// Takes in the record at a place, where those before it are taken in.
    pub(crate) fn note(&mut self, records: &[StationRecord], place: usize) -> Result<(), Memory>
        requires there { place < length records.now }
        requires few { length records.now < 2 ^ 32 }
        requires before { IsIndex (take place records.now) self.old }
        ensures ok { OnOk result (IsIndex (take (place + 1) records.now) self.new) }
        ensures err { OnErr result (IsIndex (take place records.now) self.new) }
    {
        let noted = &records[place];
        let number = place as u32 + 1;
        let is_new = note_id(&mut self.numbers, noted.id, number)?;
        if let Err(memory) = note_serial(&mut self.units, &noted.body, number) {
            if is_new {
                self.numbers.remove(&noted.id);
            }
            return Err(memory);
        }
        self.station = self.station.after(&noted.body, place);
        Ok(())
    }
}

/// Keeps the number of a record under its id, unless an earlier one has the id. The answer is whether it was kept.
fn note_id(numbers: &mut BTreeMap<Name, u32>, id: Name, number: u32) -> Result<bool, Memory>
    ensures is_new { IfOk result (λ is_new. is_new ≡ is_none (at_name numbers.old id)) }
    ensures ok { OnOk result ((q : List ℕ) → at_name numbers.new q ≡ number_after (at_name numbers.old q) q id number) }
    ensures err { OnErr result (IsUnchanged numbers.old numbers.new) }
{
    if numbers.contains_key(&id) {
        return Ok(false);
    }
    numbers.insert(id, number)?;
    Ok(true)
}

/// Keeps what a record with this number says of the serial that it names.
fn note_serial(
    units: &mut BTreeMap<Name, SerialFacts>,
    body: &Body,
    number: u32,
) -> Result<(), Memory>
    requires { (serial : List ℕ) → (unwrap_or (at_name units.old serial) no_facts).tests + 1 < 2 ^ 32 }
    ensures ok { OnOk result ((q : List ℕ) → at_name units.new q ≡ entry_after (at_name units.old q) q body.now number) }
    ensures err { OnErr result (IsUnchanged units.old units.new) }
{
    let Some(serial) = serial_of(body) else {
        return Ok(());
    };
    let facts = history(units, &serial).after(body, number);
    units.insert(serial, facts)?;
    Ok(())
}

/// What is said of a serial, whether a record names it or not.
pub(crate) fn history(units: &BTreeMap<Name, SerialFacts>, serial: &Name) -> SerialFacts
    ensures { result ≡ unwrap_or (at_name units.now serial.now) no_facts }
{
    match units.get(serial) {
        Some(facts) => *facts,
        None => SerialFacts::none(),
    }
}

/// The serial that the fields of a record name.
pub(crate) fn serial_of(body: &Body) -> Option<Name>
    ensures { result ≡ serial_in body.now }
{
    match body {
        Body::Enrol(serial) | Body::Rework(serial) | Body::Release(serial) | Body::Scrap(serial) =>
            { Some(*serial) }
        Body::Tested { serial, .. } => Some(*serial),
        Body::Adopt(_) | Body::Calibrate(_) | Body::Mark => None,
    }
}
