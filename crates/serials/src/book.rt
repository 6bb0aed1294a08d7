//! The book of records.

use crate::SerialFacts;
use crate::index::{Index, history};
use base::Memory;
use partition::Name;
use records::{Body, RecordList, StationRecord};
use std::alloc::Global;
use std::marker::Model;
use wirelist::Program;

/// The records of a station in order, numbered from 1. Contracts see the list.
#[derive(Debug, Drop)]
pub struct Book {
    records: RecordList,
    index: Index,
}

impl Model for Book {
    ghost use Rattle.std.specs.Prelude.{List};
    ghost use Rattle.records.specs.declared.record.StationRecord.{StationRecord};

    ghost Value = { List StationRecord };

    ghost use Rattle.serials.specs.IsIndex.{IsIndex};

    ghost view = { λ b. b.records };

    ghost invariant = { λ b. IsIndex b.records b.index };
}

impl Book {
    ghost use Rattle.std.specs.Prelude.{◌≡◌, ◌++◌, ◌∷◌, ◌+◌, ◌<◌, ◌^◌, [], length, IfOk, OnOk, OnErr, option_copied};
    ghost use Rattle.serials.specs.Facts.{history, facts_of};
    ghost use Rattle.serials.specs.Scan.{by_id, last_program, last_calibration, first_mark};

    /// The book of these records, whatever stands in them.
    pub fn of(alloc: Global, records: RecordList) -> Result<Self, Memory>
        requires { length records < 2 ^ 32 }
        ensures { IfOk result (λ book. book ≡ records) }
    {
        let mut index = Index::new(alloc);
        for place in 0..records.len() {
            index.note(records.as_slice(), place)?;
        }
        Ok(Book { records, index })
    }

    /// Appends a record.
    pub fn add(&mut self, r: StationRecord) -> Result<(), Memory>
        requires { length self.old + 1 < 2 ^ 32 }
        ensures ok { OnOk result (self.new ≡ self.old ++ r ∷ []) }
        ensures err { OnErr result (self.new ≡ self.old) }
    {
        let place = self.records.len();
        self.records.push(r)?;
        if let Err(memory) = self.index.note(self.records.as_slice(), place) {
            self.records.pop();
            return Err(memory);
        }
        Ok(())
    }

    /// The records in order. Takes no memory.
    pub fn records(&self) -> &RecordList
        ensures { result.now ≡ self.now }
    {
        &self.records
    }

    /// The number of the first record with an id, None where there is none. Takes no memory.
    pub fn by_id(&self, id: Name) -> Option<u32>
        ensures { result ≡ by_id self.now id }
    {
        self.index.numbers.get(&id).copied()
    }

    /// What the records say of a serial, None where none names it. Takes no memory.
    pub fn facts(&self, serial: Name) -> Option<SerialFacts>
        ensures { result ≡ facts_of self.now serial }
    {
        self.index.units.get(&serial).copied()
    }

    /// What the records say of a serial, whether one names it or not.
    pub(crate) fn history(&self, serial: &Name) -> SerialFacts
        ensures { result ≡ history self.now serial.now }
    {
        history(&self.index.units, serial)
    }

    /// The program that was adopted last.
    pub(crate) fn last_program(&self) -> Option<&Program>
        ensures { option_copied result ≡ last_program self.now }
    {
        let place = self.index.station.adopted?;
        match &self.records.get(place)?.body {
            Body::Adopt(program) => Some(program),
            _ => None,
        }
    }

    /// The day of the last calibration.
    pub(crate) fn last_calibration(&self) -> Option<u32>
        ensures { result ≡ last_calibration self.now }
    {
        self.index.station.calibrated
    }

    /// The number of the first mark.
    pub(crate) fn first_mark(&self) -> Option<u32>
        ensures { result ≡ first_mark self.now }
    {
        self.index.station.marked
    }
}
