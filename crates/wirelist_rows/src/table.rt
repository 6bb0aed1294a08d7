//! What was read.

ghost use Rattle.std.specs.Prelude.{◌≡◌, [], take, slice_index_or};
ghost use Rattle.csv.specs.Records.{fields_of};
ghost use Rattle.wirelist_rows.specs.Filled.{filled};

use csv::ByteRecord;
use std::alloc::AllocError;
use std::marker::Model;

/// A row: the list of its fields, of which the last is not empty.
#[derive(Drop)]
pub struct Row {
    record: ByteRecord,
}

impl Model for Row {
    ghost use Rattle.std.specs.Prelude.{List, ℕ};
    ghost use Rattle.csv.specs.Records.{fields_of};

    ghost Value = { List (List ℕ) };

    ghost view = { λ a. fields_of a.record };
}

impl Row {
    ghost use Rattle.std.specs.Prelude.{◌↔◌, IsTrue, IfOk, length, option_map, slice_get};

    /// The record without the empty fields at its end, in no more memory than that takes.
    pub(crate) fn filled(read: ByteRecord) -> Result<Self, AllocError>
        ensures { IfOk result (λ row. row ≡ filled (fields_of read)) }
    {
        let count = filled_count(&read);
        let mut kept = read;
        kept.truncate(count);
        let record = kept.clone()?;
        Ok(Row { record })
    }

    /// How many fields it has.
    pub fn len(&self) -> usize
        ensures { result ≡ length self.now }
    {
        self.record.len()
    }

    pub fn is_empty(&self) -> bool
        ensures { IsTrue result ↔ (self.now ≡ []) }
    {
        self.record.is_empty()
    }

    /// The field with this number, counted from 0.
    pub fn get(&self, place: usize) -> Option<&[u8]>
        ensures { option_map (λ f. f.now) result ≡ slice_get self.now place }
    {
        self.record.get(place)
    }

    /// The field with this number, counted from 0, or nothing where there is none.
    pub fn field(&self, place: usize) -> &[u8]
        ensures { result.now ≡ slice_index_or self.now place [] }
    {
        field_of(&self.record, place)
    }
}

/// One field of a record, or nothing where there is none.
fn field_of(read: &ByteRecord, place: usize) -> &[u8]
    ensures { result.now ≡ slice_index_or (fields_of read.now) place [] }
{
    match read.get(place) {
        Some(field) => field,
        None => b"",
    }
}

/// How many fields are left without the empty ones at the end.
fn filled_count(read: &ByteRecord) -> usize
    ensures { take result (fields_of read.now) ≡ filled (fields_of read.now) }
{
    let mut count = 0;
    for place in 0..read.len() {
        if !field_of(read, place).is_empty() {
            count = place + 1;
        }
    }
    count
}

/// The rows of a text, in order.
#[derive(Drop)]
pub struct Rows {
    pub(crate) rows: Vec<Row>,
}

impl Model for Rows {
    ghost use Rattle.std.specs.Prelude.{List, ℕ};

    ghost Value = { List (List (List ℕ)) };

    ghost view = { λ a. a.rows.items };
}

impl Rows {
    ghost use Rattle.std.specs.Prelude.{◌≡◌, length};

    /// How many rows there are.
    pub fn len(&self) -> usize
        ensures { result ≡ length self.now }
    {
        self.rows.len()
    }

    pub fn as_slice(&self) -> &[Row]
        ensures { result.now ≡ self.now }
    {
        self.rows.as_slice()
    }
}
