//! Reading by `csv`.

ghost use Rattle.std.specs.Prelude.{◌≡◌, ◌≤◌, ◌+◌, IfOk, IfErr, All, length, map};
ghost use Rattle.csv.specs.Reading.{default_config, records, strip_bom};
ghost use Rattle.wirelist_rows.specs.Filled.{filled, rows_in};
ghost use Rattle.wirelist_rows.specs.Refusals.{IsOutside};

use crate::RowsStop;
use crate::table::{Row, Rows};
use base::Memory;
use csv::ReaderBuilder;
use std::alloc::Global;

/// The rows of a text. Neither they nor the fields of one of them are more than it has bytes, but one.
///
/// # Errors
///
/// `Memory` where [`csv_rows`] stops: the reader underneath is a slice, which never fails.
pub fn rows(alloc: Global, bytes: &[u8]) -> Result<Rows, Memory>
    ensures rows { IfOk result (λ r. r ≡ rows_in bytes.now) }
    ensures few { IfOk result (λ r. length r ≤ length bytes.now + 1) }
    ensures short { IfOk result (All (λ row. length row ≤ length bytes.now + 1)) }
{
    match csv_rows(alloc, bytes) {
        Ok(rows) => Ok(rows),
        Err(RowsStop::Csv(_) | RowsStop::Memory) => Err(Memory),
    }
}

/// The rows of a text, with what stopped `csv`.
///
/// # Errors
///
/// Only where memory ran out or the reader underneath failed; never for what a record has in it, or how many fields.
pub fn csv_rows(alloc: Global, bytes: &[u8]) -> Result<Rows, RowsStop>
    ensures rows { IfOk result (λ r. r ≡ rows_in bytes.now) }
    ensures few { IfOk result (λ r. length r ≤ length bytes.now + 1) }
    ensures short { IfOk result (All (λ row. length row ≤ length bytes.now + 1)) }
    ensures refused { IfErr result IsOutside }
{
    let rows = all_rows(alloc, bytes)?;
    Ok(Rows { rows })
}

/// The rows, taken one after another.
fn all_rows(alloc: Global, bytes: &[u8]) -> Result<Vec<Row>, RowsStop>
    ensures read { IfOk result (λ r. r.items ≡ map filled (records default_config (strip_bom bytes.now))) }
    ensures refused { IfErr result IsOutside }
{
    let reader = ReaderBuilder::new()
        .has_headers(false)
        .flexible(true)
        .from_reader(alloc, bytes);
    let mut rows = Vec::new(alloc);
    for row in reader.into_byte_records() {
        let taken = row?;
        let filled = Row::filled(taken)?;
        rows.push(filled)?;
    }
    Ok(rows)
}
