//! The results file.

ghost use Rattle.std.specs.Prelude.{◌≡◌, ◌<◌, ◌≤◌, ◌^◌, All, IfOk, OnOk, Some, length, map, filter_map, decimal};
ghost use Rattle.std.specs.List.{flat_map, list_any};
ghost use Rattle.wirelist.specs.Canonical.{line_of};
ghost use Rattle.records.specs.RecordRanges.{IsRecord};
ghost use Rattle.serials.specs.Scan.{marks};
ghost use Rattle.report.specs.UnitText.{numbered_records};
ghost use Rattle.report.specs.ResultText.{columns, fixture_of, operator_of, result_row, result_text, verdict_word};
ghost use Rattle.report.specs.Writing.{Adds, IsPlain, lines_of};
ghost use Rattle.report.specs.Cells.{ArePlain, cell_fields};

use crate::dates::date_of;
use base::{Bytes, Memory, Text};
use csv::{Writer, WriterBuilder};
use partition::Name;
use records::{Body, RecordList, Staff, StationRecord};
use std::alloc::Global;
use wirelist::Outcome;

/// The results file: a row of columns, and a row for each test. Where the records hold a mark, the rows end with who made a
/// test and where.
pub fn results_csv(alloc: Global, records: &RecordList) -> Result<Bytes, Memory>
    requires in_range { All IsRecord records.now }
    requires few { length records.now < 2 ^ 32 }
    ensures { IfOk result (λ bytes. bytes ≡ result_text records.now) }
{
    let records = records.as_slice();
    let with_staff = has_mark(records);
    let mut rows = WriterBuilder::new().from_writer(Vec::new(alloc));
    write_columns(with_staff, &mut rows)?;
    write_rows(alloc, with_staff, records, &mut rows)?;
    match rows.into_inner() {
        Ok(bytes) => Ok(Bytes::from_vec(bytes)),
        Err(_) => Err(Memory),
    }
}

/// Whether the records hold a mark.
fn has_mark(records: &[StationRecord]) -> bool
    ensures { result ≡ list_any marks records.now }
{
    records.iter().any(|noted| match &noted.body {
        Body::Mark => true,
        _ => false,
    })
}

/// Writes the row of columns.
fn write_columns(with_staff: bool, rows: &mut Writer<Vec<u8>>) -> Result<(), Memory>
    ensures { OnOk result (Adds (λ v. Some v.items) rows.old rows.new (line_of (columns with_staff))) }
{
    if with_staff {
        write_row(
            &[
                b"record",
                b"date",
                b"serial",
                b"attempt",
                b"verdict",
                b"opens",
                b"shorts",
                b"miswires",
                b"operator",
                b"fixture",
            ],
            rows,
        )
    } else {
        write_row(
            &[
                b"record",
                b"date",
                b"serial",
                b"attempt",
                b"verdict",
                b"opens",
                b"shorts",
                b"miswires",
            ],
            rows,
        )
    }
}

/// Writes a row for each test.
fn write_rows(
    alloc: Global,
    with_staff: bool,
    records: &[StationRecord],
    rows: &mut Writer<Vec<u8>>,
) -> Result<(), Memory>
    requires in_range { All IsRecord records.now }
    requires few { length records.now < 2 ^ 32 }
    ensures { OnOk result (Adds (λ v. Some v.items) rows.old rows.new (flat_map line_of (filter_map (result_row with_staff) (numbered_records records.now)))) }
{
    for (place, noted) in records.iter().enumerate() {
        write_record(alloc, with_staff, place as u64 + 1, noted, rows)?;
    }
    Ok(())
}

/// Writes the row of a record with this number, where it is a test.
fn write_record(
    alloc: Global,
    with_staff: bool,
    number: u64,
    noted: &StationRecord,
    rows: &mut Writer<Vec<u8>>,
) -> Result<(), Memory>
    requires { IsRecord noted.now }
    ensures { OnOk result (Adds (λ v. Some v.items) rows.old rows.new (lines_of (result_row with_staff (number, noted.now)))) }
{
    let Body::Tested {
        serial,
        attempt,
        staff,
        outcome,
    } = &noted.body
    else {
        return Ok(());
    };
    let cells = Cells {
        number: digits(alloc, number)?,
        date: date_of(alloc, noted)?,
        serial: *serial,
        attempt: digits(alloc, *attempt as u64)?,
        counts: Counts::of(alloc, outcome)?,
        staff: *staff,
    };
    write_test(with_staff, &cells, verdict_word(outcome), rows)
}

/// What the row of a test is written from, beside the word of its verdict.
#[derive(Drop)]
struct Cells {
    number: Text,
    date: Text,
    serial: Name,
    attempt: Text,
    counts: Counts,
    staff: Option<Staff>,
}

/// Writes the row of a test.
fn write_test(
    with_staff: bool,
    cells: &Cells,
    verdict: &[u8],
    rows: &mut Writer<Vec<u8>>,
) -> Result<(), Memory>
    requires { ArePlain cells.now verdict.now }
    ensures { OnOk result (Adds (λ v. Some v.items) rows.old rows.new (line_of (cell_fields with_staff cells.now verdict.now))) }
{
    if with_staff {
        write_row(
            &[
                cells.number.as_bytes(),
                cells.date.as_bytes(),
                cells.serial.bytes(),
                cells.attempt.as_bytes(),
                verdict,
                cells.counts.opens.as_bytes(),
                cells.counts.shorts.as_bytes(),
                cells.counts.miswires.as_bytes(),
                operator(&cells.staff),
                fixture(&cells.staff),
            ],
            rows,
        )
    } else {
        write_row(
            &[
                cells.number.as_bytes(),
                cells.date.as_bytes(),
                cells.serial.bytes(),
                cells.attempt.as_bytes(),
                verdict,
                cells.counts.opens.as_bytes(),
                cells.counts.shorts.as_bytes(),
                cells.counts.miswires.as_bytes(),
            ],
            rows,
        )
    }
}

/// Writes a row whose fields call for no quotes.
fn write_row(fields: &[&[u8]], rows: &mut Writer<Vec<u8>>) -> Result<(), Memory>
    requires some { 2 ≤ length fields.now }
    requires plain { All IsPlain (map (λ f. f.now) fields.now) }
    ensures { OnOk result (Adds (λ v. Some v.items) rows.old rows.new (line_of (map (λ f. f.now) fields.now))) }
{
    match rows.write_fields(fields) {
        Ok(()) => Ok(()),
        Err(_) => Err(Memory),
    }
}

/// How many opens, shorts and miswires an outcome states, in digits.
#[derive(Drop)]
struct Counts {
    opens: Text,
    shorts: Text,
    miswires: Text,
}

impl Counts {
    ghost use Rattle.report.specs.ResultText.{miswire_count, open_count, short_count, wiring_of};

    /// Those of an outcome: zeros where the wiring is right.
    fn of(alloc: Global, outcome: &Outcome) -> Result<Self, Memory>
        ensures opens { IfOk result (λ counts. counts.opens ≡ decimal (open_count (wiring_of outcome.now))) }
        ensures shorts { IfOk result (λ counts. counts.shorts ≡ decimal (short_count (wiring_of outcome.now))) }
        ensures miswires { IfOk result (λ counts. counts.miswires ≡ decimal (miswire_count (wiring_of outcome.now))) }
        ensures plain { IfOk result (λ counts. IsPlain counts.opens × IsPlain counts.shorts × IsPlain counts.miswires) }
    {
        match outcome {
            Outcome::Wiring(found) => Counts::new(
                alloc,
                found.opens.len() as u64,
                found.shorts.len() as u64,
                found.miswires.len() as u64,
            ),
            _ => Counts::new(alloc, 0, 0, 0),
        }
    }

    /// These numbers.
    fn new(alloc: Global, opens: u64, shorts: u64, miswires: u64) -> Result<Self, Memory>
        ensures opens { IfOk result (λ counts. counts.opens ≡ decimal opens) }
        ensures shorts { IfOk result (λ counts. counts.shorts ≡ decimal shorts) }
        ensures miswires { IfOk result (λ counts. counts.miswires ≡ decimal miswires) }
        ensures plain { IfOk result (λ counts. IsPlain counts.opens × IsPlain counts.shorts × IsPlain counts.miswires) }
    {
        Ok(Counts {
            opens: digits(alloc, opens)?,
            shorts: digits(alloc, shorts)?,
            miswires: digits(alloc, miswires)?,
        })
    }
}

/// A number in digits.
fn digits(alloc: Global, number: u64) -> Result<Text, Memory>
    ensures digits { IfOk result (λ text. text ≡ decimal number) }
    ensures plain { IfOk result IsPlain }
{
    let text = number.to_string(alloc)?;
    Ok(Text::from_string(text))
}

/// The word of a verdict.
fn verdict_word(outcome: &Outcome) -> &'static [u8]
    ensures { result.now ≡ verdict_word outcome.now }
{
    match outcome {
        Outcome::Pass => b"pass",
        Outcome::Wiring(_) => b"wiring",
        Outcome::Parts(_) => b"parts",
        Outcome::Insulation(_) => b"insulation",
        Outcome::Withstand { .. } => b"withstand",
    }
}

/// Who made a test, or nothing where it does not say.
fn operator(staff: &Option<Staff>) -> &[u8]
    ensures { result.now ≡ operator_of staff.now }
{
    match staff {
        Some(staff) => staff.operator.bytes(),
        None => b"",
    }
}

/// Where a test was made, or nothing where it does not say.
fn fixture(staff: &Option<Staff>) -> &[u8]
    ensures { result.now ≡ fixture_of staff.now }
{
    match staff {
        Some(staff) => staff.fixture.bytes(),
        None => b"",
    }
}
