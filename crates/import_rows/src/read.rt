//! Reading of rows.

ghost use Rattle.std.specs.Prelude.{◌≡◌, ◌≤◌, ◌⊎◌, ◌++◌, ◌∷◌, [], List, true, false, length, filter_map, option_to_list, IfOk, IfErr, OnOk};
ghost use Rattle.std.specs.List.{enumerate_from};
ghost use Rattle.import_rows.specs.Rows.{asked_by, asked_by_rows, enrolment, is_heading, is_passed_over, is_too_long, most_records};

use base::Memory;
use partition::Name;
use serials::Command;
use std::alloc::{AllocFailed, Global};
use std::marker::Model;
use wirelist_rows::{Row, rows};

/// The most bytes of an input.
const MOST_BYTES: usize = 8_388_608;

/// The most records of an input.
const MOST_RECORDS: usize = 100_000;

/// A command that enrols a serial.
///
/// A contract sees the command.
#[derive(Drop)]
pub struct Enrolment {
    id: Name,
    serial: Name,
}

impl Model for Enrolment {
    ghost use Rattle.serials.specs.declared.command.Command.{Command};
    ghost use Rattle.serials.specs.declared.command.Command.TheVariants.{Enrol};

    ghost Value = { Command };

    ghost view = { λ e. Enrol e.id e.serial };
}

impl Enrolment {
    ghost use Rattle.std.specs.Prelude.{◌≡◌};
    ghost use Rattle.import_rows.specs.Rows.{IsEnrolment};

    /// The command.
    pub fn command(&self) -> Command
        ensures command { result ≡ self.now }
        ensures enrols { IsEnrolment result }
    {
        Command::Enrol {
            id: self.id,
            serial: self.serial,
        }
    }
}

/// What the rows of an import ask: the number of a record, counted from 1, and its command, or none where it is no command.
#[derive(Drop)]
pub struct AskedRows {
    rows: Vec<(u32, Option<Enrolment>)>,
}

impl Model for AskedRows {
    ghost use Rattle.std.specs.Prelude.{ℕ, List, Option};
    ghost use Rattle.serials.specs.declared.command.Command.{Command};

    ghost Value = { List (ℕ × Option Command) };

    ghost view = { λ a. a.rows.items };
}

impl AskedRows {
    ghost use Rattle.std.specs.Prelude.{◌≡◌};

    pub fn as_slice(&self) -> &[(u32, Option<Enrolment>)]
        ensures { result.now ≡ self.now }
    {
        self.rows.as_slice()
    }
}

/// Why an input asks nothing.
#[derive(Clone, Copy, Debug, PartialEq, Eq)]
pub enum ImportStop {
    /// It has more than 8,388,608 bytes or more than 100,000 records.
    TooLong,
    /// Memory ran out.
    Memory,
}

impl From<Memory> for ImportStop {
    ghost use Rattle.import_rows.specs.declared.read.ImportStop.{ImportStop};

    ghost from_gives = { λ _ stop. stop ≡ ImportStop.Memory };

    fn from(_: Memory) -> Self {
        ImportStop::Memory
    }
}

impl<T: Drop> From<AllocFailed<T>> for ImportStop {
    ghost use Rattle.import_rows.specs.declared.read.ImportStop.{ImportStop};

    ghost from_gives = { λ _ stop. stop ≡ ImportStop.Memory };

    fn from(_: AllocFailed<T>) -> Self {
        ImportStop::Memory
    }
}

/// What the rows of an input ask.
///
/// # Errors
///
/// [`ImportStop::TooLong`] exactly where the input has more than 8,388,608 bytes or 100,000 records.
#[tactic(auto, unfolding(crate::specs::Rows::asked_by_rows))]
pub fn read_import(alloc: Global, bytes: &[u8]) -> Result<AskedRows, ImportStop>
    ensures rows { IfOk result (λ asked. asked ≡ asked_by_rows bytes.now) }
    ensures fits { OnOk result (is_too_long bytes.now ≡ false) }
    ensures refused { IfErr result (λ stop. (stop ≡ ImportStop.Memory) ⊎ (is_too_long bytes.now ≡ true)) }
{
    if bytes.len() > MOST_BYTES {
        return Err(ImportStop::TooLong);
    }
    let read = rows(alloc, bytes)?;
    if read.len() > MOST_RECORDS {
        return Err(ImportStop::TooLong);
    }
    let rows = asked_rows(alloc, read.as_slice())?;
    Ok(AskedRows { rows })
}

/// What some rows ask.
fn asked_rows(alloc: Global, read: &[Row]) -> Result<Vec<(u32, Option<Enrolment>)>, ImportStop>
    requires { length read.now ≤ most_records }
    ensures rows { IfOk result (λ asked. asked.items ≡ filter_map asked_by (enumerate_from 1 read.now)) }
    ensures refused { IfErr result (λ stop. stop ≡ ImportStop.Memory) }
{
    let mut asked = Vec::new(alloc);
    for (place, row) in read.iter().enumerate() {
        keep_row(&mut asked, place as u32 + 1, row)?;
    }
    Ok(asked)
}

/// Appends what the record with this number asks, where it is not passed over.
fn keep_row(
    asked: &mut Vec<(u32, Option<Enrolment>)>,
    number: u32,
    row: &Row,
) -> Result<(), ImportStop>
    ensures kept { OnOk result (asked.new.items ≡ asked.old.items ++ option_to_list (asked_by (number, row.now))) }
    ensures refused { IfErr result (λ stop. stop ≡ ImportStop.Memory) }
{
    if is_passed_over(number, row) {
        return Ok(());
    }
    asked.push((number, read_enrolment(row)))?;
    Ok(())
}

/// Whether a record is passed over: it has no fields, or is the first one and names the columns.
fn is_passed_over(number: u32, row: &Row) -> bool
    ensures { result ≡ is_passed_over number row.now }
{
    row.len() == 0 || (number == 1 && is_heading(row))
}

/// Whether a record has the fields `id` and `serial`.
fn is_heading(row: &Row) -> bool
    ensures { result ≡ is_heading row.now }
{
    row.len() == 2 && row.field(0) == b"id".as_slice() && row.field(1) == b"serial".as_slice()
}

/// The command that a record is, or none.
fn read_enrolment(row: &Row) -> Option<Enrolment>
    ensures { result ≡ enrolment row.now }
{
    if row.len() != 2 {
        return None;
    }
    match (Name::read(row.field(0)), Name::read(row.field(1))) {
        (Some(id), Some(serial)) => Some(Enrolment { id, serial }),
        _ => None,
    }
}
