//! The report of one unit.

ghost use Rattle.std.specs.Prelude.{◌≡◌, ◌++◌, ◌<◌, ◌^◌, ◌≤◌, All, IfOk, IfSome, OnOk, length, option_copied, codes};
ghost use Rattle.std.specs.List.{flat_map};
ghost use Rattle.records.specs.RecordRanges.{IsRecord, last_moment};
ghost use Rattle.outcome_lines.specs.Labels.{HasLabels};
ghost use Rattle.report.specs.UnitText.{body_lines, event_line, heading, noted_lines, numbered_records, record_lines};
ghost use Rattle.report.specs.UnitText.{staff_text, status_word, test_line, unit_text};
ghost use Rattle.wirelist.specs.Outcomes.{AreCountable};

use crate::dates::date_of;
use crate::programs::adopted_after;
use base::{Memory, Text};
use outcome_lines::{write_decimal, write_outcome, write_verdict};
use partition::Name;
use records::{Body, RecordList, Staff, StationRecord};
use serials::{SerialFacts, history_in, names_serial};
use std::alloc::Global;
use wirelist::{Outcome, Program};

/// The report of a unit: its status, and the lines of its records. None exactly where its serial is not enrolled.
#[tactic(auto, unfolding(crate::specs::UnitText::unit_text))]
pub fn unit_report(
    alloc: Global,
    records: &RecordList,
    serial: Name,
) -> Result<Option<Text>, Memory>
    requires in_range { All IsRecord records.now }
    requires few { length records.now < 2 ^ 32 }
    ensures { IfOk result (λ report. report ≡ unit_text records.now serial) }
{
    let facts = history_in(records.as_slice(), &serial);
    if facts.enrol.is_none() {
        return Ok(None);
    }
    let mut out = Text::new(alloc);
    write_heading(&serial, &facts, &mut out)?;
    write_records(alloc, records.as_slice(), &serial, &mut out)?;
    Ok(Some(out))
}

/// Appends the lines above the records.
fn write_heading(serial: &Name, facts: &SerialFacts, out: &mut Text) -> Result<(), Memory>
    ensures { OnOk result (out.new ≡ out.old ++ heading serial.now facts.now) }
{
    out.push_str("UNIT ")?;
    out.push_str(serial.text())?;
    out.push_str("\nstatus ")?;
    out.push_str(status(facts))?;
    out.push_str("\n")
}

/// The status of a unit, by what the records say of its serial.
fn status(facts: &SerialFacts) -> &'static str
    ensures { result.now ≡ status_word facts.now }
{
    if facts.scrapped {
        "scrapped"
    } else if facts.released {
        "released"
    } else if facts.last_test.is_none() {
        "enrolled"
    } else if facts.last_passed {
        "passed"
    } else if facts.reworked {
        "reworked"
    } else {
        "rework due"
    }
}

/// Appends the lines of the records that name the serial.
fn write_records(
    alloc: Global,
    records: &[StationRecord],
    serial: &Name,
    out: &mut Text,
) -> Result<(), Memory>
    requires in_range { All IsRecord records.now }
    requires few { length records.now < 2 ^ 32 }
    ensures { OnOk result (out.new ≡ out.old ++ flat_map (record_lines records.now serial.now) (numbered_records records.now)) }
{
    let mut program = None;
    for (place, noted) in records.iter().enumerate() {
        write_noted(alloc, program, serial, place as u64 + 1, noted, out)?;
        program = adopted_after(program, &noted.body);
    }
    Ok(())
}

/// Appends the lines of a record with this number, where it names the serial.
fn write_noted(
    alloc: Global,
    program: Option<&Program>,
    serial: &Name,
    number: u64,
    noted: &StationRecord,
    out: &mut Text,
) -> Result<(), Memory>
    requires labels { IfSome program (λ p. HasLabels p.now) }
    requires in_range { IsRecord noted.now }
    ensures { OnOk result (out.new ≡ out.old ++ noted_lines (option_copied program.entry) serial.now number noted.now) }
{
    if !names_serial(&noted.body, serial) {
        return Ok(());
    }
    write_record(alloc, program, number, noted, out)
}

/// Appends the lines of a record with this number, a test's under the program.
#[tactic(auto, unfolding(crate::specs::UnitText::body_lines))]
fn write_record(
    alloc: Global,
    program: Option<&Program>,
    number: u64,
    noted: &StationRecord,
    out: &mut Text,
) -> Result<(), Memory>
    requires labels { IfSome program (λ p. HasLabels p.now) }
    requires in_range { IsRecord noted.now }
    ensures { OnOk result (out.new ≡ out.old ++ body_lines (option_copied program.entry) number noted.now noted.now.body) }
{
    match &noted.body {
        Body::Enrol(_) => write_event(alloc, "enrolled", number, noted, out),
        Body::Tested {
            attempt,
            staff,
            outcome,
            ..
        } => {
            write_test(alloc, number, noted, *attempt, staff, outcome, out)?;
            write_outcome(alloc, outcome, program, out)
        }
        Body::Rework(_) => write_event(alloc, "rework", number, noted, out),
        Body::Release(_) => write_event(alloc, "released", number, noted, out),
        Body::Scrap(_) => write_event(alloc, "scrapped", number, noted, out),
        Body::Adopt(_) | Body::Calibrate(_) | Body::Mark => Ok(()),
    }
}

/// Appends the line of a record that is no test.
fn write_event(
    alloc: Global,
    word: &str,
    number: u64,
    noted: &StationRecord,
    out: &mut Text,
) -> Result<(), Memory>
    requires { noted.now.moment ≤ last_moment }
    ensures { OnOk result (out.new ≡ out.old ++ event_line word.now number noted.now) }
{
    let date = date_of(alloc, noted)?;
    out.push_str(word)?;
    out.push_str(" record ")?;
    write_decimal(alloc, number, out)?;
    out.push_str(" ")?;
    out.push_str(date.as_str())?;
    out.push_str("\n")
}

/// Appends the line of a test.
fn write_test(
    alloc: Global,
    number: u64,
    noted: &StationRecord,
    attempt: u8,
    staff: &Option<Staff>,
    outcome: &Outcome,
    out: &mut Text,
) -> Result<(), Memory>
    requires moment { noted.now.moment ≤ last_moment }
    requires outcome { AreCountable outcome.now }
    ensures { OnOk result (out.new ≡ out.old ++ test_line number noted.now attempt staff.now outcome.now) }
{
    let date = date_of(alloc, noted)?;
    out.push_str("test record ")?;
    write_decimal(alloc, number, out)?;
    out.push_str(" ")?;
    out.push_str(date.as_str())?;
    out.push_str(" attempt ")?;
    write_decimal(alloc, attempt as u64, out)?;
    write_staff(staff, out)?;
    out.push_str(" ")?;
    write_verdict(alloc, &outcome.verdict(), out)?;
    out.push_str("\n")
}

/// Appends who made a test and where, where it names them.
fn write_staff(staff: &Option<Staff>, out: &mut Text) -> Result<(), Memory>
    ensures { OnOk result (out.new ≡ out.old ++ staff_text staff.now) }
{
    match staff {
        None => Ok(()),
        Some(staff) => {
            out.push_str(" by ")?;
            out.push_str(staff.operator.text())?;
            out.push_str(" on ")?;
            out.push_str(staff.fixture.text())
        }
    }
}
