//! What is written of the records.

ghost use Rattle.std.specs.Prelude.{◌≡◌, ◌<◌, ◌^◌, All, IfOk, OnOk, OnErr, length};
ghost use Rattle.std.specs.Io.KnownBytes.{Appends};
ghost use Rattle.std.specs.Result.{result_err};
ghost use Rattle.base.specs.Causes.{HasCause};
ghost use Rattle.bench_edge.specs.Whole.{WrotePart};
ghost use Rattle.bench_edge.specs.declared.stream.EdgeStop.TheVariants as stop;
ghost use Rattle.records.specs.RecordRanges.{IsRecord};
ghost use Rattle.report.specs.LotText.{lot_text};
ghost use Rattle.report.specs.ResultText.{result_text};
ghost use Rattle.reporting.specs.Reported.{Prints, WriteCause, report_text, unit_lines, unknown_text};

use crate::reporting::Report;
use base::{Memory, Text};
use bench_edge::{EdgeStop, Sink, write_all};
use partition::Name;
use records::RecordList;
use report::{lot_report, results_csv, unit_report};
use std::alloc::Global;

/// Writes what is asked of the records, and gives the exit status.
pub(crate) fn print<O: Sink>(
    alloc: Global,
    report: &Report,
    records: &RecordList,
    out: &mut O,
) -> u8
    requires in_range { All IsRecord records.now }
    requires few { length records.now < 2 ^ 32 }
    ensures prints { Prints (report_text report.now records.now) result (O.got out.old) (O.got out.new) }
    ensures cause { WriteCause (O.write_faults out.old) (O.write_faults out.new) result }
{
    let printed = match report {
        Report::Lot => print_lot(alloc, records, out),
        Report::Unit(serial) => print_unit(alloc, records, *serial, out),
        Report::Results => print_results(alloc, records, out),
    };
    match printed {
        Ok(()) => 0,
        Err(EdgeStop::Failed) => 7,
        Err(EdgeStop::Memory) => 9,
    }
}

/// Writes the lot report.
fn print_lot<O: Sink>(alloc: Global, records: &RecordList, out: &mut O) -> Result<(), EdgeStop>
    requires in_range { All IsRecord records.now }
    requires few { length records.now < 2 ^ 32 }
    ensures whole { OnOk result (Appends (O.got out.old) (O.got out.new) (lot_text records.now)) }
    ensures part { OnErr result (WrotePart (O.got out.old) (O.got out.new) (lot_text records.now)) }
    ensures cause { HasCause (O.write_faults out.old) (O.write_faults out.new) (result_err result) stop.Failed }
{
    let text = lot_report(alloc, records)?;
    write_all(out, text.as_bytes())
}

/// Writes the results file.
fn print_results<O: Sink>(alloc: Global, records: &RecordList, out: &mut O) -> Result<(), EdgeStop>
    requires in_range { All IsRecord records.now }
    requires few { length records.now < 2 ^ 32 }
    ensures whole { OnOk result (Appends (O.got out.old) (O.got out.new) (result_text records.now)) }
    ensures part { OnErr result (WrotePart (O.got out.old) (O.got out.new) (result_text records.now)) }
    ensures cause { HasCause (O.write_faults out.old) (O.write_faults out.new) (result_err result) stop.Failed }
{
    let text = results_csv(alloc, records)?;
    write_all(out, text.as_slice())
}

/// Writes the report of a unit, or that it is not enrolled.
fn print_unit<O: Sink>(
    alloc: Global,
    records: &RecordList,
    serial: Name,
    out: &mut O,
) -> Result<(), EdgeStop>
    requires in_range { All IsRecord records.now }
    requires few { length records.now < 2 ^ 32 }
    ensures whole { OnOk result (Appends (O.got out.old) (O.got out.new) (unit_lines records.now serial)) }
    ensures part { OnErr result (WrotePart (O.got out.old) (O.got out.new) (unit_lines records.now serial)) }
    ensures cause { HasCause (O.write_faults out.old) (O.write_faults out.new) (result_err result) stop.Failed }
{
    match unit_report(alloc, records, serial)? {
        Some(text) => write_all(out, text.as_bytes()),
        None => {
            let line = unknown_line(alloc, &serial)?;
            write_all(out, line.as_bytes())
        }
    }
}

/// The line of a serial that is not enrolled.
fn unknown_line(alloc: Global, serial: &Name) -> Result<Text, Memory>
    ensures { IfOk result (λ line. line ≡ unknown_text serial.now) }
{
    let mut line = Text::from_text(alloc, "unit ")?;
    line.push_str(serial.text())?;
    line.push_str(": not enrolled\n")?;
    Ok(line)
}
