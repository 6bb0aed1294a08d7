//! The input of an import.

ghost use Rattle.std.specs.Prelude.{◌≡◌, ◌≤◌, ℕ, IfErr, IfOk, List};
ghost use Rattle.std.specs.Result.{result_err};
ghost use Rattle.base.specs.Causes.{HasCause};
ghost use Rattle.bench_edge.specs.Whole.{WroteFront};
ghost use Rattle.disk_edge.specs.Disk.{LeavesOnly};
ghost use Rattle.importing.specs.Input.{AreAsked, IsCause, TakesInput, stop_line, stop_status};
ghost use Rattle.journal.specs.Journal.{KeepsLimit};
ghost use Rattle.script.specs.Causes.{counts, Causes, Completes};
ghost use Rattle.script.specs.Keeping.{ScriptKeeps};
ghost use Rattle.ledger.specs.Ledger.{Tells};

use crate::rows::run_rows;
use bench_edge::{Clock, EdgeStop, Sink, Source, read_upto, write_all};
use disk_edge::Disk;
use import_rows::{AskedRows, ImportStop, read_import};
use rig::Rig;
use script::RunEnd;
use station::Station;
use std::alloc::Global;

/// One byte more than an input may have.
const READ_BYTES: usize = 8_388_609;

/// Why an input asks nothing.
#[derive(Clone, Copy, Debug, PartialEq, Eq)]
pub enum InputStop {
    /// A read failed.
    Failed,
    /// It has more than 8,388,608 bytes or more than 100,000 records.
    TooLong,
    /// Memory ran out.
    Memory,
}

impl From<EdgeStop> for InputStop {
    ghost use Rattle.std.specs.Prelude.{◌≡◌};
    ghost use Rattle.importing.specs.Input.{stop_of_read};

    ghost from_gives = { λ stop e. e ≡ stop_of_read stop };

    fn from(stop: EdgeStop) -> Self {
        match stop {
            EdgeStop::Failed => InputStop::Failed,
            EdgeStop::Memory => InputStop::Memory,
        }
    }
}

impl From<ImportStop> for InputStop {
    ghost use Rattle.std.specs.Prelude.{◌≡◌};
    ghost use Rattle.importing.specs.Input.{stop_of_rows};

    ghost from_gives = { λ stop e. e ≡ stop_of_rows stop };

    fn from(stop: ImportStop) -> Self {
        match stop {
            ImportStop::TooLong => InputStop::TooLong,
            ImportStop::Memory => InputStop::Memory,
        }
    }
}

/// Reads the whole input, and answers its rows.
pub fn answer_input<R: Rig, D: Disk, I: Source, O: Sink, C: Clock>(
    alloc: Global,
    station: Station<R, D>,
    input: &mut I,
    out: &mut O,
    clock: &mut C,
) -> RunEnd<R, D>
    ensures takes { TakesInput station (I.left input.old) (I.left input.new) (O.got out.old) (O.got out.new)
        (C.moments clock.old) (C.moments clock.new) result.status (R.state result.rig) (D.state result.disk) }
    ensures keeps { Tells station.disk → ScriptKeeps station result.status (D.state result.disk) }
    ensures causes { Causes
        (counts (I.read_faults input.old) (O.write_faults out.old) station.disk.faults station.rig.faults)
        (counts (I.read_faults input.new) (O.write_faults out.new) (D.state result.disk).faults (R.state result.rig).faults) result.status }
    ensures complete { Completes
        (counts (I.read_faults input.old) (O.write_faults out.old) station.disk.faults station.rig.faults)
        (counts (I.read_faults input.new) (O.write_faults out.new) (D.state result.disk).faults (R.state result.rig).faults) result.status }
    ensures limit { LeavesOnly station.disk (D.state result.disk) (KeepsLimit station.disk) }
{
    let _records = station.records();
    match read_input(alloc, input) {
        Ok(rows) => run_rows(alloc, station, &rows, out, clock),
        Err(stop) => {
            let status = close_input(out, stop);
            let (rig, disk) = station.into_parts();
            RunEnd { status, rig, disk }
        }
    }
}

/// Reads the whole input, and what its rows ask.
fn read_input<I: Source>(alloc: Global, input: &mut I) -> Result<AskedRows, InputStop>
    ensures asked { IfOk result (λ rows. AreAsked rows (I.left input.old) (I.left input.new)) }
    ensures long { IfErr result (λ stop. IsCause stop (I.left input.old)) }
    ensures cause { HasCause (I.read_faults input.old) (I.read_faults input.new) (result_err result) InputStop.Failed }
{
    let bytes = read_upto(alloc, input, READ_BYTES)?;
    let rows = read_import(alloc, bytes.as_slice())?;
    Ok(rows)
}

/// Writes the closing line of an input that asks nothing, or a front of it, and gives the status.
fn close_input<O: Sink>(out: &mut O, stop: InputStop) -> u8
    ensures status { result ≡ stop_status stop }
    ensures line { WroteFront (O.got out.old) (O.got out.new) (stop_line stop) }
    ensures later { O.write_faults out.old ≤ O.write_faults out.new }
{
    match stop {
        InputStop::Failed => {
            close(out, b"read fault\n");
            6
        }
        InputStop::TooLong => {
            close(out, b"input too long\n");
            12
        }
        InputStop::Memory => {
            close(out, b"");
            9
        }
    }
}

/// Writes a closing line, or a front of it: what fails here changes nothing.
fn close<O: Sink>(out: &mut O, line: &[u8])
    ensures line { WroteFront (O.got out.old) (O.got out.new) line.now }
    ensures later { O.write_faults out.old ≤ O.write_faults out.new }
{
    let _ = write_all(out, line);
}
