//! Rows, and their answers.

ghost use Rattle.std.specs.Prelude.{◌≡◌, ℕ, IfOk, IfErr};
ghost use Rattle.disk_edge.specs.Disk.{LeavesOnly};
ghost use Rattle.importing.specs.RowsAnswered.{RowsHeadline};
ghost use Rattle.journal.specs.Journal.{KeepsLimit};
ghost use Rattle.script.specs.Causes.{counts, Causes, Completes, NoneFell};
ghost use Rattle.script.specs.Ends.{EndsIn};
ghost use Rattle.script.specs.Ran.{ScriptRan};
ghost use Rattle.script.specs.Scene.{Scene, IsScene};
ghost use Rattle.script.specs.Turns.{IsAnswered};
ghost use Rattle.station.specs.View.{IsStanding};

use bench_edge::{Clock, Sink};
use disk_edge::Disk;
use import_rows::{AskedRows, Enrolment};
use rig::Rig;
use script::{RunEnd, answer_command};
use station::Station;
use std::alloc::Global;

/// Answers the rows of an import in order.
pub fn run_rows<R: Rig, D: Disk, O: Sink, C: Clock>(
    alloc: Global,
    station: Station<R, D>,
    rows: &AskedRows,
    out: &mut O,
    clock: &mut C,
) -> RunEnd<R, D>
    ensures headline { (scene : Scene) → IsScene station (O.got out.old) (C.moments clock.old) scene
        → RowsHeadline scene station rows.now result.status (D.state result.disk) (O.got out.new) }
    ensures ran { ScriptRan station (O.got out.old) (O.got out.new) result.status (R.state result.rig) (D.state result.disk) }
    ensures causes { (input : ℕ) → Causes
        (counts input (O.write_faults out.old) station.disk.faults station.rig.faults)
        (counts input (O.write_faults out.new) (D.state result.disk).faults (R.state result.rig).faults) result.status }
    ensures complete { (input : ℕ) → Completes
        (counts input (O.write_faults out.old) station.disk.faults station.rig.faults)
        (counts input (O.write_faults out.new) (D.state result.disk).faults (R.state result.rig).faults) result.status }
    ensures limit { LeavesOnly station.disk (D.state result.disk) (KeepsLimit station.disk) }
{
    let _records = station.records();
    let mut current = station;
    for (number, enrolment) in rows.as_slice() {
        match answer_row(alloc, current, *number, enrolment, out, clock) {
            Ok(after) => current = after,
            Err(end) => return end,
        }
    }
    let (rig, disk) = current.into_parts();
    RunEnd {
        status: 0,
        rig,
        disk,
    }
}

/// Answers a row.
fn answer_row<R: Rig, D: Disk, O: Sink, C: Clock>(
    alloc: Global,
    station: Station<R, D>,
    number: u32,
    enrolment: &Option<Enrolment>,
    out: &mut O,
    clock: &mut C,
) -> Result<Station<R, D>, RunEnd<R, D>>
    ensures answered { IfOk result (λ after. IsAnswered station (number, enrolment.now) after
        (O.got out.old) (O.got out.new) (C.moments clock.old) (C.moments clock.new)) }
    ensures standing { IfOk result IsStanding }
    ensures ended { IfErr result (λ end. EndsIn station (number, enrolment.now) end.status (R.state end.rig) (D.state end.disk)
        (O.got out.old) (O.got out.new) (C.moments clock.old) (C.moments clock.new)) }
    ensures later { IfOk result (λ after. (input : ℕ) → NoneFell
        (counts input (O.write_faults out.old) station.disk.faults station.rig.faults)
        (counts input (O.write_faults out.new) after.disk.faults after.rig.faults)) }
    ensures causes { IfErr result (λ end. (input : ℕ) → Causes
        (counts input (O.write_faults out.old) station.disk.faults station.rig.faults)
        (counts input (O.write_faults out.new) (D.state end.disk).faults (R.state end.rig).faults) end.status) }
{
    match enrolment {
        Some(enrolment) => {
            let command = enrolment.command();
            answer_command(alloc, station, number, Some(command), out, clock)
        }
        None => answer_command(alloc, station, number, None, out, clock),
    }
}
