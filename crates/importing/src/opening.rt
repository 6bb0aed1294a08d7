//! An import: the journal is opened, and the rows of the input are answered behind it.

ghost use Rattle.std.specs.Prelude.{◌≡◌, List, ℕ, MatchOption, Some};
ghost use Rattle.importing.specs.Imported.{ImportOpened};
ghost use Rattle.ledger.specs.Opening.{Says, found};
ghost use Rattle.records.specs.declared.record.StationRecord.{StationRecord};
ghost use Rattle.script.specs.Causes.{counts, Causes, Completes};
ghost use Rattle.script.specs.Opened.{RunRefused};
ghost use Rattle.wirelist.specs.Programs.{IsProgram};

use crate::input::answer_input;
use bench_edge::{Clock, Sink, Source};
use disk_edge::Disk;
use rig::Rig;
use script::{RunDone, RunEnd};
use station::Station;
use std::alloc::Global;
use unopened::{CallEnd, close_unopened};
use wirelist::Program;

/// Opens the journal on a disk, takes in the whole input, and answers its rows. A refused opening ends with its closing line.
pub fn import<R: Rig + Drop, D: Disk, I: Source, O: Sink, C: Clock>(
    alloc: Global,
    rig: R,
    disk: D,
    program: Program,
    input: &mut I,
    out: &mut O,
    clock: &mut C,
) -> RunDone<R, D>
    requires unpowered { (R.state rig).volts ≡ 0 }
    requires program { IsProgram program }
    requires fits { (R.state rig).points ≡ program.nets.points }
    ensures ends { MatchOption result.rig
        (RunRefused (D.state disk)
        (O.got out.old) (C.moments clock.old) (I.left input.old) result.status (D.state result.disk)
        (O.got out.new) (C.moments clock.new) (I.left input.new))
        (λ held. ImportOpened (R.state rig) program (D.state disk)
        (O.got out.old) (C.moments clock.old) (I.left input.old) result.status (R.state held) (D.state result.disk)
        (O.got out.new) (C.moments clock.new) (I.left input.new)) }
    ensures causes { MatchOption result.rig
        (Causes
        (counts (I.read_faults input.old) (O.write_faults out.old) (D.state disk).faults (R.state rig).faults)
        (counts (I.read_faults input.new) (O.write_faults out.new) (D.state result.disk).faults (R.state rig).faults) result.status)
        (λ held. Causes
        (counts (I.read_faults input.old) (O.write_faults out.old) (D.state disk).faults (R.state rig).faults)
        (counts (I.read_faults input.new) (O.write_faults out.new) (D.state result.disk).faults (R.state held).faults) result.status) }
    ensures complete { (file : List ℕ) (R0 : List StationRecord) → (D.state disk).reads_as ≡ Some file → Says file (found R0) → MatchOption result.rig
        (Completes
        (counts (I.read_faults input.old) (O.write_faults out.old) (D.state disk).faults (R.state rig).faults)
        (counts (I.read_faults input.new) (O.write_faults out.new) (D.state result.disk).faults (R.state rig).faults) result.status)
        (λ held. Completes
        (counts (I.read_faults input.old) (O.write_faults out.old) (D.state disk).faults (R.state rig).faults)
        (counts (I.read_faults input.new) (O.write_faults out.new) (D.state result.disk).faults (R.state held).faults) result.status) }
{
    match Station::mount(alloc, rig, disk, program) {
        Ok(station) => {
            let RunEnd { status, rig, disk } = answer_input(alloc, station, input, out, clock);
            RunDone {
                status,
                rig: Some(rig),
                disk,
            }
        }
        Err(stop) => {
            let CallEnd { status, disk } = close_unopened(alloc, stop, out);
            RunDone {
                status,
                rig: None,
                disk,
            }
        }
    }
}
