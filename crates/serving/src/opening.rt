//! A serving from its opening on: the journal is opened, the door listens, and connections are served.

ghost use Rattle.std.specs.Prelude.{◌≡◌, List, ℕ, Some, MatchOption};
ghost use Rattle.ledger.specs.Opening.{Says, found};
ghost use Rattle.records.specs.declared.record.StationRecord.{StationRecord};
ghost use Rattle.serving.specs.Completes.{Completes};
ghost use Rattle.serving.specs.Keeping.{Causes};
ghost use Rattle.serving.specs.Opened.{ServeRefused, ServeOpened, ServesFrom, counts};
ghost use Rattle.wirelist.specs.Programs.{IsProgram};

use crate::serving::{closed_for, serve_all};
use bench_edge::{Clock, Sink};
use disk_edge::Disk;
use door_edge::Door;
use rig::Rig;
use script::{RunDone, RunEnd};
use station::Station;
use std::alloc::Global;
use unopened::{CallEnd, close_unopened};
use wirelist::Program;

/// Opens the journal on a disk, listens on a port, and serves so many connections.
///
/// A refused opening ends with its closing line. Where the door does not listen the status is 11, or 9 where memory ran out, and no
/// connection is accepted. The others are those of [`serve_all`].
pub fn serve<R: Rig + Drop, D: Disk, O: Sink, C: Clock, N: Door>(
    alloc: Global,
    rig: R,
    disk: D,
    program: Program,
    port: u16,
    count: u32,
    out: &mut O,
    clock: &mut C,
    door: &mut N,
) -> RunDone<R, D>
    requires unpowered { (R.state rig).volts ≡ 0 }
    requires program { IsProgram program }
    requires fits { (R.state rig).points ≡ program.nets.points }
    ensures ends { MatchOption result.rig
        (ServeRefused (D.state disk)
        (record { waiting = N.waiting door.old; done = N.done door.old; moments = C.moments clock.old; got = O.got out.old })
        result.status (D.state result.disk)
        (record { waiting = N.waiting door.new; done = N.done door.new; moments = C.moments clock.new; got = O.got out.new }))
        (λ held. ServeOpened (R.state rig) program (D.state disk) count
        (record { waiting = N.waiting door.old; done = N.done door.old; moments = C.moments clock.old; got = O.got out.old })
        result.status (R.state held) (D.state result.disk)
        (record { waiting = N.waiting door.new; done = N.done door.new; moments = C.moments clock.new; got = O.got out.new })) }
    ensures causes { MatchOption result.rig
        (Causes
        (counts (O.write_faults out.old) (D.state disk).faults (R.state rig).faults (N.door_faults door.old))
        (counts (O.write_faults out.new) (D.state result.disk).faults (R.state rig).faults (N.door_faults door.new)) result.status)
        (λ held. Causes
        (counts (O.write_faults out.old) (D.state disk).faults (R.state rig).faults (N.door_faults door.old))
        (counts (O.write_faults out.new) (D.state result.disk).faults (R.state held).faults (N.door_faults door.new)) result.status) }
    ensures complete { (file : List ℕ) (R0 : List StationRecord) → (D.state disk).reads_as ≡ Some file → Says file (found R0) → MatchOption result.rig
        (Completes
        (counts (O.write_faults out.old) (D.state disk).faults (R.state rig).faults (N.door_faults door.old))
        (counts (O.write_faults out.new) (D.state result.disk).faults (R.state rig).faults (N.door_faults door.new)) result.status)
        (λ held. Completes
        (counts (O.write_faults out.old) (D.state disk).faults (R.state rig).faults (N.door_faults door.old))
        (counts (O.write_faults out.new) (D.state result.disk).faults (R.state held).faults (N.door_faults door.new)) result.status) }
{
    match Station::mount(alloc, rig, disk, program) {
        Ok(station) => {
            let RunEnd { status, rig, disk } = listen_and_serve(
                alloc, station, port, count, out, clock, door,
            );
            RunDone {
                status,
                rig: Some(rig),
                disk,
            }
        }
        Err(stop) => {
            let CallEnd { status, disk } = close_unopened(alloc, stop, out);
            RunDone {
                status,
                rig: None,
                disk,
            }
        }
    }
}

/// Listens on a port, and serves so many connections.
fn listen_and_serve<R: Rig + Drop, D: Disk, O: Sink, C: Clock, N: Door>(
    alloc: Global,
    station: Station<R, D>,
    port: u16,
    count: u32,
    out: &mut O,
    clock: &mut C,
    door: &mut N,
) -> RunEnd<R, D>
    ensures serves { ServesFrom count
        (record { station = station; waiting = N.waiting door.old; done = N.done door.old; moments = C.moments clock.old; got = O.got out.old })
        result.status
        (record {
          rig = R.state result.rig;
          disk = D.state result.disk;
          waiting = N.waiting door.new;
          done = N.done door.new;
          moments = C.moments clock.new;
          got = O.got out.new;
        }) }
    ensures causes { Causes
        (counts (O.write_faults out.old) station.disk.faults station.rig.faults (N.door_faults door.old))
        (counts (O.write_faults out.new) (D.state result.disk).faults (R.state result.rig).faults (N.door_faults door.new)) result.status }
{
    match door.listen(port) {
        Ok(()) => serve_all(alloc, station, count, out, clock, door),
        Err(stop) => {
            let (rig, disk) = station.into_parts();
            let status = closed_for(stop, out);
            RunEnd { status, rig, disk }
        }
    }
}
