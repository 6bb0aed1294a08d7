//! Connections, one after the other.

ghost use Rattle.std.specs.Prelude.{◌≡◌, ◌<◌, ◌≤◌, ◌^◌, ◌-◌, ℕ, List, Option, IfOk, IfErr};
ghost use Rattle.base.specs.Causes.{Rose};
ghost use Rattle.bench_edge.specs.Whole.{WroteFront};
ghost use Rattle.disk_edge.specs.Disk.{LeavesOnly};
ghost use Rattle.door_edge.specs.Doors.{Talk};
ghost use Rattle.journal.specs.Journal.{KeepsLimit};
ghost use Rattle.ledger.specs.Ledger.{Tells as TellsDisk};
ghost use Rattle.station.specs.View.{StationState, IsTold};
ghost use Rattle.unit_outcome.specs.Found.{Findings};
ghost use Rattle.unit_outcome.specs.Tested.{IsInOrderOf};
ghost use Rattle.station_http.specs.Served.{Served};
ghost use Rattle.serving.specs.Completes.{Completes};
ghost use Rattle.serving.specs.Counted.{AnswersWithin, TestsSpend};
ghost use Rattle.serving.specs.InTurn.{ServesTold};
ghost use Rattle.serving.specs.Keeping.{ServingKeeps, Causes, InOrderAt};
ghost use Rattle.serving.specs.Lines.{status_of, closing_line, closed_as, unwritten_as};
ghost use Rattle.serving.specs.Tallied.{ServingShows};
ghost use Rattle.serving.specs.Visits.{IsVisited, ServedSo, Serves, EndsAt, Tells, closing_of, rig_of, disk_of};

use crate::telling::{close, line_of, write_line};
use bench_edge::{Clock, EdgeStop, Sink};
use disk_edge::Disk;
use door_edge::Door;
use rig::Rig;
use script::RunEnd;
use station::Station;
use station_http::{ServeDone, ServeStop, serve_one};
use std::alloc::Global;

/// Serves so many connections, and writes the line of each and the closing line.
///
/// The status is 0 where all were served and told, 7 where a write to `out` failed, 8 where the disk failed, 9 where memory ran out,
/// 10 where three zero calls failed, and 11 where the door failed.
pub fn serve_all<R: Rig + Drop, D: Disk, O: Sink, C: Clock, N: Door>(
    alloc: Global,
    station: Station<R, D>,
    count: u32,
    out: &mut O,
    clock: &mut C,
    door: &mut N,
) -> RunEnd<R, D>
    ensures serves { Serves R.state D.state count
        (record { station = station; waiting = N.waiting door.old; done = N.done door.old; moments = C.moments clock.old; got = O.got out.old })
        result.status
        (record {
          rig = R.state result.rig;
          disk = D.state result.disk;
          waiting = N.waiting door.new;
          done = N.done door.new;
          moments = C.moments clock.new;
          got = O.got out.new;
        }) }
    ensures keeps { TellsDisk station.disk → ServingKeeps station result.status (D.state result.disk) }
    ensures limit { LeavesOnly station.disk (D.state result.disk) (KeepsLimit station.disk) }
    ensures order { IsInOrderOf station.program station.rig → InOrderAt station.program result.status (R.state result.rig) }
    ensures causes { Causes (record { out = O.write_faults out.old; disk = station.disk.faults; rig = station.rig.faults; door = N.door_faults door.old })
        (record { out = O.write_faults out.new; disk = (D.state result.disk).faults; rig = (R.state result.rig).faults; door = N.door_faults door.new })
        result.status }

    // Where the door and the output are told, and the rig tells its units, the connections are served in order.
    ensures in_order { (findings : Findings) → IsTold station findings → ServesTold findings
        (record { station = station; waiting = N.waiting door.old; done = N.done door.old; moments = C.moments clock.old; got = O.got out.old })
        count result.status
        (record {
          rig = R.state result.rig;
          disk = D.state result.disk;
          waiting = N.waiting door.new;
          done = N.done door.new;
          moments = C.moments clock.new;
          got = O.got out.new;
        }) }
    ensures answers { AnswersWithin R.state D.state count
        (record { station = station; waiting = N.waiting door.old; done = N.done door.old; moments = C.moments clock.old; got = O.got out.old })
        result.status
        (record {
          rig = R.state result.rig;
          disk = D.state result.disk;
          waiting = N.waiting door.new;
          done = N.done door.new;
          moments = C.moments clock.new;
          got = O.got out.new;
        }) }
    ensures complete { Completes (record { out = O.write_faults out.old; disk = station.disk.faults; rig = station.rig.faults; door = N.door_faults door.old })
        (record { out = O.write_faults out.new; disk = (D.state result.disk).faults; rig = (R.state result.rig).faults; door = N.door_faults door.new })
        result.status }
    ensures tests { TellsDisk station.disk → ServingShows station result.status (R.state result.rig) (D.state result.disk) }
    ensures spent { TellsDisk station.disk → TestsSpend R.state D.state count
        (record { station = station; waiting = N.waiting door.old; done = N.done door.old; moments = C.moments clock.old; got = O.got out.old })
        result.status
        (record {
          rig = R.state result.rig;
          disk = D.state result.disk;
          waiting = N.waiting door.new;
          done = N.done door.new;
          moments = C.moments clock.new;
          got = O.got out.new;
        }) }
{
    let _records = station.records();
    serve_each(alloc, station, count, out, clock, door)
}

/// The connections, one after the other.
fn serve_each<R: Rig + Drop, D: Disk, O: Sink, C: Clock, N: Door>(
    alloc: Global,
    station: Station<R, D>,
    count: u32,
    out: &mut O,
    clock: &mut C,
    door: &mut N,
) -> RunEnd<R, D>
    ensures serves { Serves R.state D.state count
        (record { station = station; waiting = N.waiting door.old; done = N.done door.old; moments = C.moments clock.old; got = O.got out.old })
        result.status
        (record {
          rig = R.state result.rig;
          disk = D.state result.disk;
          waiting = N.waiting door.new;
          done = N.done door.new;
          moments = C.moments clock.new;
          got = O.got out.new;
        }) }
    ensures out_later { O.write_faults out.old ≤ O.write_faults out.new }
    ensures door_later { N.door_faults door.old ≤ N.door_faults door.new }
    ensures out_cause { result.status ≡ 7 → Rose (O.write_faults out.old) (O.write_faults out.new) }
    ensures door_cause { result.status ≡ 11 → Rose (N.door_faults door.old) (N.door_faults door.new) }
{
    let mut station = station;
    for number in 0..count {
        match serve_next(alloc, station, number + 1, out, clock, door) {
            Ok(next) => station = next,
            Err(end) => return end,
        }
    }
    let (rig, disk) = station.into_parts();
    RunEnd {
        status: 0,
        rig,
        disk,
    }
}

/// The next connection: accepted, served, finished and told.
fn serve_next<R: Rig + Drop, D: Disk, O: Sink, C: Clock, N: Door>(
    alloc: Global,
    station: Station<R, D>,
    number: u32,
    out: &mut O,
    clock: &mut C,
    door: &mut N,
) -> Result<Station<R, D>, RunEnd<R, D>>
    ensures visited { IfOk result (λ after. IsVisited number
        (record { station = station; waiting = N.waiting door.old; done = N.done door.old; moments = C.moments clock.old; got = O.got out.old })
        (record { station = after; waiting = N.waiting door.new; done = N.done door.new; moments = C.moments clock.new; got = O.got out.new })) }
    ensures ended { IfErr result (λ end. EndsAt R.state D.state number
        (record { station = station; waiting = N.waiting door.old; done = N.done door.old; moments = C.moments clock.old; got = O.got out.old })
        end.status
        (record {
          rig = R.state end.rig;
          disk = D.state end.disk;
          waiting = N.waiting door.new;
          done = N.done door.new;
          moments = C.moments clock.new;
          got = O.got out.new;
        })) }
    ensures out_later { O.write_faults out.old ≤ O.write_faults out.new }
    ensures door_later { N.door_faults door.old ≤ N.door_faults door.new }
    ensures out_cause { IfErr result (λ end. end.status ≡ 7 → Rose (O.write_faults out.old) (O.write_faults out.new)) }
    ensures door_cause { IfErr result (λ end. end.status ≡ 11 → Rose (N.door_faults door.old) (N.door_faults door.new)) }
{
    match door.accept() {
        Ok(conn) => {
            let mut conn = conn;
            let served = serve_one(alloc, station, &mut conn, clock);
            door.finish(conn);
            tell(alloc, number, served, out)
        }
        Err(stop) => {
            let (rig, disk) = station.into_parts();
            let status = closed_for(stop, out);
            Err(RunEnd { status, rig, disk })
        }
    }
}

/// The status where the door refused, whose closing line is written.
pub(crate) fn closed_for<O: Sink>(stop: EdgeStop, out: &mut O) -> u8
    ensures status { result ≡ status_of (closed_as stop) }
    ensures line { WroteFront (O.got out.old) (O.got out.new) (closing_line (closed_as stop)) }
    ensures out_later { O.write_faults out.old ≤ O.write_faults out.new }
    ensures failed { result ≡ 11 → stop ≡ EdgeStop.Failed }
    ensures other { result ≡ 7 → ⊥ }
{
    match stop {
        EdgeStop::Failed => {
            close(out, b"network fault\n");
            11
        }
        EdgeStop::Memory => 9,
    }
}

/// Writes the line of a connection that was served, or the closing line of one that ended the station.
fn tell<R: Rig + Drop, D: Disk, O: Sink>(
    alloc: Global,
    number: u32,
    served: Result<ServeDone<R, D>, ServeStop<R, D>>,
    out: &mut O,
) -> Result<Station<R, D>, RunEnd<R, D>>
    ensures tells { (old : StationState) (came went : Talk) (moments moments' : Option (List ℕ)) → Served R.state D.state old came went moments moments' served
        → Tells R.state D.state number old came went moments moments' (O.got out.old) (O.got out.new) result }
    ensures out_later { O.write_faults out.old ≤ O.write_faults out.new }
    ensures out_cause { IfErr result (λ end. end.status ≡ 7 → Rose (O.write_faults out.old) (O.write_faults out.new)) }
    ensures no_door { IfErr result (λ end. end.status ≡ 11 → ⊥) }
{
    match served {
        Ok(done) => told(alloc, number, done, out),
        Err(stop) => Err(ended(stop, out)),
    }
}

/// Writes the line of a connection that was served.
fn told<R: Rig + Drop, D: Disk, O: Sink>(
    alloc: Global,
    number: u32,
    done: ServeDone<R, D>,
    out: &mut O,
) -> Result<Station<R, D>, RunEnd<R, D>>
    ensures tells { (old : StationState) (came went : Talk) (moments moments' : Option (List ℕ))
        → ServedSo old came went moments moments' done.status done.station
        → Tells R.state D.state number old came went moments moments' (O.got out.old) (O.got out.new) result }
    ensures out_later { O.write_faults out.old ≤ O.write_faults out.new }
    ensures out_cause { IfErr result (λ end. end.status ≡ 7 → Rose (O.write_faults out.old) (O.write_faults out.new)) }
    ensures no_door { IfErr result (λ end. end.status ≡ 11 → ⊥) }
{
    let ServeDone { station, status } = done;
    let line = line_of(alloc, number, status);
    match write_line(out, line) {
        Ok(()) => Ok(station),
        Err(stop) => {
            let (rig, disk) = station.into_parts();
            let status = status_for(stop);
            Err(RunEnd { status, rig, disk })
        }
    }
}

/// The end where a connection ended the station.
fn ended<R: Rig + Drop, D: Disk, O: Sink>(stop: ServeStop<R, D>, out: &mut O) -> RunEnd<R, D>
    ensures status { result.status ≡ status_of (closing_of stop) }
    ensures rig { R.state result.rig ≡ rig_of R.state stop }
    ensures disk { D.state result.disk ≡ disk_of D.state stop }
    ensures line { WroteFront (O.got out.old) (O.got out.new) (closing_line (closing_of stop)) }
    ensures out_later { O.write_faults out.old ≤ O.write_faults out.new }
    ensures no_line { result.status ≡ 7 → ⊥ }
    ensures no_door { result.status ≡ 11 → ⊥ }
{
    match stop {
        ServeStop::Disk { rig, disk } => {
            close(out, b"disk fault\n");
            RunEnd {
                status: 8,
                rig,
                disk,
            }
        }
        ServeStop::NotZero { stuck, disk } => {
            close(out, b"source not at zero\n");
            RunEnd {
                status: 10,
                rig: stuck.into_rig(),
                disk,
            }
        }
        ServeStop::Memory { rig, disk } => RunEnd {
            status: 9,
            rig,
            disk,
        },
    }
}

fn status_for(stop: EdgeStop) -> u8
    ensures status { result ≡ status_of (unwritten_as stop) }
    ensures failed { result ≡ 7 → stop ≡ EdgeStop.Failed }
    ensures no_door { result ≡ 11 → ⊥ }
{
    match stop {
        EdgeStop::Failed => 7,
        EdgeStop::Memory => 9,
    }
}
