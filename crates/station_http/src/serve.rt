//! A connection: its request is read, answered and replied.

ghost use Rattle.std.specs.Prelude.{◌≡◌, List, ℕ, Option, None, IfOk};
ghost use Rattle.bench_edge.specs.Streams.{SameOtherHalf};
ghost use Rattle.station.specs.View.{StationState, IsStanding};
ghost use Rattle.http_exchange.specs.declared.request.Request.{Request};
ghost use Rattle.station_http.specs.ItsReply.{Replies, talk_of};
ghost use Rattle.station_http.specs.Ordered.{LeavesInOrder};
ghost use Rattle.station_http.specs.RigLeft.{Does, IsAtZero};
ghost use Rattle.station_http.specs.Served.{IsTurn, Served, Finishes};

use crate::turn::{Turn, turn_for};
use bench_edge::{Clock, EdgeStop, Sink, Source, write_all};
use disk_edge::Disk;
use http_exchange::{Stop, read_request, stop_reply};
use rig::Rig;
use station::{Station, StepStop};
use std::alloc::Global;

/// A connection that was served: the station goes on.
pub struct ServeDone<R: Rig, D: Disk> {
    pub station: Station<R, D>,
    /// The status of the reply that was written whole; None where the connection was cut.
    pub status: Option<u16>,
}

/// Serves one connection: reads its request, does what it asks, and replies.
///
/// The reply is written after the station's step returned. A stop comes after its reply was tried.
pub fn serve_one<R: Rig + Drop, D: Disk, S: Source + Sink, C: Clock>(
    alloc: Global,
    station: Station<R, D>,
    conn: &mut S,
    clock: &mut C,
) -> Result<ServeDone<R, D>, StepStop<R, D>>
    ensures served { Served R.state D.state station
        (record { left = S.left conn.old; got = S.got conn.old; read_faults = S.read_faults conn.old; write_faults = S.write_faults conn.old })
        (record { left = S.left conn.new; got = S.got conn.new; read_faults = S.read_faults conn.new; write_faults = S.write_faults conn.new })
        (C.moments clock.old) (C.moments clock.new) result }

    // Where the connection's bytes are told, it is its reply.
    ensures replies { Replies D.state station
        (talk_of (S.left conn.old) (S.got conn.old) (S.read_faults conn.old) (S.write_faults conn.old))
        (talk_of (S.left conn.new) (S.got conn.new) (S.read_faults conn.new) (S.write_faults conn.new))
        (C.moments clock.old) (C.moments clock.new) result }
    ensures standing { IfOk result (λ done. IsStanding done.station) }
    ensures order { LeavesInOrder R.state station result }
    ensures at_zero { IsAtZero R.state result }
    ensures rig { Does R.state station result }
{
    let _records = station.records();
    read_and_reply(alloc, station, conn, clock)
}

/// Reads a request, does what it asks, and replies.
fn read_and_reply<R: Rig + Drop, D: Disk, S: Source + Sink, C: Clock>(
    alloc: Global,
    station: Station<R, D>,
    conn: &mut S,
    clock: &mut C,
) -> Result<ServeDone<R, D>, StepStop<R, D>>
    ensures { Served R.state D.state station
        (record { left = S.left conn.old; got = S.got conn.old; read_faults = S.read_faults conn.old; write_faults = S.write_faults conn.old })
        (record { left = S.left conn.new; got = S.got conn.new; read_faults = S.read_faults conn.new; write_faults = S.write_faults conn.new })
        (C.moments clock.old) (C.moments clock.new) result }
{
    match read_request(alloc, conn) {
        Ok(heard) => match heard {
            Some(request) => {
                let turn = turn_for(alloc, station, clock, request);
                finish(conn, turn)
            }
            None => Ok(cut(station)),
        },
        Err(stop) => match stop {
            EdgeStop::Failed => Ok(cut(station)),
            EdgeStop::Memory => {
                let (rig, disk) = station.into_parts();
                let _tried = write_all(conn, stop_reply(Stop::Memory));
                Err(StepStop::Memory { rig, disk })
            }
        },
    }
}

/// No request came whole.
fn cut<R: Rig, D: Disk>(station: Station<R, D>) -> ServeDone<R, D>
    ensures station { result.station ≡ station }
    ensures status { result.status ≡ None }
{
    ServeDone {
        station,
        status: None,
    }
}

/// Writes the reply of a turn.
fn finish<R: Rig + Drop, D: Disk, S: Source + Sink>(
    conn: &mut S,
    turn: Turn<R, D>,
) -> Result<ServeDone<R, D>, StepStop<R, D>>
    ensures finishes { (old : StationState) (request : Request) (moments moments' : Option (List ℕ)) → IsTurn R.state D.state old request moments moments' turn
        → Finishes R.state D.state old request moments moments' (S.got conn.old) (S.got conn.new) (S.write_faults conn.old) (S.write_faults conn.new) result }
    ensures apart { SameOtherHalf (S.left conn.old) (S.left conn.new) (S.read_faults conn.old) (S.read_faults conn.new) }
{
    match turn {
        Turn::Goes {
            station,
            reply,
            status,
        } => match write_all(conn, reply.as_bytes()) {
            Ok(()) => Ok(ServeDone {
                station,
                status: Some(status),
            }),
            Err(why) => match why {
                EdgeStop::Failed => Ok(cut(station)),
                EdgeStop::Memory => {
                    let (rig, disk) = station.into_parts();
                    Err(StepStop::Memory { rig, disk })
                }
            },
        },
        Turn::Halts { stop, reply } => {
            let _tried = write_all(conn, reply.as_bytes());
            Err(stop)
        }
    }
}
