//! The station served: both files read, the journal opened, and connections served.

ghost use Rattle.std.specs.Prelude.{◌≡◌, ℕ, List};
ghost use Rattle.words.specs.Words.{Asks};
ghost use Rattle.bench_cli.specs.Closing.{sunk_by};
ghost use Rattle.bench_cli.specs.Run.{Read, IsUnread, read_by, door_by};
ghost use Rattle.bench_cli.specs.Ends.{Ends};

use crate::Ended;
use crate::taking::{Both, Outcome, take_both};
use bench_edge::{Clock, Sink, Source};
use disk_edge::Disk;
use door_edge::Door;
use script::RunDone;
use std::alloc::Global;
use words::{Command, Service};

/// Reads both files, opens the journal, listens, and serves connections.
pub fn serve_station<H: Source, W: Source, O: Sink, D: Disk, C: Clock, N: Door>(
    alloc: Global,
    service: &Service,
    harness: &mut H,
    wires: &mut W,
    out: &mut O,
    disk: D,
    clock: &mut C,
    door: &mut N,
) -> Ended<D>
    ensures { (words : List (List ℕ)) (input : Read) → Asks words (Command.Serve service.now) → IsUnread input → Ends (record {
      words = words;
      files = record {
        harness = read_by H.left H.read_faults harness.old harness.new;
        wires = read_by W.left W.read_faults wires.old wires.new;
      };
      input = input;
      sunk = sunk_by O.got O.write_faults out.old out.new;
      disk = D.state disk;
      disk_after = D.state result.disk;
      moments = C.moments clock.old;
      moments_after = C.moments clock.new;
      door = door_by N.waiting N.done N.door_faults door.old door.new;
    }) result.status result.rig }
{
    match take_both(alloc, harness, wires, out) {
        Ok(Both { sim, p }) => {
            let Service { port, count } = *service;
            let RunDone { status, rig, disk } = serving::serve(
                alloc, sim, disk, p, port, count, out, clock, door,
            );
            Ended { status, disk, rig }
        }
        Err(Outcome { status, rig }) => Ended { status, disk, rig },
    }
}
