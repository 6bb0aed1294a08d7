//! The run of a script: both files read, the journal opened, and the commands answered.

ghost use Rattle.std.specs.Prelude.{◌≡◌, ℕ, List};
ghost use Rattle.words.specs.Words.{Asks};
ghost use Rattle.bench_cli.specs.Closing.{sunk_by};
ghost use Rattle.bench_cli.specs.Run.{Doorway, IsShut, read_by};
ghost use Rattle.bench_cli.specs.Ends.{Ends};

use crate::Ended;
use crate::taking::{Both, Outcome, take_both};
use bench_edge::{Clock, Sink, Source};
use disk_edge::Disk;
use script::RunDone;
use std::alloc::Global;
use words::Command;

/// Reads both files, opens the journal and answers the commands of the input.
pub fn run_station<H: Source, W: Source, I: Source, O: Sink, D: Disk, C: Clock>(
    alloc: Global,
    harness: &mut H,
    wires: &mut W,
    input: &mut I,
    out: &mut O,
    disk: D,
    clock: &mut C,
) -> Ended<D>
    ensures { (words : List (List ℕ)) (door : Doorway) → Asks words Command.Run → IsShut door → Ends (record {
      words = words;
      files = record {
        harness = read_by H.left H.read_faults harness.old harness.new;
        wires = read_by W.left W.read_faults wires.old wires.new;
      };
      input = read_by I.left I.read_faults input.old input.new;
      sunk = sunk_by O.got O.write_faults out.old out.new;
      disk = D.state disk;
      disk_after = D.state result.disk;
      moments = C.moments clock.old;
      moments_after = C.moments clock.new;
      door = door;
    }) result.status result.rig }
{
    match take_both(alloc, harness, wires, out) {
        Ok(Both { sim, p }) => {
            let RunDone { status, rig, disk } = script::run(alloc, sim, disk, p, input, out, clock);
            Ended { status, disk, rig }
        }
        Err(Outcome { status, rig }) => Ended { status, disk, rig },
    }
}
