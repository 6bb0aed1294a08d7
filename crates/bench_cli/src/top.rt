//! The top call.

ghost use Rattle.std.specs.Prelude.{◌≡◌, ℕ, List, map, string_bytes};
ghost use Rattle.words.specs.Words.{Asks};
ghost use Rattle.bench_cli.specs.Closing.{sunk_by};
ghost use Rattle.bench_cli.specs.Run.{Read, read_by, door_by};
ghost use Rattle.bench_cli.specs.Ends.{Ends};
ghost use Rattle.bench_cli.specs.Promises.{IsRun};

use crate::check::continuity;
use crate::closing::{end_with_line, status};
use crate::learning::learn_wiring;
use crate::printing::print_report;
use crate::scripting::run_station;
use crate::serial_import::import_serials;
use crate::service::serve_station;
use crate::soaking::soak_units;
use crate::taking::Outcome;
use base::Memory;
use bench_edge::{Clock, Sink, Source};
use disk_edge::Disk;
use door_edge::Door;
use reporting::Report;
use rig_sim::SimRig;
use std::alloc::Global;
use words::{Command, read_words};

const USAGE: &str =
    "usage: bench continuity|learn|run|serve|report|unit|import|export|soak [options]\n";

/// How a run ended: the exit status, the disk, and the simulator where it is handed out.
pub struct Ended<D> {
    pub status: u8,
    pub disk: D,
    pub rig: Option<SimRig>,
}

/// Does what the words ask: reads the files of the command, does its work and writes what was found, or why there is nothing to write.
#[tactic(auto, using(crate::proofs::facts::IsRunFacts::is_run))]
pub fn bench<H: Source, W: Source, I: Source, O: Sink, D: Disk, C: Clock, N: Door>(
    alloc: Global,
    words: &[String],
    harness: &mut H,
    wires: &mut W,
    input: &mut I,
    out: &mut O,
    disk: D,
    clock: &mut C,
    door: &mut N,
) -> Ended<D>
    ensures { IsRun (record {
      words = map string_bytes words.now;
      files = record {
        harness = read_by H.left H.read_faults harness.old harness.new;
        wires = read_by W.left W.read_faults wires.old wires.new;
      };
      input = read_by I.left I.read_faults input.old input.new;
      sunk = sunk_by O.got O.write_faults out.old out.new;
      disk = D.state disk;
      disk_after = D.state result.disk;
      moments = C.moments clock.old;
      moments_after = C.moments clock.new;
      door = door_by N.waiting N.done N.door_faults door.old door.new;
    }) result.status result.rig }
{
    run(alloc, words, harness, wires, input, out, disk, clock, door)
}

/// Reads the words, and ends in one of the ways of a run.
fn run<H: Source, W: Source, I: Source, O: Sink, D: Disk, C: Clock, N: Door>(
    alloc: Global,
    words: &[String],
    harness: &mut H,
    wires: &mut W,
    input: &mut I,
    out: &mut O,
    disk: D,
    clock: &mut C,
    door: &mut N,
) -> Ended<D>
    ensures { Ends (record {
      words = map string_bytes words.now;
      files = record {
        harness = read_by H.left H.read_faults harness.old harness.new;
        wires = read_by W.left W.read_faults wires.old wires.new;
      };
      input = read_by I.left I.read_faults input.old input.new;
      sunk = sunk_by O.got O.write_faults out.old out.new;
      disk = D.state disk;
      disk_after = D.state result.disk;
      moments = C.moments clock.old;
      moments_after = C.moments clock.new;
      door = door_by N.waiting N.done N.door_faults door.old door.new;
    }) result.status result.rig }
{
    match read_words(alloc, words) {
        Ok(Some(command)) => obey(
            alloc, &command, harness, wires, input, out, disk, clock, door,
        ),
        Ok(None) => Ended {
            status: end_with_line(out, USAGE.as_bytes(), status::NO_COMMAND),
            disk,
            rig: None,
        },
        Err(Memory) => Ended {
            status: status::NO_MEMORY,
            disk,
            rig: None,
        },
    }
}

/// Does what the command asks. A new command has an arm here.
fn obey<H: Source, W: Source, I: Source, O: Sink, D: Disk, C: Clock, N: Door>(
    alloc: Global,
    command: &Command,
    harness: &mut H,
    wires: &mut W,
    input: &mut I,
    out: &mut O,
    disk: D,
    clock: &mut C,
    door: &mut N,
) -> Ended<D>
    requires { (words : List (List ℕ)) × Asks words command.now }
    ensures { (words : List (List ℕ)) → Asks words command.now → Ends (record {
      words = words;
      files = record {
        harness = read_by H.left H.read_faults harness.old harness.new;
        wires = read_by W.left W.read_faults wires.old wires.new;
      };
      input = read_by I.left I.read_faults input.old input.new;
      sunk = sunk_by O.got O.write_faults out.old out.new;
      disk = D.state disk;
      disk_after = D.state result.disk;
      moments = C.moments clock.old;
      moments_after = C.moments clock.new;
      door = door_by N.waiting N.done N.door_faults door.old door.new;
    }) result.status result.rig }
{
    match command {
        Command::Continuity(unit) => {
            let Outcome { status, rig } = continuity(alloc, unit, harness, wires, out);
            Ended { status, disk, rig }
        }
        Command::Learn(unit) => {
            let Outcome { status, rig } = learn_wiring(alloc, unit, harness, out);
            Ended { status, disk, rig }
        }
        Command::Run => run_station(alloc, harness, wires, input, out, disk, clock),
        Command::Import => import_serials(alloc, harness, wires, input, out, disk, clock),
        Command::Serve(service) => {
            serve_station(alloc, service, harness, wires, out, disk, clock, door)
        }
        Command::Report => print_report(alloc, &Report::Lot, out, disk),
        Command::Unit(serial) => print_report(alloc, &Report::Unit(*serial), out, disk),
        Command::Export => print_report(alloc, &Report::Results, out, disk),
        Command::Soak(points) => {
            let Outcome { status, rig } = soak_units(alloc, *points, out);
            Ended { status, disk, rig }
        }
    }
}
