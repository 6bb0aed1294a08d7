//! The learning of a unit's wiring, from the seat to the text.

ghost use Rattle.std.specs.Prelude.{◌≡◌, false};
ghost use Rattle.bench_cli.specs.Closing.{sunk_by};
ghost use Rattle.bench_cli.specs.Findings.{LearnsAll, StopsLearning};
ghost use Rattle.bench_cli.specs.Learning.{LearnsUnit};
ghost use Rattle.bench_cli.specs.Run.{Read, read_by, IsUnread, Comes};
ghost use Rattle.bench_cli.specs.UnitEnds.{UnitEnds, SeatedEnds};

use crate::closing::{end_with_line, status, write_text};
use crate::taking::{Outcome, take_harness};
use crate::unit::{UnitEnded, end_unseated};
use bench_edge::{Sink, Source};
use learn::{LearnStop, Learned, learn};
use learned_program::text_of;
use rig::{Rig, Seated};
use std::alloc::Global;
use words::UnitName;

/// Reads the harness file and learns the unit's wiring; the wirelist is left alone.
pub fn learn_wiring<H: Source, O: Sink>(
    alloc: Global,
    unit: &UnitName,
    harness: &mut H,
    out: &mut O,
) -> Outcome
    ensures { (wires : Read) → IsUnread wires → Comes false (record {
      harness = read_by H.left H.read_faults harness.old harness.new;
      wires = wires;
    }) (sunk_by O.got O.write_faults out.old out.new) (LearnsUnit unit.now) result.status result.rig }
{
    match take_harness(alloc, harness, out) {
        Ok(sim) => {
            let UnitEnded { status, rig } = learn_unit(alloc, sim, unit, out);
            Outcome {
                status,
                rig: Some(rig),
            }
        }
        Err(outcome) => outcome,
    }
}

/// Seats the unit, learns its wiring by readings alone, and writes the program that it gives.
pub fn learn_unit<R: Rig, O: Sink>(
    alloc: Global,
    rig: R,
    unit: &UnitName,
    out: &mut O,
) -> UnitEnded<R>
    requires { (R.state rig).volts ≡ 0 }
    ensures { UnitEnds LearnsAll StopsLearning (R.state rig) (R.state result.rig)
        unit.now.serial unit.now.attempt (sunk_by O.got O.write_faults out.old out.new) result.status }
{
    match Seated::take(rig, unit.serial.text(), unit.attempt) {
        Ok(seat) => learn_seated(alloc, seat, out),
        Err(stop) => end_unseated(stop, out),
    }
}

/// Learns a seated unit, and writes the program.
fn learn_seated<R: Rig, O: Sink>(alloc: Global, seat: Seated<R>, out: &mut O) -> UnitEnded<R>
    ensures { SeatedEnds LearnsAll StopsLearning (R.state seat) (R.state result.rig) (sunk_by O.got O.write_faults out.old out.new) result.status }
{
    match learn(alloc, seat) {
        Ok(Learned { seat, partition }) => {
            let status = write_text(text_of(alloc, &partition), out);
            UnitEnded {
                status,
                rig: seat.into_rig(),
            }
        }
        Err(LearnStop::Rig(seat)) => {
            let status = end_with_line(out, b"rig fault\n", status::RIG_FAULT);
            UnitEnded {
                status,
                rig: seat.into_rig(),
            }
        }
        Err(LearnStop::Memory(seat)) => UnitEnded {
            status: status::NO_MEMORY,
            rig: seat.into_rig(),
        },
    }
}
