//! The check of a unit's continuity, from the seat to the text.

ghost use Rattle.std.specs.Prelude.{◌≡◌, true, length, zip};
ghost use Rattle.continuity_check.specs.Compared.{compared_of};
ghost use Rattle.bench_cli.specs.Closing.{sunk_by};
ghost use Rattle.bench_cli.specs.Findings.{ComparesAll, StopsAmong};
ghost use Rattle.bench_cli.specs.Checking.{ChecksUnit};
ghost use Rattle.bench_cli.specs.Run.{read_by, Comes};
ghost use Rattle.bench_cli.specs.UnitEnds.{UnitEnds, SeatedEnds};

use crate::closing::{end_with_line, status, write_text};
use crate::taking::{Both, Outcome, take_both};
use crate::unit::{UnitEnded, end_unseated};
use bench_edge::{Sink, Source};
use continuity_check::check_nets;
use partition::{Name, Nets};
use rig::{Rig, RigStop, Seated};
use std::alloc::Global;
use words::UnitName;

/// Reads both files and checks the unit.
pub fn continuity<H: Source, W: Source, O: Sink>(
    alloc: Global,
    unit: &UnitName,
    harness: &mut H,
    wires: &mut W,
    out: &mut O,
) -> Outcome
    ensures { Comes true (record {
      harness = read_by H.left H.read_faults harness.old harness.new;
      wires = read_by W.left W.read_faults wires.old wires.new;
    }) (sunk_by O.got O.write_faults out.old out.new) (ChecksUnit unit.now) result.status result.rig }
{
    match take_both(alloc, harness, wires, out) {
        Ok(Both { sim, p }) => {
            let UnitEnded { status, rig } = check_unit(
                alloc,
                sim,
                unit,
                p.names.as_slice(),
                &p.nets,
                out,
            );
            Outcome {
                status,
                rig: Some(rig),
            }
        }
        Err(outcome) => outcome,
    }
}

/// Seats the unit, makes all readings, and writes what they found.
pub fn check_unit<R: Rig, O: Sink>(
    alloc: Global,
    rig: R,
    unit: &UnitName,
    names: &[Name],
    nets: &Nets,
    out: &mut O,
) -> UnitEnded<R>
    requires unpowered { (R.state rig).volts ≡ 0 }
    requires names { length names.now ≡ length nets.now.named }
    requires points { nets.now.points ≡ (R.state rig).points }
    ensures { UnitEnds (ComparesAll (compared_of (zip names.now nets.now.named))) (StopsAmong (compared_of (zip names.now nets.now.named)))
        (R.state rig) (R.state result.rig) unit.now.serial unit.now.attempt (sunk_by O.got O.write_faults out.old out.new) result.status }
{
    match Seated::take(rig, unit.serial.text(), unit.attempt) {
        Ok(seat) => check_seated(alloc, seat, names, nets, out),
        Err(stop) => end_unseated(stop, out),
    }
}

/// Makes all readings of a seated unit, and writes what they found.
fn check_seated<R: Rig, O: Sink>(
    alloc: Global,
    mut seat: Seated<R>,
    names: &[Name],
    nets: &Nets,
    out: &mut O,
) -> UnitEnded<R>
    requires names { length names.now ≡ length nets.now.named }
    requires points { nets.now.points ≡ (R.state seat).points }
    ensures { SeatedEnds (ComparesAll (compared_of (zip names.now nets.now.named))) (StopsAmong (compared_of (zip names.now nets.now.named)))
        (R.state seat) (R.state result.rig) (sunk_by O.got O.write_faults out.old out.new) result.status }
{
    match check_nets(alloc, &mut seat, names, nets) {
        Ok(sheet) => {
            let status = write_text(sheet.into_text(alloc), out);
            UnitEnded {
                status,
                rig: seat.into_rig(),
            }
        }
        Err(RigStop::Failed) => {
            let status = end_with_line(out, b"rig fault\n", status::RIG_FAULT);
            UnitEnded {
                status,
                rig: seat.into_rig(),
            }
        }
        Err(RigStop::Memory) => UnitEnded {
            status: status::NO_MEMORY,
            rig: seat.into_rig(),
        },
    }
}
