//! The soak: two units of known wiring, tested after each other.

ghost use Rattle.std.specs.Prelude.{◌≡◌, ◌≤◌, ◌⊎◌, ℕ, IfOk};
ghost use Rattle.wirelist.specs.Outcomes.{verdict_of};
ghost use Rattle.wirelist.specs.Outcomes.{AreCountable};
ghost use Rattle.soak.specs.Soaked.{StopsSoak};
ghost use Rattle.soak_pair.specs.Pair.{verdicts_line};
ghost use Rattle.bench_cli.specs.Closing.{sunk_by, Closes, LacksMemory};
ghost use Rattle.bench_cli.specs.Soaking.{SoakEnds, not_at_zero_line};

use crate::closing::{end_with_line, status, write_text};
use crate::taking::Outcome;
use base::{Bytes, Memory};
use bench_edge::Sink;
use soak::{SoakStop, Soaked, run_pair};
use soak_pair::soak_text;
use std::alloc::Global;
use wirelist::Outcome as UnitOutcome;

/// Tests both units over this many points, and writes the line of their verdicts.
pub fn soak_units<O: Sink>(alloc: Global, points: u16, out: &mut O) -> Outcome
    requires some { 1 ≤ points }
    requires few { points ≤ 4096 }
    ensures { SoakEnds points (sunk_by O.got O.write_faults out.old out.new) result.status result.rig }
{
    match run_pair(alloc, points) {
        Ok(Soaked { good, bad, rig }) => Outcome {
            status: write_text(line_of(alloc, points, &good, &bad), out),
            rig: Some(rig),
        },
        Err(stop) => end_soak(stop, out),
    }
}

/// Writes why one of the units has no outcome.
fn end_soak<O: Sink>(stop: SoakStop, out: &mut O) -> Outcome
    ensures { (n : ℕ) → StopsSoak n stop → SoakEnds n (sunk_by O.got O.write_faults out.old out.new) result.status result.rig }
{
    match stop {
        SoakStop::RigFault(rig) => Outcome {
            status: end_with_line(out, b"rig fault\n", status::RIG_FAULT),
            rig: Some(rig),
        },
        SoakStop::NotZero(rig) => Outcome {
            status: end_stuck(out),
            rig: Some(rig),
        },
        SoakStop::Memory(rig) => Outcome {
            status: status::NO_MEMORY,
            rig,
        },
    }
}

/// Writes that the source is not at zero. Nothing changes that status.
fn end_stuck<O: Sink>(out: &mut O) -> u8
    ensures status { result ≡ 10 }
    ensures line { Closes (sunk_by O.got O.write_faults out.old out.new) not_at_zero_line
        ⊎ LacksMemory (sunk_by O.got O.write_faults out.old out.new) not_at_zero_line }
{
    let _line = end_with_line(out, b"source not at zero\n", status::NOT_AT_ZERO);
    status::NOT_AT_ZERO
}

/// The line of the two outcomes.
fn line_of(
    alloc: Global,
    points: u16,
    good: &UnitOutcome,
    bad: &UnitOutcome,
) -> Result<Bytes, Memory>
    requires good { AreCountable good.now }
    requires bad { AreCountable bad.now }
    ensures { IfOk result (λ line. line ≡ verdicts_line points (verdict_of good.now) (verdict_of bad.now)) }
{
    let text = soak_text(alloc, points, &good.verdict(), &bad.verdict())?;
    Bytes::from_slice(alloc, text.as_bytes())
}
