//! The files of a command, read: what they give, or how a run ends where one of them gives nothing.

ghost use Rattle.std.specs.Prelude.{◌≡◌, true, Bool, IfOk, IfErr, OnOk};
ghost use Rattle.wirelist.specs.Programs.{IsProgram};
ghost use Rattle.bench_cli.specs.Closing.{sunk_by};
ghost use Rattle.bench_cli.specs.Run.{Read, read_by, IsUnread, TakesHarness, TakesWires, TakesBoth, StopsAtFiles};

use crate::files::{end_without_harness, read_harness};
use crate::wires::{end_with_difference, end_without_wires, read_wires};
use bench_edge::{Sink, Source};
use rig::Rig;
use rig_sim::SimRig;
use std::alloc::Global;
use wirelist::Program;

/// How the work of a command ended: the exit status, and the simulator where it is handed out.
pub struct Outcome {
    pub status: u8,
    pub rig: Option<SimRig>,
}

/// The simulator and the program of the two files, of as many points.
pub struct Both {
    pub sim: SimRig,
    pub p: Program,
}

/// The simulator of the harness file, or how the run ended without it.
pub fn take_harness<H: Source, O: Sink>(
    alloc: Global,
    harness: &mut H,
    out: &mut O,
) -> Result<SimRig, Outcome>
    ensures takes { IfOk result (TakesHarness (read_by H.left H.read_faults harness.old harness.new)) }
    ensures unpowered { IfOk result (λ sim. sim.state.volts ≡ 0) }
    ensures alone { OnOk result (out.new ≡ out.old) }
    ensures stops { IfErr result (λ o. (wired : Bool) (wires : Read) → IsUnread wires
        → StopsAtFiles wired (record { harness = read_by H.left H.read_faults harness.old harness.new; wires = wires })
        (sunk_by O.got O.write_faults out.old out.new) o.status o.rig) }
{
    match read_harness(alloc, harness) {
        Ok(sim) => Ok(sim),
        Err(stop) => Err(Outcome {
            status: end_without_harness(alloc, stop, out),
            rig: None,
        }),
    }
}

/// The simulator and the program of the two files, or how the run ended without them.
pub fn take_both<H: Source, W: Source, O: Sink>(
    alloc: Global,
    harness: &mut H,
    wires: &mut W,
    out: &mut O,
) -> Result<Both, Outcome>
    ensures takes { IfOk result (λ both. TakesBoth (record {
      harness = read_by H.left H.read_faults harness.old harness.new;
      wires = read_by W.left W.read_faults wires.old wires.new;
    }) both.sim both.p) }
    ensures valid { IfOk result (λ both. IsProgram both.p) }
    ensures unpowered { IfOk result (λ both. both.sim.state.volts ≡ 0) }
    ensures alone { OnOk result (out.new ≡ out.old) }
    ensures stops { IfErr result (λ o. StopsAtFiles true (record {
      harness = read_by H.left H.read_faults harness.old harness.new;
      wires = read_by W.left W.read_faults wires.old wires.new;
    }) (sunk_by O.got O.write_faults out.old out.new) o.status o.rig) }
{
    match take_harness(alloc, harness, out) {
        Ok(sim) => add_wires(alloc, sim, wires, out),
        Err(outcome) => Err(outcome),
    }
}

/// The program beside a simulator, or how the run ended without it.
fn add_wires<W: Source, O: Sink>(
    alloc: Global,
    sim: SimRig,
    wires: &mut W,
    out: &mut O,
) -> Result<Both, Outcome>
    requires { sim.state.volts ≡ 0 }
    ensures takes { IfOk result (λ both. (harness : Read) → TakesHarness harness sim
        → TakesBoth (record { harness = harness; wires = read_by W.left W.read_faults wires.old wires.new }) both.sim both.p) }
    ensures valid { IfOk result (λ both. IsProgram both.p) }
    ensures unpowered { IfOk result (λ both. both.sim.state.volts ≡ 0) }
    ensures alone { OnOk result (out.new ≡ out.old) }
    ensures stops { IfErr result (λ o. (harness : Read) → TakesHarness harness sim
        → StopsAtFiles true (record { harness = harness; wires = read_by W.left W.read_faults wires.old wires.new })
        (sunk_by O.got O.write_faults out.old out.new) o.status o.rig) }
{
    match read_wires(alloc, wires) {
        Ok(p) => compare(alloc, sim, p, out),
        Err(stop) => Err(Outcome {
            status: end_without_wires(alloc, stop, out),
            rig: Some(sim),
        }),
    }
}

/// The two, where they are of as many points.
fn compare<O: Sink>(alloc: Global, sim: SimRig, p: Program, out: &mut O) -> Result<Both, Outcome>
    requires unpowered { sim.state.volts ≡ 0 }
    requires valid { IsProgram p }
    ensures takes { IfOk result (λ both. (harness wires : Read) → TakesHarness harness sim → TakesWires wires p
        → TakesBoth (record { harness = harness; wires = wires }) both.sim both.p) }
    ensures valid { IfOk result (λ both. IsProgram both.p) }
    ensures unpowered { IfOk result (λ both. both.sim.state.volts ≡ 0) }
    ensures alone { OnOk result (out.new ≡ out.old) }
    ensures stops { IfErr result (λ o. (harness wires : Read) → TakesHarness harness sim → TakesWires wires p
        → StopsAtFiles true (record { harness = harness; wires = wires }) (sunk_by O.got O.write_faults out.old out.new) o.status o.rig) }
{
    let (points, wanted) = (sim.points(), p.nets.points());
    if wanted != points {
        return Err(Outcome {
            status: end_with_difference(alloc, points, wanted, out),
            rig: Some(sim),
        });
    }
    Ok(Both { sim, p })
}
