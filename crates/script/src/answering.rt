//! One line: asked, and answered.

ghost use Rattle.std.specs.Prelude.{◌≡◌, ◌≤◌, ℕ, IfOk, IfErr, IfSome};
ghost use Rattle.base.specs.Causes.{Rose};
ghost use Rattle.station.specs.Commands.{IsAsked};
ghost use Rattle.station.specs.View.{IsStanding};
ghost use Rattle.script.specs.Causes.{counts, NoneFell, Causes};
ghost use Rattle.script.specs.Ends.{EndsIn};
ghost use Rattle.script.specs.Saying.{Says, SaysNot};
ghost use Rattle.script.specs.Turns.{IsAnswered};

use crate::writing::{close, no_command_line, say_last, say_line, stuck_line};
use base::{Memory, Text};
use bench_edge::{Clock, EdgeStop, Sink};
use disk_edge::Disk;
use rig::Rig;
use serials::Command;
use station::{Station, StepDone, StepStop, answer_line};
use std::alloc::Global;

/// How a call ended: its status, and the rig and the disk as they are.
pub struct RunEnd<R, D> {
    pub status: u8,
    pub rig: R,
    pub disk: D,
}

/// Answers one line of a script or one row of an import: a command, or what is none.
pub fn answer_command<R: Rig, D: Disk, O: Sink, C: Clock>(
    alloc: Global,
    station: Station<R, D>,
    number: u32,
    command: Option<Command>,
    out: &mut O,
    clock: &mut C,
) -> Result<Station<R, D>, RunEnd<R, D>>
    requires { IfSome command IsAsked }
    ensures answered { IfOk result (λ after. IsAnswered station (number, command) after
        (O.got out.old) (O.got out.new) (C.moments clock.old) (C.moments clock.new)) }
    ensures standing { IfOk result IsStanding }
    ensures ended { IfErr result (λ end. EndsIn station (number, command) end.status (R.state end.rig) (D.state end.disk)
        (O.got out.old) (O.got out.new) (C.moments clock.old) (C.moments clock.new)) }
    ensures later { IfOk result (λ after. (input : ℕ) → NoneFell
        (counts input (O.write_faults out.old) station.disk.faults station.rig.faults)
        (counts input (O.write_faults out.new) after.disk.faults after.rig.faults)) }
    ensures causes { IfErr result (λ end. (input : ℕ) → Causes
        (counts input (O.write_faults out.old) station.disk.faults station.rig.faults)
        (counts input (O.write_faults out.new) (D.state end.disk).faults (R.state end.rig).faults) end.status) }
{
    let now = clock.now();
    let Some(command) = command else {
        return say(station, no_command_line(alloc, number), out);
    };
    let id = command.id();
    match station.apply(&command, now) {
        Ok(StepDone { station, answer }) => {
            let line = answer_line(alloc, &answer, id);
            say(station, line, out)
        }
        Err(StepStop::Disk { rig, disk }) => {
            close(out, b"disk fault\n");
            Err(RunEnd {
                status: 8,
                rig,
                disk,
            })
        }
        Err(StepStop::NotZero { stuck, disk }) => {
            say_last(out, stuck_line(alloc, id));
            Err(RunEnd {
                status: 10,
                rig: stuck.into_rig(),
                disk,
            })
        }
        Err(StepStop::Memory { rig, disk }) => Err(RunEnd {
            status: 9,
            rig,
            disk,
        }),
    }
}

// Says a line, and goes on.
fn say<R: Rig, D: Disk, O: Sink>(
    station: Station<R, D>,
    line: Result<Text, Memory>,
    out: &mut O,
) -> Result<Station<R, D>, RunEnd<R, D>>
    ensures said { IfOk result (λ after. (after ≡ station) × Says line (O.got out.old) (O.got out.new)) }
    ensures standing { IfOk result IsStanding }
    ensures disk { IfErr result (λ end. D.state end.disk ≡ station.disk) }
    ensures rig { IfErr result (λ end. R.state end.rig ≡ station.rig) }
    ensures ended { IfErr result (λ end. SaysNot line (O.got out.old) (O.got out.new) end.status) }
    ensures later { O.write_faults out.old ≤ O.write_faults out.new }
    ensures cause { IfErr result (λ end. end.status ≡ 7 → Rose (O.write_faults out.old) (O.write_faults out.new)) }
{
    let _records = station.records();
    match say_line(out, line) {
        Ok(()) => Ok(station),
        Err(stop) => {
            let (rig, disk) = station.into_parts();
            let status = status_for(stop);
            Err(RunEnd { status, rig, disk })
        }
    }
}

// The status of a line that was not written.
fn status_for(stop: EdgeStop) -> u8
    ensures failed { stop ≡ EdgeStop.Failed → result ≡ 7 }
    ensures memory { stop ≡ EdgeStop.Memory → result ≡ 9 }
{
    match stop {
        EdgeStop::Failed => 7,
        EdgeStop::Memory => 9,
    }
}
