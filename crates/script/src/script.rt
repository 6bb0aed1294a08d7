//! A script, read line by line and answered.

ghost use Rattle.std.specs.Prelude.{◌≡◌, ◌≤◌, ℕ, List, Some, map, IfOk, IfErr};
ghost use Rattle.disk_edge.specs.Disk.{LeavesOnly};
ghost use Rattle.journal.specs.Journal.{KeepsLimit};
ghost use Rattle.station.specs.View.{IsStanding};
ghost use Rattle.script_lines.specs.Script.{asking};
ghost use Rattle.script.specs.Asking.{Passes, EndsAsking};
ghost use Rattle.script.specs.Causes.{counts, NoneFell, Causes, Completes};
ghost use Rattle.script.specs.Closing.{closing_for, closing_line, status_of};
ghost use Rattle.script.specs.Headline.{ScriptHeadline};
ghost use Rattle.script.specs.Ran.{ScriptRan};
ghost use Rattle.script.specs.Said.{asks};
ghost use Rattle.script.specs.Saying.{WritesFront};
ghost use Rattle.script.specs.Scene.{Scene, IsScene};

use crate::writing::close_stop;
use crate::{RunEnd, answer_command};
use base::Bytes;
use bench_edge::{Clock, Sink, Source};
use disk_edge::Disk;
use lines::{drop_cr, is_passed_over};
use rig::Rig;
use script_lines::{LineStop, NextLine, next_line};
use serials::read_command;
use station::Station;
use std::alloc::Global;

/// Reads a script line by line, answers each of its commands, and writes the closing line.
pub fn run_script<R: Rig, D: Disk, I: Source, O: Sink, C: Clock>(
    alloc: Global,
    station: Station<R, D>,
    input: &mut I,
    out: &mut O,
    clock: &mut C,
) -> RunEnd<R, D>
    ensures headline { (scene : Scene) (script : List ℕ) → IsScene station
        (O.got out.old) (C.moments clock.old) scene → I.left input.old ≡ Some script
        → ScriptHeadline scene station script (I.left input.new) result.status (D.state result.disk) (O.got out.new) }
    ensures ran { ScriptRan station (O.got out.old) (O.got out.new) result.status (R.state result.rig) (D.state result.disk) }
    ensures causes { Causes
        (counts (I.read_faults input.old) (O.write_faults out.old) station.disk.faults station.rig.faults)
        (counts (I.read_faults input.new) (O.write_faults out.new) (D.state result.disk).faults (R.state result.rig).faults) result.status }
    ensures complete { Completes
        (counts (I.read_faults input.old) (O.write_faults out.old) station.disk.faults station.rig.faults)
        (counts (I.read_faults input.new) (O.write_faults out.new) (D.state result.disk).faults (R.state result.rig).faults) result.status }
    ensures limit { LeavesOnly station.disk (D.state result.disk) (KeepsLimit station.disk) }
{
    let _records = station.records();
    let mut current = station;
    let mut pending = Bytes::new(alloc);
    let mut number = 1;
    'lines: loop {
        match next_line(alloc, input, &mut pending, number) {
            Ok(NextLine::Line(line)) => {
                match answer_text(alloc, current, number, line.as_slice(), out, clock) {
                    Ok(after) => current = after,
                    Err(end) => return end,
                }
                number += 1;
            }
            Ok(NextLine::Last(line)) => {
                match answer_text(alloc, current, number, line.as_slice(), out, clock) {
                    Ok(after) => return ended(after, 0),
                    Err(end) => return end,
                }
            }
            Ok(NextLine::End) => return ended(current, 0),
            Err(stop) => return stopped(alloc, current, stop, number, out),
        }
    }
}

// Answers what a line asks; a line that is passed over asks nothing.
#[tactic(auto, unfolding(script_lines::specs::Script::asking))]
fn answer_text<R: Rig, D: Disk, O: Sink, C: Clock>(
    alloc: Global,
    station: Station<R, D>,
    number: u32,
    line: &[u8],
    out: &mut O,
    clock: &mut C,
) -> Result<Station<R, D>, RunEnd<R, D>>
    ensures answered { IfOk result (λ after. Passes (map asks (asking number line.now)) station after
        (O.got out.old) (O.got out.new) (C.moments clock.old) (C.moments clock.new)) }
    ensures standing { IfOk result IsStanding }
    ensures ended { IfErr result (λ end. EndsAsking (map asks (asking number line.now)) station end.status (R.state end.rig) (D.state end.disk)
        (O.got out.old) (O.got out.new) (C.moments clock.old) (C.moments clock.new)) }
    ensures later { IfOk result (λ after. (input : ℕ) → NoneFell
        (counts input (O.write_faults out.old) station.disk.faults station.rig.faults)
        (counts input (O.write_faults out.new) after.disk.faults after.rig.faults)) }
    ensures causes { IfErr result (λ end. (input : ℕ) → Causes
        (counts input (O.write_faults out.old) station.disk.faults station.rig.faults)
        (counts input (O.write_faults out.new) (D.state end.disk).faults (R.state end.rig).faults) end.status) }
{
    let text = drop_cr(line);
    if is_passed_over(text) {
        let _records = station.records();
        return Ok(station);
    }
    let command = read_command(text);
    answer_command(alloc, station, number, command, out, clock)
}

// Ends with nothing more to say.
fn ended<R: Rig, D: Disk>(station: Station<R, D>, status: u8) -> RunEnd<R, D>
    ensures status { result.status ≡ status }
    ensures disk { D.state result.disk ≡ station.disk }
    ensures rig { R.state result.rig ≡ station.rig }
{
    let (rig, disk) = station.into_parts();
    RunEnd { status, rig, disk }
}

// Ends where there is no next line to read, with the closing line.
fn stopped<R: Rig, D: Disk, O: Sink>(
    alloc: Global,
    station: Station<R, D>,
    stop: LineStop,
    number: u32,
    out: &mut O,
) -> RunEnd<R, D>
    ensures status { result.status ≡ status_of (closing_for stop number) }
    ensures disk { D.state result.disk ≡ station.disk }
    ensures rig { R.state result.rig ≡ station.rig }
    ensures line { WritesFront (closing_line (closing_for stop number)) (O.got out.old) (O.got out.new) }
    ensures later { O.write_faults out.old ≤ O.write_faults out.new }
{
    let status = close_stop(alloc, out, stop, number);
    ended(station, status)
}
