//! What is written: lines, and the closing line.

ghost use Rattle.std.specs.Prelude.{◌≡◌, ◌≤◌, ℕ, IfOk, IfErr};
ghost use Rattle.std.specs.Result.{result_err};
ghost use Rattle.base.specs.Causes.{HasCause};
ghost use Rattle.bench_edge.specs.Whole.{WrotePart};
ghost use Rattle.script.specs.Closing.{line_too_long, status_of, closing_line, closing_for};
ghost use Rattle.script.specs.Said.{said_line, no_command, replied};
ghost use Rattle.script.specs.Saying.{Says, SaysPart, SaysLast, WritesFront};
ghost use Rattle.station.specs.Step.{not_at_zero};

use base::{Memory, Text};
use bench_edge::{EdgeStop, Sink, write_all};
use partition::Name;
use script_lines::LineStop;
use std::alloc::Global;

/// Writes a line with its LF.
pub(crate) fn say_line<O: Sink>(out: &mut O, line: Result<Text, Memory>) -> Result<(), EdgeStop>
    ensures said { IfOk result (λ _. Says line (O.got out.old) (O.got out.new)) }
    ensures part { IfErr result (λ _. SaysPart line (O.got out.old) (O.got out.new)) }
    ensures cause { HasCause (O.write_faults out.old) (O.write_faults out.new) (result_err result) EdgeStop.Failed }
{
    let mut line = line?;
    line.push_str("\n")?;
    write_all(out, line.as_bytes())
}

/// Writes the line of three failed zero calls, and behind it the closing line.
pub(crate) fn say_last<O: Sink>(out: &mut O, line: Result<Text, Memory>)
    ensures line { SaysLast line (O.got out.old) (O.got out.new) }
    ensures later { O.write_faults out.old ≤ O.write_faults out.new }
{
    if say_line(out, line).is_ok() {
        close(out, b"source not at zero\n");
    }
}

/// Writes the closing line, or a front of it: a failed write does not change the status.
pub(crate) fn close<O: Sink>(out: &mut O, line: &[u8])
    ensures line { WritesFront line.now (O.got out.old) (O.got out.new) }
    ensures later { O.write_faults out.old ≤ O.write_faults out.new }
{
    let _ = write_all(out, line);
}

/// Writes the closing line where there is no next line to read, and gives the status.
pub(crate) fn close_stop<O: Sink>(alloc: Global, out: &mut O, stop: LineStop, number: u32) -> u8
    ensures status { result ≡ status_of (closing_for stop number) }
    ensures line { WritesFront (closing_line (closing_for stop number)) (O.got out.old) (O.got out.new) }
    ensures later { O.write_faults out.old ≤ O.write_faults out.new }
{
    match stop {
        LineStop::Failed => {
            close(out, b"read fault\n");
            6
        }
        LineStop::TooLong => close_long(alloc, out, number),
        LineStop::Memory => 9,
    }
}

// Writes that a line is too long.
#[tactic(auto, using(crate::proofs::answers::Written::writes_nothing))]
fn close_long<O: Sink>(alloc: Global, out: &mut O, number: u32) -> u8
    ensures status { result ≡ 12 }
    ensures line { WritesFront (closing_line (line_too_long number)) (O.got out.old) (O.got out.new) }
    ensures later { O.write_faults out.old ≤ O.write_faults out.new }
{
    let Ok(line) = format!(in alloc; "input too long line {number}\n") else {
        return 12;
    };
    close(out, line.as_bytes());
    12
}

/// The line of what is no command.
#[tactic(auto, unfolding(crate::specs::Said::said_line))]
pub(crate) fn no_command_line(alloc: Global, number: u32) -> Result<Text, Memory>
    ensures { IfOk result (λ text. text ≡ said_line (no_command number)) }
{
    let line = format!(in alloc; "NO E01 line {number}")?;
    Ok(Text::from_string(line))
}

/// The line of a command whose three zero calls failed.
#[tactic(auto, unfolding(crate::specs::Said::said_line))]
pub(crate) fn stuck_line(alloc: Global, id: Name) -> Result<Text, Memory>
    ensures { IfOk result (λ text. text ≡ said_line (replied id not_at_zero)) }
{
    let line = format!(in alloc; "NO E21 {}", id.text())?;
    Ok(Text::from_string(line))
}
