//! The lines that tell of connections.

ghost use Rattle.std.specs.Prelude.{◌≡◌, ◌≤◌, IfOk, IfErr};
ghost use Rattle.std.specs.Result.{result_err};
ghost use Rattle.base.specs.Causes.{HasCause};
ghost use Rattle.bench_edge.specs.Whole.{WroteFront};
ghost use Rattle.serving.specs.Lines.{conn_line, Says, SaysPart};

use base::{Memory, Text};
use bench_edge::{EdgeStop, Sink, write_all};
use std::alloc::Global;

/// The line of a connection: the status of its reply, or that it was cut.
#[tactic(auto, unfolding(crate::specs::Lines::conn_line))]
pub(crate) fn line_of(alloc: Global, number: u32, status: Option<u16>) -> Result<Text, Memory>
    ensures { IfOk result (λ line. line ≡ conn_line number status) }
{
    match status {
        Some(status) => Ok(Text::from_string(format!(in alloc; "conn {number} {status}\n")?)),
        None => Ok(Text::from_string(format!(in alloc; "conn {number} cut\n")?)),
    }
}

/// Writes a line that was made.
pub(crate) fn write_line<O: Sink>(out: &mut O, line: Result<Text, Memory>) -> Result<(), EdgeStop>
    ensures said { IfOk result (λ _. Says line (O.got out.old) (O.got out.new)) }
    ensures part { IfErr result (λ _. SaysPart line (O.got out.old) (O.got out.new)) }
    ensures cause { HasCause (O.write_faults out.old) (O.write_faults out.new) (result_err result) EdgeStop.Failed }
{
    let line = line?;
    write_all(out, line.as_bytes())
}

/// Writes a closing line, or a front of it: a failed write does not change the status.
pub(crate) fn close<O: Sink>(out: &mut O, line: &[u8])
    ensures line { WroteFront (O.got out.old) (O.got out.new) line.now }
    ensures later { O.write_faults out.old ≤ O.write_faults out.new }
{
    let _tried = write_all(out, line);
}
