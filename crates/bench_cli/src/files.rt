//! The harness file, read.

ghost use Rattle.std.specs.Prelude.{◌≡◌, string_bytes, IfOk};
ghost use Rattle.bench_cli.specs.Closing.{sunk_by};
ghost use Rattle.bench_cli.specs.Run.{read_by, refusal_line};
ghost use Rattle.bench_cli.specs.Files.{HarnessIs, HarnessCloses, harness_stop_of};

use crate::closing::{end_with_line, status};
use base::Memory;
use bench_edge::{EdgeStop, Sink, Source, read_upto};
use harness::HarnessRefusal;
use rig_sim::SimRig;
use std::alloc::Global;

/// How many bytes of the harness file are read at most: one more than it may have.
const MOST_OF_HARNESS: usize = 8_388_609;

/// Why a file gave nothing.
#[derive(Clone, Copy, Debug)]
pub enum FileStop<E> {
    /// A read failed, which the source's count tells.
    Fault,
    /// The file is refused.
    Refused(E),
    /// Memory ran out.
    Memory,
}

impl<E> From<EdgeStop> for FileStop<E> {
    ghost use Rattle.std.specs.Prelude.{◌≡◌};
    ghost use Rattle.bench_cli.specs.Files.{edge_stop_of};

    ghost from_gives = { λ stop given. given ≡ edge_stop_of stop };

    fn from(stop: EdgeStop) -> Self {
        match stop {
            EdgeStop::Failed => FileStop::Fault,
            EdgeStop::Memory => FileStop::Memory,
        }
    }
}

/// Why there is no simulator, where a file gave none.
fn stop_for(refusal: HarnessRefusal) -> FileStop<HarnessRefusal>
    ensures { result ≡ harness_stop_of refusal }
{
    match refusal {
        HarnessRefusal::Memory => FileStop::Memory,
        refusal => FileStop::Refused(refusal),
    }
}

/// The simulator of the harness file.
pub fn read_harness<H: Source>(
    alloc: Global,
    harness: &mut H,
) -> Result<SimRig, FileStop<HarnessRefusal>>
    ensures { HarnessIs (read_by H.left H.read_faults harness.old harness.new) result }
{
    let bytes = read_upto(alloc, harness, MOST_OF_HARNESS)?;
    match SimRig::read(alloc, bytes.as_slice()) {
        Ok(sim) => Ok(sim),
        Err(refusal) => Err(stop_for(refusal)),
    }
}

/// Writes why there is no simulator, and gives the status.
pub fn end_without_harness<O: Sink>(
    alloc: Global,
    stop: FileStop<HarnessRefusal>,
    out: &mut O,
) -> u8
    ensures { HarnessCloses (sunk_by O.got O.write_faults out.old out.new) stop result }
{
    match stop {
        FileStop::Fault => end_with_line(out, b"read fault\n", status::READ_FAULT),
        FileStop::Refused(refusal) => match refusal_text(alloc, refusal) {
            Ok(line) => end_with_line(out, line.as_bytes(), status::HARNESS_REFUSED),
            Err(Memory) => status::NO_MEMORY,
        },
        FileStop::Memory => status::NO_MEMORY,
    }
}

/// The line of a refusal.
fn refusal_text(alloc: Global, refusal: HarnessRefusal) -> Result<String, Memory>
    ensures { IfOk result (λ line. string_bytes line ≡ refusal_line refusal) }
{
    let number = refusal.number().unwrap_or(0);
    match refusal.line() {
        Some(line) => Ok(format!(in alloc; "harness refused {number} line {line}\n")?),
        None => Ok(format!(in alloc; "harness refused {number}\n")?),
    }
}
