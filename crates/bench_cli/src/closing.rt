//! What a run writes last.

ghost use Rattle.std.specs.Prelude.{◌≡◌, ℕ, List, IfOk, OnOk, OnErr};
ghost use Rattle.bench_cli.specs.Closing.{sunk_by, Closes, ClosesWith, LacksMemory};
ghost use Rattle.bench_cli.specs.UnitEnds.{PrintEnds};

use base::{Bytes, Memory};
use bench_edge::{EdgeStop, Sink, write_all};

/// What ended a run, as a number: the exit status.
pub mod status {
    pub const DONE: u8 = 0;

    pub const NO_COMMAND: u8 = 2;

    pub const HARNESS_REFUSED: u8 = 3;

    pub const WIRELIST_REFUSED: u8 = 4;

    pub const READ_FAULT: u8 = 6;

    pub const WRITE_FAULT: u8 = 7;

    pub const NO_MEMORY: u8 = 9;

    pub const NOT_AT_ZERO: u8 = 10;

    pub const POINTS_DIFFER: u8 = 13;

    pub const FIXTURE_EMPTY: u8 = 14;

    pub const RIG_FAULT: u8 = 15;
}

/// Writes the text of what was found, where there was memory for it, and gives the status.
pub fn write_text<O: Sink>(text: Result<Bytes, Memory>, out: &mut O) -> u8
    ensures { (found : List ℕ) → IfOk text (λ t. t ≡ found) → PrintEnds (sunk_by O.got O.write_faults out.old out.new) found result }
{
    let Ok(text) = text else {
        return status::NO_MEMORY;
    };
    match write_all(out, text.as_slice()) {
        Ok(()) => status::DONE,
        Err(EdgeStop::Failed) => status::WRITE_FAULT,
        Err(EdgeStop::Memory) => status::NO_MEMORY,
    }
}

/// Writes a closing line and gives the status, which want of memory changes.
pub fn end_with_line<O: Sink>(out: &mut O, line: &[u8], status: u8) -> u8
    ensures { ClosesWith (sunk_by O.got O.write_faults out.old out.new) line.now status result }
{
    match write_line(out, line) {
        Ok(()) => status,
        Err(Memory) => status::NO_MEMORY,
    }
}

/// Writes a closing line. A write that fails cuts it, and changes nothing else.
fn write_line<O: Sink>(out: &mut O, line: &[u8]) -> Result<(), Memory>
    ensures ok { OnOk result (Closes (sunk_by O.got O.write_faults out.old out.new) line.now) }
    ensures err { OnErr result (LacksMemory (sunk_by O.got O.write_faults out.old out.new) line.now) }
{
    match write_all(out, line) {
        Ok(()) | Err(EdgeStop::Failed) => Ok(()),
        Err(EdgeStop::Memory) => Err(Memory),
    }
}
