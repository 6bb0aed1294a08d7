//! The next line of a script.

ghost use Rattle.std.specs.Prelude.{◌≡◌, ◌+◌, ◌<◌, ◌≤◌, ◌++◌, false, Some, List, ℕ, length, take, drop, IfOk, IfErr, OnErr};
ghost use Rattle.std.specs.List.{position};
ghost use Rattle.lines.specs.Lines.{is_lf};
ghost use Rattle.script_lines.specs.Reading.{ReadsNext, ReadsNot, KeepsPending, IsFew, StopCause};
ghost use Rattle.script_lines.specs.Script.{is_too_long};

use base::{Bytes, Memory};
use bench_edge::{EdgeStop, Source};
use std::alloc::Global;

/// The most bytes of a line, and the most lines of a script.
const MOST_BYTES: usize = 200;

const MOST_LINES: u32 = 100_000;

/// The next line of a script, without its LF.
#[derive(Drop)]
pub enum NextLine {
    /// A line that ends with LF.
    Line(Bytes),
    /// The last line, which has none.
    Last(Bytes),
    /// There is no further line.
    End,
}

/// Why there is no next line.
#[derive(Drop)]
pub enum LineStop {
    /// A read failed.
    Failed,
    /// The line has more than 200 bytes, or is number 100,001.
    TooLong,
    /// Memory ran out.
    Memory,
}

impl From<Memory> for LineStop {
    ghost use Rattle.std.specs.Prelude.{◌≡◌};
    ghost use Rattle.script_lines.specs.declared.reader.LineStop.{LineStop};

    ghost from_gives = { λ _ e. e ≡ LineStop.Memory };

    fn from(_: Memory) -> Self {
        LineStop::Memory
    }
}

/// Gives the line of this number, which comes next: what is pending was read before, and is not read again.
///
/// What was read behind the line is pending then, and after a stop all that was read, but what there was no memory to keep.
pub fn next_line<I: Source>(
    alloc: Global,
    input: &mut I,
    pending: &mut Bytes,
    number: u32,
) -> Result<NextLine, LineStop>
    ensures line { IfOk result (λ next. (left : List ℕ) → I.left input.old ≡ Some left
        → ReadsNext (pending.old ++ left) number next pending.new (I.left input.new)) }
    ensures few { IfOk result (IsFew number) }
    ensures stop { IfErr result (λ stop. (left : List ℕ) → I.left input.old ≡ Some left
        → ReadsNot (pending.old ++ left) number stop pending.new (I.left input.new)) }
    ensures kept { IfErr result (λ stop. (left : List ℕ) → I.left input.old ≡ Some left
        → KeepsPending (pending.old ++ left) stop pending.new (I.left input.new)) }
    ensures later { I.read_faults input.old ≤ I.read_faults input.new }
    ensures cause { IfErr result (StopCause (I.read_faults input.old) (I.read_faults input.new)) }
{
    let mut chunk = [0u8; 256];
    'reads: loop {
        if let Some(end) = first_lf(pending.as_slice()) {
            if is_long(number, end) {
                return Err(LineStop::TooLong);
            }
            return Ok(NextLine::Line(take_line(alloc, pending, end)?));
        }
        if pending.len() > MOST_BYTES {
            return Err(LineStop::TooLong);
        }
        let count = match input.read(&mut chunk) {
            Ok(count) => count,
            Err(EdgeStop::Failed) => return Err(LineStop::Failed),
            Err(EdgeStop::Memory) => return Err(LineStop::Memory),
        };
        if count == 0 {
            if pending.is_empty() {
                return Ok(NextLine::End);
            }
            if is_long(number, pending.len()) {
                return Err(LineStop::TooLong);
            }
            let last = Bytes::from_slice(alloc, pending.as_slice())?;
            return Ok(NextLine::Last(last));
        }
        pending.append(&chunk[..count])?;
    }
}

/// Whether a line of this number and of so many bytes is too long.
fn is_long(number: u32, len: usize) -> bool
    ensures long { (line : List ℕ) → length line ≡ len → result ≡ is_too_long number line }
    ensures few { result ≡ false → number ≤ 100000 }
{
    len > MOST_BYTES || number > MOST_LINES
}

/// The place of the first LF.
fn first_lf(bytes: &[u8]) -> Option<usize>
    ensures { result ≡ position is_lf bytes.now }
{
    bytes.iter().position(|byte| *byte == b'\n')
}

/// Takes the line off that ends at this place, with its LF.
fn take_line(alloc: Global, pending: &mut Bytes, end: usize) -> Result<Bytes, Memory>
    requires { end < length pending.old }
    ensures line { IfOk result (λ line. line ≡ take end pending.old) }
    ensures rest { IfOk result (λ line. pending.new ≡ drop (end + 1) pending.old) }
    ensures err { OnErr result (pending.new ≡ pending.old) }
{
    let line = Bytes::from_slice(alloc, &pending.as_slice()[..end])?;
    let rest = Bytes::from_slice(alloc, &pending.as_slice()[end + 1..])?;
    *pending = rest;
    Ok(line)
}
