//! The wirelist, read.

ghost use Rattle.std.specs.Prelude.{◌≡◌, ◌++◌, codes, decimal, string_bytes, IfOk};
ghost use Rattle.wirelist.specs.Programs.{IsProgram};
ghost use Rattle.bench_cli.specs.Closing.{sunk_by, ClosesWith};
ghost use Rattle.bench_cli.specs.Run.{read_by};
ghost use Rattle.bench_cli.specs.Files.{WiresAre, WiresClose, wires_stop_of};
ghost use Rattle.bench_cli.specs.Wires.{nets_numbers, numbers_of, number_words, numbers_line, wires_refusal_line, points_differ_line};

use crate::closing::{end_with_line, status};
use crate::files::FileStop;
use base::Memory;
use bench_edge::{Sink, Source, read_upto};
use partition::NetsRefusal;
use std::alloc::Global;
use wirelist::{Program, WireRefusal};

/// How many bytes of the wirelist are read at most: one more than it may have.
const MOST_OF_WIRES: usize = 1_048_577;

/// Why there is no program, where the file gave none.
fn stop_for(refusal: WireRefusal) -> FileStop<WireRefusal>
    ensures { result ≡ wires_stop_of refusal }
{
    match refusal {
        WireRefusal::Memory => FileStop::Memory,
        refusal => FileStop::Refused(refusal),
    }
}

/// The program of the wirelist.
pub fn read_wires<W: Source>(alloc: Global, wires: &mut W) -> Result<Program, FileStop<WireRefusal>>
    ensures wires { WiresAre (read_by W.left W.read_faults wires.old wires.new) result }
    ensures valid { IfOk result IsProgram }
{
    let bytes = read_upto(alloc, wires, MOST_OF_WIRES)?;
    match wirelist_reader::read(alloc, bytes.as_slice()) {
        Ok(p) => Ok(p),
        Err(refusal) => Err(stop_for(refusal)),
    }
}

/// Writes why there is no program, and gives the status.
pub fn end_without_wires<O: Sink>(alloc: Global, stop: FileStop<WireRefusal>, out: &mut O) -> u8
    ensures { WiresClose (sunk_by O.got O.write_faults out.old out.new) stop result }
{
    match stop {
        FileStop::Fault => end_with_line(out, b"read fault\n", status::READ_FAULT),
        FileStop::Refused(refusal) => match refusal_text(alloc, refusal) {
            Ok(line) => end_with_line(out, line.as_bytes(), status::WIRELIST_REFUSED),
            Err(Memory) => status::NO_MEMORY,
        },
        FileStop::Memory => status::NO_MEMORY,
    }
}

/// Writes that harness and wirelist have other numbers of points, and gives the status.
pub fn end_with_difference<O: Sink>(alloc: Global, harness: u16, wirelist: u16, out: &mut O) -> u8
    ensures { ClosesWith (sunk_by O.got O.write_faults out.old out.new) (points_differ_line harness wirelist) 13 result }
{
    match difference_text(alloc, harness, wirelist) {
        Ok(line) => end_with_line(out, line.as_bytes(), status::POINTS_DIFFER),
        Err(Memory) => status::NO_MEMORY,
    }
}

/// The line of a difference of points.
fn difference_text(alloc: Global, harness: u16, wirelist: u16) -> Result<String, Memory>
    ensures { IfOk result (λ line. string_bytes line ≡ points_differ_line harness wirelist) }
{
    Ok(format!(in alloc; "points differ harness {harness} wirelist {wirelist}\n")?)
}

/// The numbers that a refusal is told by.
#[derive(Clone, Copy, Debug)]
pub(crate) struct Numbers {
    own: u32,
    first: Option<u32>,
    second: Option<u32>,
}

/// The numbers of a refusal: its own, and those that it carries.
fn numbers_of(refusal: WireRefusal) -> Numbers
    ensures { result ≡ numbers_of refusal }
{
    match refusal {
        WireRefusal::NotText(n) => told(1, Some(n), None),
        WireRefusal::UnknownKind(n) => told(2, Some(n), None),
        WireRefusal::BadField(n, field) => told(3, Some(n), Some(field)),
        WireRefusal::NoPart => told(4, None, None),
        WireRefusal::SecondRow(n) => told(5, Some(n), None),
        WireRefusal::TooManyPoints(n) => told(6, Some(n), None),
        WireRefusal::SameName(n) => told(8, Some(n), None),
        WireRefusal::BadWindow(n) => told(9, Some(n), None),
        WireRefusal::PartInsideNet(n) => told(10, Some(n), None),
        WireRefusal::TooManyClusters(n) => told(11, Some(n), None),
        WireRefusal::TooLong(n) => told(12, Some(n), None),
        WireRefusal::PartPoint(n) => told(13, Some(n), None),
        WireRefusal::SecondPart(n) => told(14, Some(n), None),
        WireRefusal::TooManyParts(n) => told(15, Some(n), None),
        WireRefusal::Nets(refusal) => nets_numbers(refusal),
        WireRefusal::Memory => told(0, None, None),
    }
}

/// The numbers of a refusal of nets: 7, its own among those, and its value.
fn nets_numbers(refusal: NetsRefusal) -> Numbers
    ensures { result ≡ nets_numbers refusal }
{
    match refusal {
        NetsRefusal::OutOfRange(point) => told(7, Some(1), Some(u32::from(point.0))),
        NetsRefusal::Twice(point) => told(7, Some(2), Some(u32::from(point.0))),
        NetsRefusal::EmptyNet(net) => told(7, Some(3), Some(net)),
        NetsRefusal::NoneJudged => told(7, Some(4), None),
        NetsRefusal::Memory => told(7, None, None),
    }
}

/// These numbers.
fn told(own: u32, first: Option<u32>, second: Option<u32>) -> Numbers
    ensures { result ≡ record { own = own; first = first; second = second } }
{
    Numbers { own, first, second }
}

/// The line of a refusal.
fn refusal_text(alloc: Global, refusal: WireRefusal) -> Result<String, Memory>
    ensures { IfOk result (λ line. string_bytes line ≡ wires_refusal_line refusal) }
{
    numbers_text(alloc, numbers_of(refusal))
}

/// The line of a refusal's numbers.
fn numbers_text(alloc: Global, numbers: Numbers) -> Result<String, Memory>
    ensures { IfOk result (λ line. string_bytes line ≡ numbers_line numbers) }
{
    let first = number_words(alloc, numbers.first)?;
    let second = number_words(alloc, numbers.second)?;
    let own = numbers.own;
    Ok(format!(in alloc; "wirelist refused {own}{first}{second}\n")?)
}

/// A number behind a space, where there is one.
fn number_words(alloc: Global, number: Option<u32>) -> Result<String, Memory>
    ensures { IfOk result (λ words. string_bytes words ≡ number_words number) }
{
    match number {
        Some(number) => Ok(format!(in alloc; " {number}")?),
        None => Ok(String::new(alloc)),
    }
}
