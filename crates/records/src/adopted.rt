//! The program of an Adopt record, as the text that it is printed as.

ghost use Rattle.std.specs.Prelude.{◌≡◌, ◌↔◌, ◌++◌, IsTrue, OnOk};
ghost use Rattle.records.specs.RecordBytes.{program_bytes};
ghost use Rattle.records.specs.RecordRanges.{Decodes};
ghost use Rattle.records.specs.declared.stop.DecodeStop.{DecodeStop};
ghost use Rattle.wirelist.specs.declared.refusal.WireRefusal.{WireRefusal};
ghost use Rattle.wirelist.specs.Canonical.{canonical};
ghost use Rattle.wirelist.specs.Programs.{IsProgram};

use crate::DecodeStop;
use crate::numbers::u32_at;
use base::{Bytes, Memory};
use std::alloc::Global;
use wirelist::{Program, WireRefusal, print};
use wirelist_reader::read;

/// The program that is all of the bytes, behind four bytes of its text's length.
pub(crate) fn program_of(alloc: Global, fields: &[u8]) -> Result<Program, DecodeStop>
    ensures { Decodes IsProgram program_bytes fields.now result }
{
    let (len, text) = u32_at(fields)?;
    if text.len() != len as usize {
        return Err(DecodeStop::NotARecord);
    }
    adopted(alloc, text)
}

/// The program whose canonical text this is. Another text of the same rows is no record's.
fn adopted(alloc: Global, text: &[u8]) -> Result<Program, DecodeStop>
    ensures { Decodes IsProgram canonical text.now result }
{
    let program = match read(alloc, text) {
        Ok(program) => program,
        Err(refusal) => return Err(stop_of(refusal)),
    };
    let printed = print(alloc, &program)?;
    if !are_same(printed.as_slice(), text) {
        return Err(DecodeStop::NotARecord);
    }
    Ok(program)
}

/// Whether two texts have the same bytes.
fn are_same(a: &[u8], b: &[u8]) -> bool
    ensures { IsTrue result ↔ (a.now ≡ b.now) }
{
    a == b
}

/// A wirelist that is refused is no record's, unless memory ran out.
fn stop_of(refusal: WireRefusal) -> DecodeStop
    ensures { (result ≡ DecodeStop.Memory) ↔ (refusal ≡ WireRefusal.Memory) }
{
    match refusal {
        WireRefusal::Memory => DecodeStop::Memory,
        _ => DecodeStop::NotARecord,
    }
}

/// Appends four bytes of length, and the program's canonical text.
pub(crate) fn write_program(alloc: Global, program: &Program, out: &mut Bytes) -> Result<(), Memory>
    requires { IsProgram program.now }
    ensures { OnOk result (out.new ≡ out.old ++ program_bytes program.now) }
{
    let text = print(alloc, program)?;
    out.append(&(text.len() as u32).to_be_bytes())?;
    out.append(text.as_slice())
}
