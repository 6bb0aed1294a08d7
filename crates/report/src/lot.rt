//! The report of the lot.

ghost use Rattle.std.specs.Prelude.{◌≡◌, ◌++◌, ◌<◌, ◌^◌, All, IfOk, OnOk, length, option_copied};
ghost use Rattle.records.specs.RecordRanges.{IsRecord};
ghost use Rattle.report.specs.LotText.{count_line, lot_text, part_line, yield_line, yield_text, results};
ghost use Rattle.report.specs.Counting.{counted, results_text};
ghost use Rattle.report.specs.Few.{AreFew};

use crate::counts::count_serials;
use crate::programs::last_program;
use crate::results::{Results, count_results};
use base::{Memory, Text};
use outcome_lines::write_decimal;
use records::RecordList;
use std::alloc::Global;
use wirelist::Program;

/// The report of the lot: the part, how many serials there are, and how their tests came out.
#[tactic(auto, unfolding(crate::specs::LotText::lot_text))]
pub fn lot_report(alloc: Global, records: &RecordList) -> Result<Text, Memory>
    requires in_range { All IsRecord records.now }
    requires few { length records.now < 2 ^ 32 }
    ensures { IfOk result (λ text. text ≡ lot_text records.now) }
{
    let records = records.as_slice();
    let serials = count_serials(alloc, records)?;
    let found = count_results(records);
    let mut out = Text::new(alloc);
    out.push_str("LOT REPORT\n")?;
    write_part(alloc, last_program(records), &mut out)?;
    write_count(alloc, "enrolled", serials.enrolled, &mut out)?;
    write_count(alloc, "tested", serials.tested, &mut out)?;
    write_count(alloc, "first pass", serials.passed, &mut out)?;
    write_yield(alloc, serials.passed, serials.tested, &mut out)?;
    write_results(alloc, &found, &mut out)?;
    write_count(alloc, "released", serials.released, &mut out)?;
    write_count(alloc, "scrapped", serials.scrapped, &mut out)?;
    Ok(out)
}

/// Appends the line of the adopted part.
fn write_part(alloc: Global, program: Option<&Program>, out: &mut Text) -> Result<(), Memory>
    ensures { OnOk result (out.new ≡ out.old ++ part_line (option_copied program.entry)) }
{
    match program {
        None => out.push_str("part -\n"),
        Some(program) => {
            out.push_str("part ")?;
            out.push_str(program.part.text())?;
            out.push_str(" revision ")?;
            write_decimal(alloc, program.revision as u64, out)?;
            out.push_str("\n")
        }
    }
}

/// Appends a line of a word and a count.
fn write_count(alloc: Global, word: &str, count: u64, out: &mut Text) -> Result<(), Memory>
    ensures { OnOk result (out.new ≡ out.old ++ count_line word.now count) }
{
    out.push_str(word)?;
    out.push_str(" ")?;
    write_decimal(alloc, count, out)?;
    out.push_str("\n")
}

/// Appends the line of the yield.
fn write_yield(alloc: Global, passed: u64, tested: u64, out: &mut Text) -> Result<(), Memory>
    requires passed { passed < 2 ^ 32 }
    requires tested { tested < 2 ^ 32 }
    ensures { OnOk result (out.new ≡ out.old ++ yield_line passed tested) }
{
    out.push_str("yield ")?;
    write_percent(alloc, passed, tested, out)?;
    out.push_str("\n")
}

/// Appends how many percent of the tested ones passed, to a tenth, or a dash where none is tested.
fn write_percent(alloc: Global, passed: u64, tested: u64, out: &mut Text) -> Result<(), Memory>
    requires passed { passed < 2 ^ 32 }
    requires tested { tested < 2 ^ 32 }
    ensures { OnOk result (out.new ≡ out.old ++ yield_text passed tested) }
{
    if tested == 0 {
        return out.push_str("-");
    }
    let tenths = (2000 * passed + tested) / (2 * tested);
    write_decimal(alloc, tenths / 10, out)?;
    out.push_str(".")?;
    write_decimal(alloc, tenths % 10, out)?;
    out.push_str("%")
}

/// Appends the line of the tests: how many there are, and how many of each verdict.
fn write_results(alloc: Global, found: &Results, out: &mut Text) -> Result<(), Memory>
    requires { AreFew found.now.pass found.now.wiring found.now.parts found.now.insulation found.now.withstand }
    ensures { OnOk result (out.new ≡ out.old ++ results_text found.now) }
{
    out.push_str("results ")?;
    write_decimal(alloc, found.total(), out)?;
    out.push_str(" pass ")?;
    write_decimal(alloc, found.pass, out)?;
    out.push_str(" wiring ")?;
    write_decimal(alloc, found.wiring, out)?;
    out.push_str(" parts ")?;
    write_decimal(alloc, found.parts, out)?;
    out.push_str(" insulation ")?;
    write_decimal(alloc, found.insulation, out)?;
    out.push_str(" withstand ")?;
    write_decimal(alloc, found.withstand, out)?;
    out.push_str("\n")
}
