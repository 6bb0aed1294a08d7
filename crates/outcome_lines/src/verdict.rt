//! The text of a verdict.

ghost use Rattle.std.specs.Prelude.{◌≡◌, ◌++◌, OnOk, OnErr};
ghost use Rattle.outcome_lines.specs.VerdictText.{verdict_text};

use crate::decimal::write_decimal;
use base::{Memory, Text};
use std::alloc::Global;
use wirelist::Verdict;

/// Appends a verdict: `PASS`, `WIRING opens=1 shorts=0 miswires=0`, `PARTS 1`, `INSULATION 2` or `WITHSTAND bit=0 volts=750`.
/// Where memory ran out it appends nothing.
pub fn write_verdict(alloc: Global, verdict: &Verdict, out: &mut Text) -> Result<(), Memory>
    ensures ok { OnOk result (out.new ≡ out.old ++ verdict_text verdict.now) }
    ensures err { OnErr result (out.new ≡ out.old) }
{
    let mut text = Text::new(alloc);
    append_verdict(alloc, verdict, &mut text)?;
    out.push_str(text.as_str())
}

/// Appends a verdict, or a part of it where memory ran out.
fn append_verdict(alloc: Global, verdict: &Verdict, out: &mut Text) -> Result<(), Memory>
    ensures { OnOk result (out.new ≡ out.old ++ verdict_text verdict.now) }
{
    match verdict {
        Verdict::Pass => out.push_str("PASS"),
        Verdict::Wiring {
            opens,
            shorts,
            miswires,
        } => write_counts(alloc, *opens, *shorts, *miswires, out),
        Verdict::Parts(count) => {
            out.push_str("PARTS ")?;
            write_decimal(alloc, *count as u64, out)
        }
        Verdict::Insulation(count) => {
            out.push_str("INSULATION ")?;
            write_decimal(alloc, *count as u64, out)
        }
        Verdict::Withstand { bit, volts } => {
            out.push_str("WITHSTAND bit=")?;
            write_decimal(alloc, *bit as u64, out)?;
            out.push_str(" volts=")?;
            write_decimal(alloc, *volts as u64, out)
        }
    }
}

/// Appends the verdict of a wiring fault.
fn write_counts(
    alloc: Global,
    opens: u32,
    shorts: u32,
    miswires: u32,
    out: &mut Text,
) -> Result<(), Memory>
    ensures { OnOk result (out.new ≡ out.old ++ verdict_text (Verdict.Wiring opens shorts miswires)) }
{
    out.push_str("WIRING opens=")?;
    write_decimal(alloc, opens as u64, out)?;
    out.push_str(" shorts=")?;
    write_decimal(alloc, shorts as u64, out)?;
    out.push_str(" miswires=")?;
    write_decimal(alloc, miswires as u64, out)
}
