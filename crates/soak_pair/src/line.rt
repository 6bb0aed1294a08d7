//! The line of a soak.

ghost use Rattle.std.specs.Prelude.{◌≡◌, ◌++◌, codes, decimal, IfOk};
ghost use Rattle.outcome_lines.specs.VerdictText.{verdict_text};
ghost use Rattle.soak_pair.specs.Pair.{verdicts_line};

use base::{Memory, Text};
use outcome_lines::{write_decimal, write_verdict};
use std::alloc::Global;
use wirelist::Verdict;

/// The line of two verdicts over a number of points.
pub fn soak_text(alloc: Global, points: u16, good: &Verdict, bad: &Verdict) -> Result<Text, Memory>
    ensures { IfOk result (λ text. text ≡ verdicts_line points good.now bad.now) }
{
    let mut text = Text::new(alloc);
    text.push_str("soak ")?;
    write_decimal(alloc, u64::from(points), &mut text)?;
    text.push_str(" good ")?;
    write_verdict(alloc, good, &mut text)?;
    text.push_str(" bad ")?;
    write_verdict(alloc, bad, &mut text)?;
    text.push_str("\n")?;
    Ok(text)
}
