//! Numbers in a text.

ghost use Rattle.std.specs.Prelude.{◌≡◌, ◌++◌, OnOk, OnErr, decimal};

use base::{Memory, Text};
use std::alloc::Global;

/// Appends a number in decimal digits, or nothing where memory ran out.
pub fn write_decimal(alloc: Global, number: u64, out: &mut Text) -> Result<(), Memory>
    ensures ok { OnOk result (out.new ≡ out.old ++ decimal number) }
    ensures err { OnErr result (out.new ≡ out.old) }
{
    let digits = format!(in alloc; "{number}")?;
    out.push_str(digits.as_str())
}
