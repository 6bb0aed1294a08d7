//! The lines of a difference.

ghost use Rattle.std.specs.Prelude.{◌≡◌, ◌++◌, IfOk, IfSome, OnOk, option_copied};
ghost use Rattle.std.specs.List.{flat_map};
ghost use Rattle.outcome_lines.specs.Labels.{HasLabels};
ghost use Rattle.outcome_lines.specs.OutcomeLines.{points_text, nets_text, open_line, short_line, miswire_line, wiring_lines};

use crate::decimal::write_decimal;
use crate::labels::write_net;
use base::{Memory, Text};
use difference::{Difference, Piece, Short};
use partition::Point;
use std::alloc::Global;
use wirelist::Program;

/// A line for each open, then for each short, then for each miswire: `  open B: 3`, `  short A B`, `  miswire A with 2: 1`.
/// Nets are called as the program calls them, `#` and their number where it has no such net or there is no program.
pub fn wiring_lines(alloc: Global, d: &Difference, p: Option<&Program>) -> Result<Text, Memory>
    requires { IfSome p (λ p. HasLabels p.now) }
    ensures { IfOk result (λ text. text ≡ wiring_lines (option_copied p.entry) d.now) }
{
    let mut out = Text::new(alloc);
    write_wiring(alloc, d, p, &mut out)?;
    Ok(out)
}

/// Appends the lines of a difference.
#[tactic(auto, unfolding(crate::specs::OutcomeLines::wiring_lines))]
pub(crate) fn write_wiring(
    alloc: Global,
    d: &Difference,
    program: Option<&Program>,
    out: &mut Text,
) -> Result<(), Memory>
    requires { IfSome program (λ p. HasLabels p.now) }
    ensures { OnOk result (out.new ≡ out.old ++ wiring_lines (option_copied program.entry) d.now) }
{
    write_opens(alloc, d.opens.as_slice(), program, out)?;
    write_shorts(alloc, d.shorts.as_slice(), program, out)?;
    write_miswires(alloc, d.miswires.as_slice(), program, out)
}

/// Appends a line for each open.
fn write_opens(
    alloc: Global,
    opens: &[Piece],
    program: Option<&Program>,
    out: &mut Text,
) -> Result<(), Memory>
    requires { IfSome program (λ p. HasLabels p.now) }
    ensures { OnOk result (out.new ≡ out.old ++ flat_map (open_line (option_copied program.entry)) opens.now) }
{
    for piece in opens {
        write_open(alloc, piece, program, out)?;
    }
    Ok(())
}

/// Appends the line of an open.
fn write_open(
    alloc: Global,
    piece: &Piece,
    program: Option<&Program>,
    out: &mut Text,
) -> Result<(), Memory>
    requires { IfSome program (λ p. HasLabels p.now) }
    ensures { OnOk result (out.new ≡ out.old ++ open_line (option_copied program.entry) piece.now) }
{
    out.push_str("  open ")?;
    write_net(alloc, program, piece.net, out)?;
    out.push_str(":")?;
    write_points(alloc, piece.points.as_slice(), out)?;
    out.push_str("\n")
}

/// Appends a line for each short.
fn write_shorts(
    alloc: Global,
    shorts: &[Short],
    program: Option<&Program>,
    out: &mut Text,
) -> Result<(), Memory>
    requires { IfSome program (λ p. HasLabels p.now) }
    ensures { OnOk result (out.new ≡ out.old ++ flat_map (short_line (option_copied program.entry)) shorts.now) }
{
    for short in shorts {
        write_short(alloc, short, program, out)?;
    }
    Ok(())
}

/// Appends the line of a short.
fn write_short(
    alloc: Global,
    short: &Short,
    program: Option<&Program>,
    out: &mut Text,
) -> Result<(), Memory>
    requires { IfSome program (λ p. HasLabels p.now) }
    ensures { OnOk result (out.new ≡ out.old ++ short_line (option_copied program.entry) short.now) }
{
    out.push_str("  short")?;
    write_nets(alloc, short.nets.as_slice(), program, out)?;
    out.push_str("\n")
}

/// Appends a line for each miswire.
fn write_miswires(
    alloc: Global,
    miswires: &[Piece],
    program: Option<&Program>,
    out: &mut Text,
) -> Result<(), Memory>
    requires { IfSome program (λ p. HasLabels p.now) }
    ensures { OnOk result (out.new ≡ out.old ++ flat_map (miswire_line (option_copied program.entry)) miswires.now) }
{
    for miswire in miswires {
        write_miswire(alloc, miswire, program, out)?;
    }
    Ok(())
}

/// Appends the line of a miswire.
fn write_miswire(
    alloc: Global,
    miswire: &Piece,
    program: Option<&Program>,
    out: &mut Text,
) -> Result<(), Memory>
    requires { IfSome program (λ p. HasLabels p.now) }
    ensures { OnOk result (out.new ≡ out.old ++ miswire_line (option_copied program.entry) miswire.now) }
{
    out.push_str("  miswire ")?;
    write_net(alloc, program, miswire.net, out)?;
    out.push_str(" with ")?;
    write_decimal(alloc, miswire.class.0 as u64, out)?;
    out.push_str(":")?;
    write_points(alloc, miswire.points.as_slice(), out)?;
    out.push_str("\n")
}

/// Appends each point after a space.
fn write_points(alloc: Global, points: &[Point], out: &mut Text) -> Result<(), Memory>
    ensures { OnOk result (out.new ≡ out.old ++ points_text points.now) }
{
    for point in points {
        out.push_str(" ")?;
        write_decimal(alloc, point.0 as u64, out)?;
    }
    Ok(())
}

/// Appends the label of each net after a space.
fn write_nets(
    alloc: Global,
    nets: &[u32],
    program: Option<&Program>,
    out: &mut Text,
) -> Result<(), Memory>
    requires { IfSome program (λ p. HasLabels p.now) }
    ensures { OnOk result (out.new ≡ out.old ++ nets_text (option_copied program.entry) nets.now) }
{
    for net in nets {
        out.push_str(" ")?;
        write_net(alloc, program, *net, out)?;
    }
    Ok(())
}
