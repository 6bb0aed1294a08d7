//! The one canonical text of a program.

ghost use Rattle.std.specs.Prelude.{◌≡◌, ◌++◌, ◌∷◌, IfOk, OnOk, map, zip};
ghost use Rattle.std.specs.List.{flat_map};
ghost use Rattle.std.specs.Fmt.{decimal};
ghost use Rattle.wirelist.specs.Canonical.{canonical, line_of, part_row, points_row, net_row, ignore_rows, attempts_row};
ghost use Rattle.wirelist.specs.Canonical.{resistor_row, diode_row, insulation_row, insulation_rows, withstand_row, withstand_rows};

use crate::{Diode, Insulation, Program, Resistor, Withstand};
use base::{Bytes, Memory};
use partition::{Name, Nets, Point};
use std::alloc::Global;

/// The program's one canonical text: `part` and `points`, the nets in order with ascending points, `ignore` with the points
/// that are not judged, ascending, where there are such, resistors, diodes, `insulation` and `withstand` where they are
/// there, and `attempts`. Each row ends with an LF; there are no quotes.
pub fn print(alloc: Global, p: &Program) -> Result<Bytes, Memory>
    ensures { IfOk result (λ text. text ≡ canonical p.now) }
{
    let mut text = Bytes::new(alloc);
    print_head(alloc, &mut text, p)?;
    print_nets(alloc, &mut text, p.names.as_slice(), &p.nets)?;
    print_ignored(alloc, &mut text, p.nets.ignored())?;
    print_resistors(alloc, &mut text, p.resistors.as_slice())?;
    print_diodes(alloc, &mut text, p.diodes.as_slice())?;
    print_insulation(alloc, &mut text, &p.insulation)?;
    print_withstand(alloc, &mut text, &p.withstand)?;
    print_attempts(alloc, &mut text, p.attempts)?;
    Ok(text)
}

/// Appends the rows of the part and of the number of points.
fn print_head(alloc: Global, text: &mut Bytes, p: &Program) -> Result<(), Memory>
    ensures { OnOk result (text.new ≡ text.old ++ (line_of (part_row p.now.part p.now.revision) ++ line_of (points_row p.now.nets.points))) }
{
    let rows = format!(in alloc;
        "part,{},{}\npoints,{}\n",
        p.part.text(),
        p.revision,
        p.nets.points()
    )?;
    text.append(rows.as_bytes())
}

/// Appends the rows of the named nets.
fn print_nets(alloc: Global, text: &mut Bytes, names: &[Name], nets: &Nets) -> Result<(), Memory>
    ensures { OnOk result (text.new ≡ text.old ++ flat_map line_of (map net_row (zip names.now nets.now.named))) }
{
    let count = names.len().min(nets.named() as usize);
    for i in 0..count {
        print_net(alloc, text, &names[i], nets.net(i as u32))?;
    }
    Ok(())
}

/// Appends the row of a net.
fn print_net(alloc: Global, text: &mut Bytes, name: &Name, points: &[Point]) -> Result<(), Memory>
    ensures { OnOk result (text.new ≡ text.old ++ line_of (net_row (name.now, points.now))) }
{
    text.append(b"net,")?;
    text.append(name.bytes())?;
    print_points(alloc, text, points)?;
    text.append(b"\n")
}

/// Appends the row of the points that are not judged, where there are such.
fn print_ignored(alloc: Global, text: &mut Bytes, ignored: &[Point]) -> Result<(), Memory>
    ensures { OnOk result (text.new ≡ text.old ++ flat_map line_of (ignore_rows ignored.now)) }
{
    if ignored.is_empty() {
        return Ok(());
    }
    text.append(b"ignore")?;
    print_points(alloc, text, ignored)?;
    text.append(b"\n")
}

/// Appends points, each after a comma.
fn print_points(alloc: Global, text: &mut Bytes, points: &[Point]) -> Result<(), Memory>
    ensures { OnOk result (text.new ≡ text.old ++ flat_map (λ p. 44 ∷ decimal p) points.now) }
{
    for point in points {
        let field = format!(in alloc; ",{}", point.0)?;
        text.append(field.as_bytes())?;
    }
    Ok(())
}

/// Appends the rows of the resistors.
fn print_resistors(alloc: Global, text: &mut Bytes, resistors: &[Resistor]) -> Result<(), Memory>
    ensures { OnOk result (text.new ≡ text.old ++ flat_map line_of (map resistor_row resistors.now)) }
{
    for resistor in resistors {
        print_resistor(alloc, text, resistor)?;
    }
    Ok(())
}

/// Appends the row of a resistor.
fn print_resistor(alloc: Global, text: &mut Bytes, r: &Resistor) -> Result<(), Memory>
    ensures { OnOk result (text.new ≡ text.old ++ line_of (resistor_row r.now)) }
{
    let line = format!(in alloc;
        "resistor,{},{},{},{},{}\n",
        r.name.text(),
        r.a.0,
        r.b.0,
        r.min,
        r.max
    )?;
    text.append(line.as_bytes())
}

/// Appends the rows of the diodes.
fn print_diodes(alloc: Global, text: &mut Bytes, diodes: &[Diode]) -> Result<(), Memory>
    ensures { OnOk result (text.new ≡ text.old ++ flat_map line_of (map diode_row diodes.now)) }
{
    for diode in diodes {
        print_diode(alloc, text, diode)?;
    }
    Ok(())
}

/// Appends the row of a diode.
fn print_diode(alloc: Global, text: &mut Bytes, d: &Diode) -> Result<(), Memory>
    ensures { OnOk result (text.new ≡ text.old ++ line_of (diode_row d.now)) }
{
    let line = format!(in alloc;
        "diode,{},{},{},{},{}\n",
        d.name.text(),
        d.from.0,
        d.to.0,
        d.min,
        d.max
    )?;
    text.append(line.as_bytes())
}

/// Appends the row of the insulation test, where there is one.
fn print_insulation(
    alloc: Global,
    text: &mut Bytes,
    insulation: &Option<Insulation>,
) -> Result<(), Memory>
    ensures { OnOk result (text.new ≡ text.old ++ flat_map line_of (insulation_rows insulation.now)) }
{
    let Some(i) = insulation else {
        return Ok(());
    };
    let line = format!(in alloc; "insulation,{},{},{}\n", i.volts, i.ticks, i.megohms)?;
    text.append(line.as_bytes())
}

/// Appends the row of the withstand test, where there is one.
fn print_withstand(
    alloc: Global,
    text: &mut Bytes,
    withstand: &Option<Withstand>,
) -> Result<(), Memory>
    ensures { OnOk result (text.new ≡ text.old ++ flat_map line_of (withstand_rows withstand.now)) }
{
    let Some(w) = withstand else {
        return Ok(());
    };
    let line = format!(in alloc; "withstand,{},{},{}\n", w.volts, w.ticks, w.nanoamps)?;
    text.append(line.as_bytes())
}

/// Appends the row of the number of attempts.
fn print_attempts(alloc: Global, text: &mut Bytes, attempts: u8) -> Result<(), Memory>
    ensures { OnOk result (text.new ≡ text.old ++ line_of (attempts_row attempts)) }
{
    let line = format!(in alloc; "attempts,{attempts}\n")?;
    text.append(line.as_bytes())
}
