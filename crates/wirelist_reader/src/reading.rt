//! A whole wirelist.

ghost use Rattle.std.specs.Prelude.{◌≡◌, ◌⊎◌, Ok, Err, ◌≤◌, ◌<◌, ◌^◌, ◌-◌, ◌++◌, [], length, IfOk, All};
ghost use Rattle.partition.specs.NetFaults.{table_of};
ghost use Rattle.wirelist.specs.Clusters.{ComponentsInside};
ghost use Rattle.wirelist.specs.Canonical.{canonical};
ghost use Rattle.wirelist.specs.Programs.{IsProgram};
ghost use Rattle.wirelist.specs.declared.program.Program.{Program};
ghost use Rattle.wirelist.specs.declared.refusal.WireRefusal.TheVariants as refusals_of;
ghost use Rattle.wirelist_rows.specs.Filled.{rows_in};
ghost use Rattle.wirelist_reader.specs.Reading.{IsFit, AreHeads, told};
ghost use Rattle.wirelist_reader.specs.Refusals.{Finds, FindsOrMemory, refusals, rows_refusals, all_row_faults};
ghost use Rattle.wirelist_reader.specs.Refusals.{head_faults, net_faults, part_faults, cluster_faults, later_faults};
ghost use Rattle.wirelist_reader.specs.Rows.{program_of, points_in, listed_nets, listed_ignored, ends_of};

use crate::build::{
    attempts, diodes, first_of, insulation, listed_ignored, listed_nets, net_names, resistors,
    withstand,
};
use crate::check::check_rows;
use crate::field::{name_at, number_at};
use crate::kind::Kind;
use crate::parts::{all_ends, check_parts};
use base::Memory;
use partition::{Name, Nets, NetsRefusal};
use std::alloc::Global;
use wirelist::ranges::{MOST_CLUSTERS, POINTS, REVISIONS};
use wirelist::{Program, WireRefusal, cluster_count};
use wirelist_rows::{Row, rows};

/// The greatest number of bytes.
const MOST_BYTES: usize = 1_048_576;

/// The program that a wirelist gives.
///
/// # Errors
///
/// The first fault of the file, in the order of `refusals`; `Memory` where memory ran out.
pub fn read(alloc: Global, bytes: &[u8]) -> Result<Program, WireRefusal>
    // What is read is what the rows say, and a wirelist can give it.
    ensures program { IfOk result (λ p. p ≡ program_of (rows_in bytes.now)) }
    ensures valid { IfOk result IsProgram }
    // A file is refused exactly for its first fault, unless memory runs out.
    ensures finds { FindsOrMemory (refusals bytes.now) result }
    // The canonical text of a program is read as that program.
    ensures printed { (p : Program) → IsProgram p → bytes.now ≡ canonical p → (result ≡ Ok p) ⊎ (result ≡ Err refusals_of.Memory) }
{
    if bytes.len() > MOST_BYTES {
        return Err(WireRefusal::TooLong(bytes.len().min(4_294_967_295) as u32));
    }
    let rows = rows(alloc, bytes)?;
    read_rows(alloc, rows.as_slice())
}

/// The program that rows give.
fn read_rows(alloc: Global, rows: &[Row]) -> Result<Program, WireRefusal>
    requires few { length rows.now < 2 ^ 32 - 1 }
    requires short { All (λ row. length row < 2 ^ 32 - 1) rows.now }
    ensures program { IfOk result (λ p. p ≡ program_of rows.now) }
    ensures valid { IfOk result IsProgram }
    ensures finds { FindsOrMemory (rows_refusals rows.now) result }
{
    if let Err(refusal) = check_rows(alloc, rows) {
        return Err(refusal);
    }
    match read_heads(rows) {
        Ok(heads) => read_nets_and_parts(alloc, rows, heads),
        Err(refusal) => Err(refusal),
    }
}

/// The program of rows that have no fault of their own.
fn read_nets_and_parts(alloc: Global, rows: &[Row], heads: Heads) -> Result<Program, WireRefusal>
    requires few { length rows.now < 2 ^ 32 - 1 }
    requires rows { all_row_faults rows.now ≡ [] }
    requires named { head_faults rows.now ≡ [] }
    requires heads { AreHeads rows.now heads.part heads.revision heads.points }
    ensures program { IfOk result (λ p. p ≡ program_of rows.now) }
    ensures valid { IfOk result IsProgram }
    ensures finds { FindsOrMemory (net_faults rows.now ++ later_faults rows.now) result }
{
    match read_nets(alloc, rows, heads.points) {
        Ok(nets) => read_parts(alloc, rows, heads, nets),
        Err(refusal) => Err(refusal),
    }
}

/// The program of rows that have no fault of their own and whose nets are nets.
fn read_parts(alloc: Global, rows: &[Row], heads: Heads, nets: Nets) -> Result<Program, WireRefusal>
    requires few { length rows.now < 2 ^ 32 - 1 }
    requires rows { all_row_faults rows.now ≡ [] }
    requires named { head_faults rows.now ≡ [] }
    requires heads { AreHeads rows.now heads.part heads.revision heads.points }
    requires nets { nets ≡ table_of (points_in rows.now) (listed_nets rows.now) (listed_ignored rows.now) }
    ensures program { IfOk result (λ p. p ≡ program_of rows.now) }
    ensures valid { IfOk result IsProgram }
    ensures finds { FindsOrMemory (later_faults rows.now) result }
{
    let _points = nets.points();
    let ends = all_ends(alloc, rows)?;
    if let Err(refusal) = check_parts(&nets, ends.as_slice()) {
        return Err(refusal);
    }
    let p = program(alloc, rows, heads, nets)?;
    match check_clusters(alloc, &p) {
        Ok(()) => Ok(p),
        Err(refusal) => Err(refusal),
    }
}

/// The part and the number of points.
#[derive(Clone, Copy, Debug)]
struct Heads {
    part: Name,
    revision: u32,
    points: u16,
}

/// The part and the number of points that the rows name.
fn read_heads(rows: &[Row]) -> Result<Heads, WireRefusal>
    requires { All IsFit rows.now }
    ensures finds { Finds (head_faults rows.now) result }
    ensures heads { IfOk result (λ heads. AreHeads rows.now heads.part heads.revision heads.points) }
{
    let (Some(part), Some(points)) = (first_of(rows, Kind::Part), first_of(rows, Kind::Points))
    else {
        return Err(WireRefusal::NoPart);
    };
    Ok(Heads {
        part: name_at(part, 1),
        revision: number_at(part, 2, REVISIONS) as u32,
        points: number_at(points, 1, POINTS) as u16,
    })
}

/// The nets over the judged points, where they are nets.
fn read_nets(alloc: Global, rows: &[Row], points: u16) -> Result<Nets, WireRefusal>
    requires fit { All IsFit rows.now }
    requires some { 1 ≤ points }
    requires points { points ≡ points_in rows.now }
    ensures nets { IfOk result (λ nets. nets ≡ table_of (points_in rows.now) (listed_nets rows.now) (listed_ignored rows.now)) }
    ensures finds { FindsOrMemory (net_faults rows.now) result }
{
    let lists = listed_nets(alloc, rows)?;
    let ignored = listed_ignored(alloc, rows)?;
    match Nets::judging(alloc, points, lists, ignored) {
        Ok(nets) => Ok(nets),
        Err(refusal) => Err(told(refusal)),
    }
}

/// How a refusal of nets is told.
fn told(refusal: NetsRefusal) -> WireRefusal
    ensures { result ≡ told refusal }
{
    match refusal {
        NetsRefusal::Memory => WireRefusal::Memory,
        refusal => WireRefusal::Nets(refusal),
    }
}

/// The whole program.
fn program(alloc: Global, rows: &[Row], heads: Heads, nets: Nets) -> Result<Program, Memory>
    requires fit { All IsFit rows.now }
    requires heads { AreHeads rows.now heads.part heads.revision heads.points }
    requires nets { nets ≡ table_of (points_in rows.now) (listed_nets rows.now) (listed_ignored rows.now) }
    ensures { IfOk result (λ p. p ≡ program_of rows.now) }
{
    let names = net_names(alloc, rows)?;
    let resistors = resistors(alloc, rows)?;
    let diodes = diodes(alloc, rows)?;
    Ok(Program {
        part: heads.part,
        revision: heads.revision,
        nets,
        names,
        resistors,
        diodes,
        insulation: insulation(rows),
        withstand: withstand(rows),
        attempts: attempts(rows),
    })
}

/// Whether the clusters are few enough to have their insulation tested.
fn check_clusters(alloc: Global, p: &Program) -> Result<(), WireRefusal>
    requires { ComponentsInside p.now }
    ensures { FindsOrMemory (cluster_faults p.now) result }
{
    if p.insulation.is_none() {
        return Ok(());
    }
    let count = cluster_count(alloc, p)?;
    if count > MOST_CLUSTERS {
        Err(WireRefusal::TooManyClusters(count))
    } else {
        Ok(())
    }
}
