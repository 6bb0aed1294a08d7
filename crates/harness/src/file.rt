//! A harness file.

ghost use Rattle.std.specs.Prelude.{◌≡◌, ◌⊎◌, ◌≤◌, ℕ, List, [], length, IsTrue, IfOk, IfErr};
ghost use Rattle.lines.specs.Lines.{lines_of};
ghost use Rattle.harness.specs.declared.row.HarnessRow.{HarnessRow as FileRow};
ghost use Rattle.harness.specs.Places.{has_end, StandBelow};
ghost use Rattle.harness.specs.Units.{IsSecond, RefusesSecond};
ghost use Rattle.harness.specs.Harness.{row_numbers, AreRows, AreRefused, IsHarness, IsRefused, IsOfRows, IsSound};

use crate::above::Above;
use crate::numbers::{CallNumbers, call_numbers};
use crate::units::{make_units, points_of};
use crate::{HarnessRefusal, HarnessRow};
use lines::Lines;
use rig::Units;
use std::alloc::Global;

/// The greatest number of bytes.
const MOST_BYTES: usize = 8_388_608;

/// What a harness file says.
#[derive(Drop)]
pub struct Harness {
    /// The number of points, from 1 to 4,096.
    pub points: u16,
    /// The numbers of the rig calls that fail.
    pub faults: CallNumbers,
    /// The numbers of the interlock readings that are open.
    pub doors: CallNumbers,
    /// The units in the order of their lines.
    pub units: Units,
}

impl Harness {
    /// The harness of a file.
    ///
    /// # Errors
    ///
    /// The first refusal that the format gives, or `Memory` where memory ran out.
    pub fn read(alloc: Global, bytes: &[u8]) -> Result<Self, HarnessRefusal>
        ensures file { IfOk result (λ harness. (rows : List FileRow) × IsHarness bytes.now rows × IsOfRows rows harness) }
        ensures sound { IfOk result IsSound }
        ensures refused { IfErr result (λ refusal. (refusal ≡ HarnessRefusal.Memory) ⊎ IsRefused bytes.now refusal) }
    {
        if bytes.len() > MOST_BYTES {
            return Err(HarnessRefusal::TooLong);
        }
        let above = read_lines(alloc, bytes)?;
        if !above.is_ended() {
            return Err(HarnessRefusal::NoEnd);
        }
        let list = above.into_rows();
        of_rows(alloc, list.rows(), list.numbers())
    }
}

/// The rows of the lines, whether or not the last is there.
fn read_lines(alloc: Global, bytes: &[u8]) -> Result<Above, HarnessRefusal>
    ensures rows { IfOk result (λ above. AreRows (lines_of bytes.now) above.rows) }
    ensures numbers { IfOk result (λ above. above.numbers ≡ row_numbers 1 (lines_of bytes.now)) }
    ensures refused { IfErr result (λ refusal. (refusal ≡ HarnessRefusal.Memory) ⊎ AreRefused (lines_of bytes.now) refusal) }
{
    let mut above = Above::new(alloc);
    let mut number = 0;
    for line in Lines::new(bytes) {
        number += 1;
        above = above.with_line(alloc, line, number)?;
    }
    Ok(above)
}

/// The harness of some rows, whose lines have these numbers.
fn of_rows(alloc: Global, rows: &[HarnessRow], numbers: &[u32]) -> Result<Harness, HarnessRefusal>
    requires stand { StandBelow [] rows.now }
    requires ends { IsTrue (has_end rows.now) }
    requires few { length rows.now ≤ 200000 }
    requires numbered { length numbers.now ≡ length rows.now }
    ensures rows { IfOk result (IsOfRows rows.now) }
    ensures single { IfOk result (λ harness. (u j : ℕ) → IsSecond rows.now u j → ⊥) }
    ensures sound { IfOk result IsSound }
    ensures refused { IfErr result (RefusesSecond rows.now numbers.now) }
{
    let points = points_of(rows);
    let (faults, doors) = call_numbers(alloc, rows)?;
    Ok(Harness {
        points,
        faults,
        doors,
        units: make_units(alloc, points, rows, numbers)?,
    })
}
