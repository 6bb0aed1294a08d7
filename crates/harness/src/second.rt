//! A second element between two classes of a unit.

ghost use Rattle.std.specs.Prelude.{◌≡◌, ◌<◌, ◌≤◌, ℕ, List, All, length, IfOk, OnOk};
ghost use Rattle.partition.specs.Classes.{points_below, class_at};
ghost use Rattle.rig.specs.Joins.{IsRowBelow, joined_classes};
ghost use Rattle.harness.specs.Forest.{IsForest, AreListed};
ghost use Rattle.harness.specs.Units.{element_ends};
ghost use Rattle.harness.specs.Pairs.{pair_of, IsFirstRepeat};

use crate::forest::{Forest, MOST_JOIN};
use base::Memory;
use partition::Point;
use rig::Row;
use std::alloc::Global;
use std::collections::BTreeSet;

/// The place of the first element of a unit between two different classes that an earlier one lies between too. The forest is of single
/// points, and is so again.
pub(crate) fn second_of(
    alloc: Global,
    forest: &mut Forest,
    rows: &[Row],
) -> Result<Option<usize>, Memory>
    requires alone { forest.old.parents.items ≡ points_below (length forest.old.parents.items) }
    requires below { All (IsRowBelow (length forest.old.parents.items)) rows.now }
    requires few { length forest.old.parents.items ≤ 4096 }
    ensures found { IfOk result (IsFirstRepeat (joined_classes rows.now (length forest.old.parents.items)) rows.now) }
    ensures alone { IfOk result (λ _. forest.new.parents.items ≡ forest.old.parents.items) }
{
    forest.link_all(rows)?;
    let found = first_repeat(alloc, forest, rows)?;
    forest.reset();
    Ok(found)
}

/// The place of the first element that repeats the classes of an earlier one, where the forest's trees are the classes.
fn first_repeat(alloc: Global, forest: &mut Forest, rows: &[Row]) -> Result<Option<usize>, Memory>
    ghost classes: { List ℕ }
    requires forest { IsForest forest.old.parents.items classes }
    requires small { (p : ℕ) → class_at classes p ≤ 65535 }
    requires listed { AreListed forest.old.parents.items forest.old.moved.items }
    requires below { All (IsRowBelow (length forest.old.parents.items)) rows.now }
    requires few { length forest.old.parents.items ≤ 4096 }
    ensures found { IfOk result (IsFirstRepeat classes rows.now) }
    ensures size { OnOk result (length forest.new.parents.items ≡ length forest.old.parents.items) }
    ensures listed { OnOk result (AreListed forest.new.parents.items forest.new.moved.items) }
{
    let mut pairs = BTreeSet::new(alloc);
    for (place, row) in rows.iter().enumerate() {
        if let Some(ends) = open_ends(row) {
            let one = forest.root(ends.0);
            let other = forest.root(ends.1);
            if one != other && !pairs.insert(pair(one, other))? {
                return Ok(Some(place));
            }
        }
    }
    Ok(None)
}

/// The ends of a row that is a diode, or a resistor that is no join.
fn open_ends(row: &Row) -> Option<(Point, Point)>
    ensures { result ≡ element_ends row.now }
{
    match row {
        Row::Resistor(a, b, milliohms) if *milliohms > MOST_JOIN => Some((*a, *b)),
        Row::Diode(from, to, _) => Some((*from, *to)),
        _ => None,
    }
}

/// Two points as one number, whichever is first.
fn pair(a: Point, b: Point) -> u32
    ensures { result ≡ pair_of a b }
{
    let (low, high) = if a < b { (a, b) } else { (b, a) };
    low.0 as u32 * 65_536 + high.0 as u32
}
