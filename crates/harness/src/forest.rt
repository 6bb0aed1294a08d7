//! The joined points of a unit.

ghost use Rattle.std.specs.Prelude.{◌≡◌, ◌<◌, ◌≤◌, ℕ, List, [], length, min, max, slice_index, All, IfOk, OnOk};
ghost use Rattle.partition.specs.Classes.{points_below};
ghost use Rattle.rig.specs.Joins.{IsRowBelow, join_of, joined_classes};
ghost use Rattle.harness.specs.Forest.{Descends, IsForest, AreListed, Climbs, Links};

use base::Memory;
use partition::{Partition, Point};
use rig::Row;
use std::alloc::Global;

/// A resistor of at most so many milliohms is a join.
pub(crate) const MOST_JOIN: u64 = 10_000;

/// Points in trees, each tree a class of joined points: a point's parent is no greater, and the root is the least point of its tree. Points
/// that are not their own parent are listed.
#[derive(Drop)]
pub(crate) struct Forest {
    parents: Vec<Point>,
    moved: Vec<Point>,
}

/// The classes of the points that the rows join, in time about proportional to points and rows.
pub fn join(alloc: Global, points: u16, rows: &[Row]) -> Result<Partition, Memory>
    requires { All (IsRowBelow points) rows.now }
    ensures { IfOk result (λ classes. classes ≡ joined_classes rows.now points) }
{
    let mut forest = Forest::new(alloc, points)?;
    forest.link_all(rows)?;
    forest.flatten();
    Partition::by_labels(alloc, forest.parents.as_slice())
}

impl Forest {
    /// Each point alone.
    pub(crate) fn new(alloc: Global, points: u16) -> Result<Self, Memory>
        ensures parents { IfOk result (λ forest. forest.parents.items ≡ points_below points) }
        ensures moved { IfOk result (λ forest. forest.moved.items ≡ []) }
    {
        let mut parents = Vec::new(alloc);
        for point in 0..points {
            parents.push(Point(point))?;
        }
        Ok(Forest {
            parents,
            moved: Vec::new(alloc),
        })
    }

    /// Makes the trees of the joined points, where each point is alone.
    pub(crate) fn link_all(&mut self, rows: &[Row]) -> Result<(), Memory>
        requires alone { self.old.parents.items ≡ points_below (length self.old.parents.items) }
        requires below { All (IsRowBelow (length self.old.parents.items)) rows.now }
        ensures size { OnOk result (length self.new.parents.items ≡ length self.old.parents.items) }
        ensures forest { OnOk result (IsForest self.new.parents.items (joined_classes rows.now (length self.old.parents.items))) }
        ensures listed { OnOk result (AreListed self.new.parents.items self.new.moved.items) }
    {
        for row in rows {
            if let Some(ends) = joined_ends(row) {
                self.link(ends.0, ends.1)?;
            }
        }
        Ok(())
    }

    /// Makes the trees of two points one.
    fn link(&mut self, a: Point, b: Point) -> Result<(), Memory>
        requires down { Descends self.old.parents.items }
        requires a { a < length self.old.parents.items }
        requires b { b < length self.old.parents.items }
        ensures { OnOk result (Links self.old.parents.items self.new.parents.items self.old.moved.items self.new.moved.items a b) }
    {
        let one = self.root(a);
        let other = self.root(b);
        let (low, high) = in_order(one, other);
        self.moved.push(high)?;
        self.parents[high.index()] = low;
        Ok(())
    }

    /// The root of a point's tree: the least point of its class. On the way, points are set below their parent's parent.
    pub(crate) fn root(&mut self, point: Point) -> Point
        requires down { Descends self.old.parents.items }
        requires inside { point < length self.old.parents.items }
        ensures climbs { Climbs self.old.parents.items self.new.parents.items point result }
        ensures root { slice_index self.new.parents.items result ≡ result }
        ensures moved { self.new.moved.items ≡ self.old.moved.items }
    {
        let mut at = point;
        while self.parents[at.index()] != at {
            let parent = self.parents[at.index()];
            let above = self.parents[parent.index()];
            self.parents[at.index()] = above;
            at = above;
        }
        at
    }

    /// Sets each point below the root of its tree.
    fn flatten(&mut self)
        requires { Descends self.old.parents.items }
        ensures { (classes : List ℕ) → IsForest self.old.parents.items classes → self.new.parents.items ≡ classes }
    {
        for point in 0..self.parents.len() {
            let parent = self.parents[point];
            let root = self.parents[parent.index()];
            self.parents[point] = root;
        }
    }

    /// Leaves each point alone again, in time proportional to the points that were not.
    pub(crate) fn reset(&mut self)
        requires { AreListed self.old.parents.items self.old.moved.items }
        ensures parents { self.new.parents.items ≡ points_below (length self.old.parents.items) }
    {
        while let Some(point) = self.moved.pop() {
            if point.index() < self.parents.len() {
                self.parents[point.index()] = point;
            }
        }
    }
}

/// The ends of a row that is a join.
fn joined_ends(row: &Row) -> Option<(Point, Point)>
    ensures { result ≡ join_of row.now }
{
    match row {
        Row::Wire(a, b) => Some((*a, *b)),
        Row::Resistor(a, b, milliohms) if *milliohms <= MOST_JOIN => Some((*a, *b)),
        _ => None,
    }
}

/// The lesser of two points, then the other.
fn in_order(a: Point, b: Point) -> (Point, Point)
    ensures low { result.0 ≡ min a b }
    ensures high { result.1 ≡ max a b }
{
    if a < b { (a, b) } else { (b, a) }
}
