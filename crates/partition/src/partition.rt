//! Partitions of the points.

ghost use Rattle.std.specs.Prelude.{◌≡◌, ◌≢◌, true, false, ℕ, ◌<◌, ◌^◌, ◌↔◌, ◌==◌, IsTrue, List, length, map, min, max, if◌then◌else◌, IfOk, All};
ghost use Rattle.std.specs.Prelude.{vec_len, slice_index, slice_set};
ghost use Rattle.partition.specs.Classes.{points_below, class_at, no_class, classes_by, judged_in, Same, merged};
ghost use Rattle.partition.specs.Partitions.{HasClass, IsOver, IsPartitionValue, JoinsBesides};
ghost use Rattle.partition.specs.Partitions.{IsLabel};
ghost use Rattle.partition.specs.Heads.{heads};
ghost use Rattle.partition.specs.Claims.{head_class};
ghost use Rattle.partition.specs.NetTable.{IsNetTable, programmed_of};

use crate::{Nets, Point, PointList};
use base::Memory;
use std::alloc::Global;
use std::marker::Model;

/// The number of no point.
pub const NO_POINT: u16 = u16::MAX;

/// The points in classes. Contracts see the class number of each point: the least point of its class.
#[derive(Debug, Drop)]
pub struct Partition {
    classes: Vec<Point>,
}

impl Model for Partition {
    ghost Value = { List ℕ };

    ghost view = { λ p. p.classes.items };

    ghost invariant = { λ p. IsPartitionValue p.classes.items };
}

impl Partition {
    /// Each of the points 0 to n-1 in a class of its own.
    pub fn singles(alloc: Global, n: u16) -> Result<Self, Memory>
        ensures { IfOk result (λ p. p ≡ points_below n) }
    {
        let mut classes = Vec::new(alloc);
        for i in 0..n {
            classes.push(Point(i))?;
        }
        Ok(Partition { classes })
    }

    /// The partition whose classes are the nets.
    pub fn of_nets(alloc: Global, nets: &Nets) -> Result<Self, Memory>
        ensures { IfOk result (λ p. p ≡ programmed_of nets.now) }
    {
        let classes = head_labels(alloc, nets)?;
        Ok(Partition { classes })
    }

    /// The partition in which two points are together where their labels are equal. A label is the number of a point, or 65,535 at a point that does not count.
    pub fn by_labels(alloc: Global, labels: &[Point]) -> Result<Self, Memory>
        requires few { length labels.now < 2 ^ 16 }
        requires labels { All (IsLabel (length labels.now)) labels.now }
        ensures { IfOk result (λ p. p ≡ classes_by (judged_in labels.now) (length labels.now) (class_at labels.now)) }
    {
        let mut firsts = vec![in alloc; NO_POINT; labels.len()]?;
        let mut classes = Vec::new(alloc);
        for (p, label) in labels.iter().enumerate() {
            let class = keep_first(&mut firsts, *label, p as u16);
            classes.push(Point(class))?;
        }
        Ok(Partition { classes })
    }

    /// The same partition again.
    pub fn copy(&self, alloc: Global) -> Result<Self, Memory>
        ensures { IfOk result (λ p. p ≡ self.now) }
    {
        let classes = Vec::from_slice(alloc, self.classes.as_slice())?;
        Ok(Partition { classes })
    }

    /// How many points it has, which its class numbers can name.
    pub fn points(&self) -> u16
        ensures points { result ≡ length self.now }
        ensures valid { IsPartitionValue self.now }
    {
        self.classes.len() as u16
    }

    /// The least point of a point's class, or no point where it does not count. Takes no memory.
    pub fn class_of(&self, point: Point) -> Point
        requires { point < length self.now }
        ensures { result ≡ class_at self.now point }
    {
        self.classes[point.index()]
    }

    /// Whether a point counts: it has a class. Takes no memory.
    pub fn judges(&self, point: Point) -> bool
        requires { point < length self.now }
        ensures judged { result ≡ true → HasClass self.now point }
        ensures none { result ≡ false → class_at self.now point ≡ no_class }
    {
        self.class_of(point) < Point(NO_POINT)
    }

    /// Whether two points are in one class. Takes no memory.
    pub fn same(&self, a: Point, b: Point) -> bool
        requires a { a < length self.now }
        requires b { b < length self.now }
        ensures { IsTrue result ↔ Same self.now a b }
    {
        self.class_of(a) == self.class_of(b)
    }

    /// Whether two partitions are one. Takes no memory.
    pub fn equal(&self, other: &Partition) -> bool
        requires { length other.now ≡ length self.now }
        ensures { IsTrue result ↔ (other.now ≡ self.now) }
    {
        other.classes.as_slice() == self.classes.as_slice()
    }

    /// Makes the classes of two points one. Takes no memory.
    pub fn merge(&mut self, a: Point, b: Point)
        requires a { HasClass self.old a }
        requires b { HasClass self.old b }
        ensures together { JoinsBesides self.old self.new a b }
        ensures over { IsOver self.old self.new }
        ensures merged { self.new ≡ merged self.old a b }
    {
        let one = self.class_of(a);
        let other = self.class_of(b);
        let (low, high) = ordered(one, other);
        relabel(&mut self.classes, high, low);
    }

    /// The least point of each class, in ascending order.
    pub fn heads(&self, alloc: Global) -> Result<PointList, Memory>
        ensures heads { IfOk result (λ list. list ≡ heads self.now) }
        ensures valid { IsPartitionValue self.now }
    {
        let mut list = PointList::new(alloc);
        for (i, class) in self.classes.iter().enumerate() {
            if class.index() == i {
                list.push(*class)?;
            }
        }
        Ok(list)
    }
}

/// The head of each point's net, and no point where the point does not count.
pub fn head_labels(alloc: Global, nets: &Nets) -> Result<Vec<Point>, Memory>
    ensures labels { IfOk result (λ labels. labels.items ≡ map (head_class nets.now) (points_below nets.now.points)) }
    ensures valid { IsNetTable nets.now }
    ensures few { nets.now.points < 2 ^ 16 }
{
    let mut labels = Vec::new(alloc);
    for p in 0..nets.points() {
        labels.push(class_by_nets(nets, Point(p)))?;
    }
    Ok(labels)
}

/// The class of a point in the partition by nets.
fn class_by_nets(nets: &Nets, point: Point) -> Point
    requires { point < nets.now.points }
    ensures { result ≡ head_class nets.now point }
{
    if nets.judged(point) {
        nets.net(nets.net_of(point))[0]
    } else {
        Point(NO_POINT)
    }
}

/// The number that was kept first at this label, which is this one where none was. Where the point does not count it is no point.
fn keep_first(firsts: &mut Vec<u16>, label: Point, number: u16) -> u16
    requires { IsLabel (vec_len firsts.old) label }
    ensures none { label ≡ no_class → (result ≡ no_class) × (firsts.new.items ≡ firsts.old.items) }
    ensures first { label ≢ no_class → result ≡ (if slice_index firsts.old.items label == NO_POINT then number else slice_index firsts.old.items label) }
    ensures kept { label ≢ no_class → firsts.new.items ≡ slice_set firsts.old.items label result }
{
    if label == Point(NO_POINT) {
        return NO_POINT;
    }
    let kept = firsts[label.index()];
    let first = if kept == NO_POINT { number } else { kept };
    firsts[label.index()] = first;
    first
}

/// The lesser of two points, then the other.
fn ordered(a: Point, b: Point) -> (Point, Point)
    ensures low { result.0 ≡ min a b }
    ensures high { result.1 ≡ max a b }
{
    if a < b { (a, b) } else { (b, a) }
}

/// Puts the one class number in the place of the other.
fn relabel(classes: &mut [Point], from: Point, to: Point)
    ensures { classes.new ≡ map (λ c. if c == from then to else c) classes.old }
{
    for class in classes.iter_mut() {
        if *class == from {
            *class = to;
        }
    }
}
