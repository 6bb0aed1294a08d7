//! The number of each point's cluster.

ghost use Rattle.std.specs.Prelude.{◌≡◌, ◌<◌, ◌≢◌, ◌+◌, ◌-◌, ◌^◌, length, map, IfOk, slice_index, slice_set};
ghost use Rattle.partition.specs.Digits.{bit_of};
ghost use Rattle.partition.specs.NetTable.{net_count};
ghost use Rattle.wirelist.specs.Clusters.{ComponentsInside, cluster_classes};
ghost use Rattle.partition.specs.Classes.{points_below};
ghost use Rattle.cluster_groups.specs.Laws.{IsClusterable};
ghost use Rattle.cluster_groups.specs.Numbered.{IsBitChoice, clusters_by_number, is_cluster, is_on_side, is_other, points_with, takes};
ghost use Rattle.cluster_groups.specs.Places.{Places, number_by};

use base::Memory;
use partition::{Nets, Partition, Point, PointList};
use std::alloc::Global;
use std::marker::Model;
use wirelist::{Program, clusters};

/// The number of no cluster.
const NO_CLUSTER: u16 = u16::MAX;

/// The clusters of a program, numbered 0, 1, .. in order of first net. Contracts see for each point the number of its cluster,
/// 65,535 where the point is not judged, and how many clusters there are.
#[derive(Debug, Drop)]
pub struct Clusters {
    numbers: Vec<u16>,
    count: u16,
}

impl Model for Clusters {
    ghost use Rattle.std.specs.Prelude.{◌<◌, ◌^◌, length};
    ghost use Rattle.partition.specs.Classes.{points_below};
    ghost use Rattle.cluster_groups.specs.Laws.{IsClusterable};
    ghost use Rattle.cluster_groups.specs.Numbered.{Numbered};

    ghost Value = { Numbered };

    ghost view = { λ c. record { numbers = c.numbers.items; count = c.count } };

    ghost invariant = { λ c. length c.numbers.items < 2 ^ 16 };
}

/// For each class of the points by cluster the number of the cluster, and how many clusters have one.
#[derive(Drop)]
struct Placed {
    places: Vec<u16>,
    count: u16,
}

/// Which points are wanted.
#[derive(Clone, Copy, Debug, PartialEq, Eq)]
enum Choice {
    /// Those of a cluster.
    Cluster(u16),
    /// Those of the other clusters.
    Others(u16),
    /// Those of the clusters in whose number the bit is 1, or 0.
    Side { bit: u32, set: bool },
}

impl Clusters {
    /// The clusters of a program.
    pub fn of(alloc: Global, p: &Program) -> Result<Self, Memory>
        requires { ComponentsInside p.now }
        ensures clusters { IfOk result (λ c. c ≡ clusters_by_number p.now) }
        ensures clusterable { IfOk result (λ _. IsClusterable p.now) }
    {
        let _point_count = p.nets.points();
        let _net_count = p.nets.count();
        let classes = clusters(alloc, p)?;
        let placed = number_classes(alloc, p, &classes)?;
        let numbers = number_points(alloc, &classes, placed.places.as_slice())?;
        Ok(Clusters {
            numbers,
            count: placed.count,
        })
    }

    /// How many clusters there are. Takes no memory.
    pub fn count(&self) -> u16
        ensures { result ≡ self.now.count }
    {
        self.count
    }

    /// The points of a cluster, ascending.
    pub fn cluster(&self, alloc: Global, number: u16) -> Result<PointList, Memory>
        ensures { IfOk result (λ list. list ≡ points_with (is_cluster number) self.now.numbers) }
    {
        points_of(alloc, self.numbers.as_slice(), Choice::Cluster(number))
    }

    /// The judged points that are not in a cluster, ascending.
    pub fn others(&self, alloc: Global, number: u16) -> Result<PointList, Memory>
        ensures { IfOk result (λ list. list ≡ points_with (is_other number) self.now.numbers) }
    {
        points_of(alloc, self.numbers.as_slice(), Choice::Others(number))
    }

    /// The points of the clusters in whose number a bit (0 to 15) is 1, or 0, ascending.
    pub fn side(&self, alloc: Global, bit: u32, set: bool) -> Result<PointList, Memory>
        requires { bit < 16 }
        ensures { IfOk result (λ list. list ≡ points_with (is_on_side bit set) self.now.numbers) }
    {
        points_of(alloc, self.numbers.as_slice(), Choice::Side { bit, set })
    }
}

impl Choice {
    /// Whether the points of the cluster with this number are wanted.
    fn takes(self, number: u16) -> bool
        requires { IsBitChoice self }
        ensures { result ≡ takes self number }
    {
        match self {
            Choice::Cluster(k) => number == k,
            Choice::Others(k) => number != NO_CLUSTER && number != k,
            Choice::Side { bit, set } => number != NO_CLUSTER && has_bit(number, bit) == set,
        }
    }
}

/// Whether a bit of a number is 1.
fn has_bit(number: u16, bit: u32) -> bool
    requires { bit < 16 }
    ensures { result ≡ bit_of number bit }
{
    (number >> bit) & 1 == 1
}

/// The points whose number is wanted, ascending.
fn points_of(alloc: Global, numbers: &[u16], choice: Choice) -> Result<PointList, Memory>
    requires few { length numbers.now < 2 ^ 16 }
    requires bit { IsBitChoice choice }
    ensures { IfOk result (λ list. list ≡ points_with (takes choice) numbers.now) }
{
    let mut list = PointList::new(alloc);
    for (q, number) in numbers.iter().enumerate() {
        if choice.takes(*number) {
            list.push(Point(q as u16))?;
        }
    }
    Ok(list)
}

/// For each class of the points by cluster the cluster's number, and how many there are. The nets are gone through in order.
fn number_classes(alloc: Global, p: &Program, classes: &Partition) -> Result<Placed, Memory>
    requires components { ComponentsInside p.now }
    requires classes { classes.now ≡ cluster_classes p.now }
    ensures { IfOk result (λ placed. Places p.now (net_count p.now.nets) placed.places.items placed.count) }
{
    let nets = &p.nets;
    let mut places = vec![in alloc; NO_CLUSTER; nets.points() as usize]?;
    let mut count = 0;
    for i in 0..nets.count() {
        count = number_class(&mut places, count, classes.class_of(nets.head(i)));
    }
    Ok(Placed { places, count })
}

/// Gives a class the next number where it has none. Answers how many have a number then.
fn number_class(places: &mut Vec<u16>, count: u16, class: Point) -> u16
    requires inside { class < length places.old.items }
    requires few { count < 2 ^ 16 - 1 }
    ensures kept { slice_index places.old.items class ≢ NO_CLUSTER → (result ≡ count) × (places.new.items ≡ places.old.items) }
    ensures next { slice_index places.old.items class ≡ NO_CLUSTER → (result ≡ count + 1) × (places.new.items ≡ slice_set places.old.items class count) }
{
    if places[class.index()] != NO_CLUSTER {
        return count;
    }
    places[class.index()] = count;
    count + 1
}

/// The number of each point's cluster.
fn number_points(alloc: Global, classes: &Partition, places: &[u16]) -> Result<Vec<u16>, Memory>
    requires { length places.now ≡ length classes.now }
    ensures { IfOk result (λ numbers. numbers.items ≡ map (number_by classes.now places.now) (points_below (length classes.now))) }
{
    let mut numbers = Vec::new(alloc);
    for q in 0..classes.points() {
        numbers.push(number_of(classes, places, Point(q)))?;
    }
    Ok(numbers)
}

/// The number of a point's cluster, or none where the point is not judged.
fn number_of(classes: &Partition, places: &[u16], point: Point) -> u16
    requires inside { point < length classes.now }
    requires size { length places.now ≡ length classes.now }
    ensures { result ≡ number_by classes.now places.now point }
{
    let _point_count = classes.points();
    if classes.judges(point) {
        places[classes.class_of(point).index()]
    } else {
        NO_CLUSTER
    }
}
