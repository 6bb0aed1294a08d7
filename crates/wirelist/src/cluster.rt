//! Clusters of nets that components link.

ghost use Rattle.std.specs.Prelude.{◌≡◌, ◌<◌, ◌≤◌, ◌^◌, map, IfOk, IsTrue};
ghost use Rattle.partition.specs.Classes.{has, merged};
ghost use Rattle.partition.specs.NetTable.{IsNetTable, judged_points, net_at, net_count};
ghost use Rattle.wirelist.specs.Clusters.{cluster_classes, cluster_count, net_clusters, resistor_link, diode_link};
ghost use Rattle.wirelist.specs.Clusters.{ResistorsInside, DiodesInside, ComponentsInside};
ghost use Rattle.wirelist.specs.Linking.{AreOfNets, linked_by, first_net_of, first_nets_of};

use crate::{Diode, Program, Resistor};
use base::Memory;
use partition::{Nets, Partition, Point, PointList};
use std::alloc::Global;

/// The number at a point that is in no cluster.
const NO_CLUSTER: u16 = 65_535;

/// The points' partition by cluster: two points are together where a walk of components links their nets. A point that is
/// not judged is in no cluster.
pub fn clusters(alloc: Global, p: &Program) -> Result<Partition, Memory>
    requires { ComponentsInside p.now }
    ensures { IfOk result (λ classes. classes ≡ cluster_classes p.now) }
{
    let linked = linked_nets(alloc, p)?;
    let labels = first_nets(alloc, &p.nets, &linked)?;
    Partition::by_labels(alloc, labels.as_slice())
}

/// How many clusters there are.
pub fn cluster_count(alloc: Global, p: &Program) -> Result<u32, Memory>
    requires { ComponentsInside p.now }
    ensures { IfOk result (λ count. count ≡ cluster_count p.now) }
{
    let linked = linked_nets(alloc, p)?;
    let firsts = linked.heads(alloc)?;
    Ok(firsts.len() as u32)
}

/// The nets that components link, as classes.
fn linked_nets(alloc: Global, p: &Program) -> Result<Partition, Memory>
    requires { ComponentsInside p.now }
    ensures linked { IfOk result (λ linked. linked ≡ net_clusters p.now) }
    ensures nets { IfOk result (AreOfNets p.now.nets) }
    ensures few { IfOk result (λ _. net_count p.now.nets ≤ p.now.nets.points) }
    ensures small { IfOk result (λ _. p.now.nets.points < 2 ^ 16) }
    ensures table { IfOk result (λ _. IsNetTable p.now.nets) }
{
    let _point_count = p.nets.points();
    let mut linked = Partition::singles(alloc, p.nets.count() as u16)?;
    link_resistors(&mut linked, &p.nets, p.resistors.as_slice());
    link_diodes(&mut linked, &p.nets, p.diodes.as_slice());
    Ok(linked)
}

/// Makes the nets at the ends of each resistor one class.
fn link_resistors(linked: &mut Partition, nets: &Nets, resistors: &[Resistor])
    requires nets { AreOfNets nets.now linked.old }
    requires inside { ResistorsInside nets.now resistors.now }
    ensures linked { linked.new ≡ linked_by linked.old (map (resistor_link nets.now) resistors.now) }
    ensures nets { AreOfNets nets.now linked.new }
{
    for resistor in resistors {
        link(linked, nets, resistor.a, resistor.b);
    }
}

/// Makes the nets at the ends of each diode one class.
fn link_diodes(linked: &mut Partition, nets: &Nets, diodes: &[Diode])
    requires nets { AreOfNets nets.now linked.old }
    requires inside { DiodesInside nets.now diodes.now }
    ensures linked { linked.new ≡ linked_by linked.old (map (diode_link nets.now) diodes.now) }
    ensures nets { AreOfNets nets.now linked.new }
{
    for diode in diodes {
        link(linked, nets, diode.from, diode.to);
    }
}

/// Makes the nets of two points one class.
fn link(linked: &mut Partition, nets: &Nets, a: Point, b: Point)
    requires nets { AreOfNets nets.now linked.old }
    requires a { IsTrue (has (judged_points nets.now) a) }
    requires b { IsTrue (has (judged_points nets.now) b) }
    ensures linked { linked.new ≡ merged linked.old (net_at nets.now a) (net_at nets.now b) }
    ensures nets { AreOfNets nets.now linked.new }
{
    linked.merge(net_point(nets, a), net_point(nets, b));
}

/// The first net of each point's cluster.
fn first_nets(alloc: Global, nets: &Nets, linked: &Partition) -> Result<PointList, Memory>
    requires { AreOfNets nets.now linked.now }
    ensures { IfOk result (λ labels. labels ≡ first_nets_of nets.now linked.now) }
{
    let mut labels = PointList::new(alloc);
    for p in 0..nets.points() {
        labels.push(first_net(nets, linked, Point(p)))?;
    }
    Ok(labels)
}

/// The first net of a point's cluster, or 65,535 where the point is not judged.
fn first_net(nets: &Nets, linked: &Partition, point: Point) -> Point
    requires nets { AreOfNets nets.now linked.now }
    requires inside { point < nets.now.points }
    ensures { result ≡ first_net_of nets.now linked.now point }
{
    if nets.judged(point) {
        linked.class_of(net_point(nets, point))
    } else {
        Point(NO_CLUSTER)
    }
}

/// The number of a point's net, as a point of the partition of nets.
fn net_point(nets: &Nets, point: Point) -> Point
    requires judged { IsTrue (has (judged_points nets.now) point) }
    requires few { net_count nets.now < 2 ^ 16 }
    ensures number { result ≡ net_at nets.now point }
    ensures inside { result < net_count nets.now }
{
    Point(nets.net_of(point) as u16)
}
