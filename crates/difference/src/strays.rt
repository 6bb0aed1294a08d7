//! The points that are not at their net's home, in pieces.

ghost use Rattle.std.specs.Prelude.{◌≡◌, ◌<◌, ◌^◌, ◌==◌, All, IsTrue, IfOk, OnOk, map, filter};
ghost use Rattle.partition.specs.Classes.{points_below, has};
ghost use Rattle.difference.specs.Difference.{pieces_of};
ghost use Rattle.partition.specs.NetTable.{judged_points, net_at, net_count};
ghost use Rattle.difference.specs.Measured.{AreAnchors, IsMeasured, is_stray, stray_anchor, goes_on, with_point, pieces_along};

use crate::Piece;
use base::Memory;
use partition::{NOBODY, NetLists, Nets, Partition, Point, PointList, grouped};
use std::alloc::Global;

/// The pieces of the nets, in order of net, then of anchor.
pub(crate) fn pieces(
    alloc: Global,
    nets: &Nets,
    measured: &Partition,
    anchors: &[Point],
) -> Result<Vec<Piece>, Memory>
    requires measured { IsMeasured nets.now measured.now }
    requires anchors { AreAnchors nets.now measured.now anchors.now }
    ensures { IfOk result (λ pieces. pieces.items ≡ pieces_of nets.now measured.now) }
{
    let strays = stray_anchors(alloc, nets, measured, anchors)?;
    let by_anchor = grouped(alloc, &strays, nets.points() as usize)?.joined(alloc)?;
    let by_net = grouped_by_net(alloc, nets, by_anchor.as_slice())?.joined(alloc)?;
    pieces_along(alloc, nets, measured, anchors, by_net.as_slice())
}

/// The anchor of each point's class where the point is a stray, and nobody at each other point.
fn stray_anchors(
    alloc: Global,
    nets: &Nets,
    measured: &Partition,
    anchors: &[Point],
) -> Result<Vec<u32>, Memory>
    requires measured { IsMeasured nets.now measured.now }
    requires anchors { AreAnchors nets.now measured.now anchors.now }
    ensures { IfOk result (λ found. found.items ≡ map (stray_anchor nets.now measured.now) (points_below nets.now.points)) }
{
    let mut found = Vec::new(alloc);
    for p in 0..nets.points() {
        found.push(stray_anchor(nets, measured, anchors, Point(p)))?;
    }
    Ok(found)
}

/// The anchor of a point's class where the point is a stray, and otherwise nobody.
fn stray_anchor(nets: &Nets, measured: &Partition, anchors: &[Point], point: Point) -> u32
    requires measured { IsMeasured nets.now measured.now }
    requires anchors { AreAnchors nets.now measured.now anchors.now }
    requires inside { point < nets.now.points }
    requires few { nets.now.points < 2 ^ 16 }
    ensures { result ≡ stray_anchor nets.now measured.now point }
{
    if !is_stray(nets, measured, point) {
        return NOBODY;
    }
    let anchor = anchors[measured.class_of(point).index()];
    anchor.index() as u32
}

/// Whether a point counts and is not in its net's home.
fn is_stray(nets: &Nets, measured: &Partition, point: Point) -> bool
    requires measured { IsMeasured nets.now measured.now }
    requires inside { point < nets.now.points }
    requires few { nets.now.points < 2 ^ 16 }
    ensures { result ≡ is_stray nets.now measured.now point }
{
    measured.judges(point) && !measured.same(point, nets.head(nets.net_of(point)))
}

/// The points of each net, in the order in which they stand.
fn grouped_by_net(alloc: Global, nets: &Nets, points: &[Point]) -> Result<NetLists, Memory>
    requires { All (λ p. IsTrue (has (judged_points nets.now) p)) points.now }
    ensures { IfOk result (λ lists. lists ≡ map (λ i. filter (λ p. net_at nets.now p == i) points.now) (points_below (net_count nets.now))) }
{
    let mut lists = NetLists::empty_nets(alloc, nets.count() as usize)?;
    for point in points {
        lists.add(nets.net_of(*point) as usize, *point)?;
    }
    Ok(lists)
}

/// The pieces that points make as they stand: each begins a piece, or goes on with the one before.
fn pieces_along(
    alloc: Global,
    nets: &Nets,
    measured: &Partition,
    anchors: &[Point],
    points: &[Point],
) -> Result<Vec<Piece>, Memory>
    requires measured { IsMeasured nets.now measured.now }
    requires anchors { AreAnchors nets.now measured.now anchors.now }
    requires points { All (λ p. IsTrue (has (judged_points nets.now) p)) points.now }
    ensures { IfOk result (λ pieces. pieces.items ≡ pieces_along nets.now measured.now points.now) }
{
    let mut pieces = Vec::new(alloc);
    for point in points {
        let anchor = anchors[measured.class_of(*point).index()];
        add_point(alloc, &mut pieces, nets.net_of(*point), anchor, *point)?;
    }
    Ok(pieces)
}

/// Appends a point to the last piece, where that is of this net and class, and otherwise as a piece.
fn add_point(
    alloc: Global,
    pieces: &mut Vec<Piece>,
    net: u32,
    class: Point,
    point: Point,
) -> Result<(), Memory>
    ensures { OnOk result (pieces.new.items ≡ with_point pieces.old.items net class point) }
{
    let count = pieces.len();
    if goes_on(pieces, net, class) {
        let piece = &mut pieces[count - 1];
        piece.points.push(point)
    } else {
        let points = PointList::from_slice(alloc, &[point])?;
        pieces.push(Piece { net, class, points })?;
        Ok(())
    }
}

/// Whether the last piece is of this net and class.
fn goes_on(pieces: &[Piece], net: u32, class: Point) -> bool
    ensures { result ≡ goes_on pieces.now net class }
{
    match pieces.last() {
        Some(piece) => piece.net == net && piece.class == class,
        None => false,
    }
}
