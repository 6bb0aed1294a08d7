//! The partition that a difference describes.

ghost use Rattle.std.specs.Prelude.{◌≡◌, ℕ, ◌<◌, ◌^◌, All, IsTrue, IfOk, length, map, if◌then◌else◌};
ghost use Rattle.partition.specs.Classes.{points_below, class_at, no_class, has};
ghost use Rattle.partition.specs.Claims.{head_class};
ghost use Rattle.partition.specs.NetTable.{IsNetTable, judged_points, net_at, net_count};
ghost use Rattle.partition.specs.NetTable.{head_at};
ghost use Rattle.difference.specs.Rebuild.{rebuilt, piece_label, short_label};
ghost use Rattle.difference.specs.Labelling.{AreLabels, IsInRange, PieceIsOf, ShortIsOf};

use crate::{Difference, Piece, Short};
use base::Memory;
use partition::{NO_POINT, Nets, Partition, Point, head_labels};
use std::alloc::Global;

/// The partition that a difference describes: points of equal label are together. The label of a point is the class of the last piece that
/// holds it, else of the last short that names its net, else its net's head.
pub fn rebuild(alloc: Global, nets: &Nets, d: &Difference) -> Result<Partition, Memory>
    requires { IsInRange nets.now d.now }
    ensures { IfOk result (λ p. p ≡ rebuilt nets.now d.now) }
{
    let mut labels = head_labels(alloc, nets)?;
    write_labels(&mut labels, nets, d);
    Partition::by_labels(alloc, &labels)
}

/// Gives each point the label that the difference says, where it had its net's head.
fn write_labels(labels: &mut [Point], nets: &Nets, d: &Difference)
    requires size { length labels.old ≡ nets.now.points }
    requires heads { (p : ℕ) → IsTrue (has (judged_points nets.now) p) → class_at labels.old p ≡ head_at nets.now p }
    requires in_range { IsInRange nets.now d.now }
    ensures { AreLabels nets.now d.now labels.new }
{
    label_shorts(labels, nets, d.shorts.as_slice());
    label_pieces(labels, d.opens.as_slice());
    label_pieces(labels, d.miswires.as_slice());
    leave_out(labels, nets);
}

/// Gives the nets of each short its class, one short after another.
fn label_shorts(labels: &mut [Point], nets: &Nets, shorts: &[Short])
    requires size { length labels.old ≡ nets.now.points }
    requires shorts { All (ShortIsOf nets.now.points (net_count nets.now)) shorts.now }
    ensures { (p : ℕ) → IsTrue (has (judged_points nets.now) p) → class_at labels.new p ≡ short_label shorts.now (net_at nets.now p) (class_at labels.old p) }
{
    for short in shorts {
        label_short(labels, nets, short);
    }
}

/// Gives the nets of a short its class.
fn label_short(labels: &mut [Point], nets: &Nets, short: &Short)
    requires size { length labels.old ≡ nets.now.points }
    requires short { ShortIsOf nets.now.points (net_count nets.now) short.now }
    ensures { (p : ℕ) → IsTrue (has (judged_points nets.now) p)
        → class_at labels.new p ≡ (if has short.now.nets (net_at nets.now p) then short.now.class else class_at labels.old p) }
{
    for net in short.nets.as_slice() {
        label(labels, nets.net(*net), short.class);
    }
}

/// Gives the points of each piece its class, one piece after another.
fn label_pieces(labels: &mut [Point], pieces: &[Piece])
    requires { All (PieceIsOf (length labels.old)) pieces.now }
    ensures { (p : ℕ) → p < length labels.old → class_at labels.new p ≡ piece_label pieces.now p (class_at labels.old p) }
{
    for piece in pieces {
        label(labels, piece.points.as_slice(), piece.class);
    }
}

/// Gives some points a label.
fn label(labels: &mut [Point], points: &[Point], to: Point)
    requires { All (λ p. p < length labels.old) points.now }
    ensures { (p : ℕ) → p < length labels.old → class_at labels.new p ≡ (if has points.now p then to else class_at labels.old p) }
{
    for point in points {
        labels[point.index()] = to;
    }
}

/// Takes the label from each point that does not count.
fn leave_out(labels: &mut [Point], nets: &Nets)
    requires { length labels.old ≡ nets.now.points }
    ensures { (p : ℕ) → p < length labels.old → class_at labels.new p ≡ (if has (judged_points nets.now) p then class_at labels.old p else no_class) }
{
    for p in 0..nets.points() {
        let point = Point(p);
        if !nets.judged(point) {
            labels[point.index()] = Point(NO_POINT);
        }
    }
}
