//! The anchors of measured classes.

ghost use Rattle.std.specs.Prelude.{IfOk};
ghost use Rattle.difference.specs.Measured.{AreAnchors, IsMeasured};

use base::Memory;
use partition::{Nets, Partition, Point};
use std::alloc::Global;

/// The anchor of each class, at the class's number: the head of the first net whose home it is, or else its least point.
pub(crate) fn anchors(
    alloc: Global,
    nets: &Nets,
    measured: &Partition,
) -> Result<Vec<Point>, Memory>
    requires { IsMeasured nets.now measured.now }
    ensures { IfOk result (λ anchors. AreAnchors nets.now measured.now anchors.items) }
{
    let mut anchors = Vec::new(alloc);
    for p in 0..nets.points() {
        anchors.push(Point(p))?;
    }
    for i in (0..nets.count()).rev() {
        let head = nets.head(i);
        anchors[measured.class_of(head).index()] = head;
    }
    Ok(anchors)
}
