//! By what a measured partition differs from the nets.

ghost use Rattle.std.specs.Prelude.{◌≡◌, ◌<◌, ◌^◌, IfOk, filter, not};
ghost use Rattle.partition.specs.NetTable.{IsNetTable};
ghost use Rattle.difference.specs.Difference.{difference_of};
ghost use Rattle.difference.specs.Measured.{AreMixed, CanBeMarked, IsMeasured, is_marked};

use crate::anchors::anchors;
use crate::shorts::shorts;
use crate::strays::pieces;
use crate::{Difference, Piece, Pieces};
use base::Memory;
use partition::{Nets, Partition, Point};
use std::alloc::Global;

/// The opens, the shorts and the miswires of a measured partition of the points that count.
pub fn difference(alloc: Global, nets: &Nets, measured: &Partition) -> Result<Difference, Memory>
    requires { IsMeasured nets.now measured.now }
    ensures { IfOk result (λ d. d ≡ difference_of nets.now measured.now) }
{
    let anchors = anchors(alloc, nets, measured)?;
    let pieces = pieces(alloc, nets, measured, &anchors)?;
    let mixed = mixed_classes(alloc, nets, measured)?;
    let (opens, miswires) = parted(alloc, pieces, measured, &mixed)?;
    Ok(Difference {
        opens: Pieces::from_vec(opens),
        shorts: shorts(alloc, nets, measured)?,
        miswires: Pieces::from_vec(miswires),
    })
}

/// Whether points of several nets are in each class, at the class's number.
fn mixed_classes(alloc: Global, nets: &Nets, measured: &Partition) -> Result<Vec<bool>, Memory>
    requires { IsMeasured nets.now measured.now }
    ensures mixed { IfOk result (λ mixed. AreMixed nets.now measured.now nets.now.points mixed.items) }
    ensures valid { IsNetTable nets.now }
    ensures few { nets.now.points < 2 ^ 16 }
{
    let mut mixed = vec![in alloc; false; nets.points() as usize]?;
    for p in 0..nets.points() {
        let point = Point(p);
        if measured.judges(point) {
            let class = measured.class_of(point);
            if nets.net_of(point) != nets.net_of(class) {
                mixed[class.index()] = true;
            }
        }
    }
    Ok(mixed)
}

/// The pieces whose class holds points of one net, and the others.
fn parted(
    alloc: Global,
    pieces: Vec<Piece>,
    measured: &Partition,
    mixed: &[bool],
) -> Result<(Vec<Piece>, Vec<Piece>), Memory>
    requires { CanBeMarked measured.now mixed.now pieces.items }
    ensures opens { IfOk result (λ parts. parts.0.items ≡ filter (λ piece. not (is_marked measured.now mixed.now piece)) pieces.items) }
    ensures miswires { IfOk result (λ parts. parts.1.items ≡ filter (is_marked measured.now mixed.now) pieces.items) }
{
    let mut opens = Vec::new(alloc);
    let mut miswires = Vec::new(alloc);
    for piece in pieces {
        if mixed[measured.class_of(piece.class).index()] {
            miswires.push(piece)?;
        } else {
            opens.push(piece)?;
        }
    }
    Ok((opens, miswires))
}
