//! The classes of a partition, as lists of points.

ghost use Rattle.std.specs.Prelude.{◌≡◌, ◌<◌, length, IfOk};
ghost use Rattle.learned_program.specs.LearnedProgram.{class_points, learned_nets};

use base::Memory;
use partition::{NetLists, Partition, Point, PointList};
use std::alloc::Global;

/// The classes of two points or more, in order of least point.
pub fn classes_of(alloc: Global, partition: &Partition) -> Result<NetLists, Memory>
    ensures { IfOk result (λ lists. lists ≡ learned_nets partition.now) }
{
    let heads = partition.heads(alloc)?;
    let mut lists = NetLists::new(alloc);
    for head in heads.as_slice() {
        let points = points_of(alloc, partition, *head)?;
        if points.len() > 1 {
            lists.push(points)?;
        }
    }
    Ok(lists)
}

/// The points of the class of this number, ascending.
fn points_of(alloc: Global, partition: &Partition, class: Point) -> Result<PointList, Memory>
    ensures { IfOk result (λ list. list ≡ class_points partition.now class) }
{
    let mut list = PointList::new(alloc);
    for p in 0..partition.points() {
        if partition.class_of(Point(p)) == class {
            list.push(Point(p))?;
        }
    }
    Ok(list)
}
