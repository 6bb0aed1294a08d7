//! One application after the other, with one leak read in each.

ghost use Rattle.std.specs.Prelude.{◌≡◌, ◌*◌, ◌/◌, ◌%◌, ◌<◌, ◌≤◌, length, All, IfOk, IfErr, MatchResult};
ghost use Rattle.partition.specs.Partitions.{JoinsAllOf};
ghost use Rattle.applications.specs.Counting.{TalliesMore};
ghost use Rattle.applications.specs.Each.{AreSides, MeasuresEach};
ghost use Rattle.applications.specs.Measuring.{HvStopped, KeepsPartition};
ghost use Rattle.applications.specs.Ordered.{IsInOrder, StopsInOrder};

use crate::{HvStop, Measured, Sides, measure};
use partition::Partition;
use rig::{Leak, Proven, Rig};
use std::alloc::Global;

/// A proven unit after an application for each pair of groups, and the leaks that were read, in their order.
pub struct MeasuredEach<R: Rig> {
    pub proven: Proven<R>,
    pub leaks: Vec<Leak>,
}

/// Applies a voltage between each pair of groups in order, for so many ticks, and reads the leak of each.
pub fn measure_each<R: Rig>(
    alloc: Global,
    proven: Proven<R>,
    bonds: &Partition,
    pairs: &[Sides],
    volts: u16,
    ticks: u16,
) -> Result<MeasuredEach<R>, HvStop<R>>
    requires bonds { JoinsAllOf bonds.now proven.partition }
    requires pairs { All (AreSides (R.state proven.rig).points bonds.now) pairs.now }
    requires some { 0 < volts }
    requires by_fifty { volts % 50 ≡ 0 }
    requires most { volts ≤ 2000 }
    ensures ok { IfOk result (λ done. MeasuresEach bonds.now (R.state proven.rig) (R.state done.proven.rig) pairs.now volts ticks done.leaks.items) }
    ensures err { IfErr result (HvStopped R.state bonds.now (R.state proven.rig)) }
    ensures voltage { let classes = proven.partition in IsInOrder classes bonds.now (R.state proven.rig) →
        MatchResult result (λ done. IsInOrder classes bonds.now (R.state done.proven.rig)) (StopsInOrder R.state classes bonds.now) }
    ensures tallies { let n = length pairs.now in
        IfOk result (λ done. TalliesMore n (n * (volts / 50)) (n * ticks) n (R.state proven.rig) (R.state done.proven.rig)) }
    ensures partition { MatchResult result (λ done. done.proven.partition ≡ proven.partition) (KeepsPartition proven.partition) }
{
    let _point_count = proven.points();
    let _partition = proven.partition();
    measure_in_order(alloc, proven, bonds, pairs, volts, ticks)
}

/// Makes the application of each pair in order.
fn measure_in_order<R: Rig>(
    alloc: Global,
    proven: Proven<R>,
    bonds: &Partition,
    pairs: &[Sides],
    volts: u16,
    ticks: u16,
) -> Result<MeasuredEach<R>, HvStop<R>>
    requires bonds { JoinsAllOf bonds.now proven.partition }
    requires pairs { All (AreSides (R.state proven.rig).points bonds.now) pairs.now }
    requires some { 0 < volts }
    requires by_fifty { volts % 50 ≡ 0 }
    requires most { volts ≤ 2000 }
    ensures ok { IfOk result (λ done. MeasuresEach bonds.now (R.state proven.rig) (R.state done.proven.rig) pairs.now volts ticks done.leaks.items) }
    ensures err { IfErr result (HvStopped R.state bonds.now (R.state proven.rig)) }
    ensures partition { MatchResult result (λ done. done.proven.partition ≡ proven.partition) (KeepsPartition proven.partition) }
{
    let mut proven = proven;
    let mut leaks = Vec::new(alloc);
    for pair in pairs {
        let measured = measure(
            alloc,
            proven,
            bonds,
            pair.left.as_slice(),
            pair.right.as_slice(),
            volts,
            ticks,
        )?;
        let Measured { proven: next, leak } = measured;
        proven = next;
        match leaks.push(leak) {
            Ok(()) => {}
            Err(_) => return Err(HvStop::Memory(proven.back().into_rig())),
        }
    }
    Ok(MeasuredEach { proven, leaks })
}
