//! One application after the other, up to the first breakdown.

ghost use Rattle.std.specs.Prelude.{◌≡◌, length, All, IfOk, IfErr, MatchResult};
ghost use Rattle.partition.specs.Partitions.{JoinsAllOf};
ghost use Rattle.applications.specs.Each.{AreSides, HasStoodTallies, StandsEach};
ghost use Rattle.applications.specs.Enduring.{IsEndurance};
ghost use Rattle.applications.specs.Measuring.{HvStopped, KeepsPartition};
ghost use Rattle.applications.specs.Ordered.{IsInOrder, StopsInOrder};

use crate::{Applied, Breakdown, Endurance, HvStop, Sides, stand};
use partition::Partition;
use rig::{Proven, Rig};
use std::alloc::Global;

/// The number of a pair of groups that broke down, and where it did.
#[derive(Clone, Copy, Debug, PartialEq, Eq)]
pub struct PairBreakdown {
    pub pair: usize,
    pub broken: Breakdown,
}

/// A proven unit after the applications, and the first breakdown, if there was one.
pub struct StoodEach<R: Rig> {
    pub proven: Proven<R>,
    pub failed: Option<PairBreakdown>,
}

/// Applies the voltage of the test between each pair of groups in order, up to the first breakdown.
pub fn stand_each<R: Rig>(
    alloc: Global,
    proven: Proven<R>,
    bonds: &Partition,
    pairs: &[Sides],
    test: Endurance,
) -> Result<StoodEach<R>, HvStop<R>>
    requires bonds { JoinsAllOf bonds.now proven.partition }
    requires pairs { All (AreSides (R.state proven.rig).points bonds.now) pairs.now }
    requires test { IsEndurance test }
    ensures ok { IfOk result (λ done. StandsEach bonds.now (R.state proven.rig) (R.state done.proven.rig) pairs.now test done.failed) }
    ensures err { IfErr result (HvStopped R.state bonds.now (R.state proven.rig)) }
    ensures voltage { let classes = proven.partition in IsInOrder classes bonds.now (R.state proven.rig) →
        MatchResult result (λ done. IsInOrder classes bonds.now (R.state done.proven.rig)) (StopsInOrder R.state classes bonds.now) }
    ensures tallies { IfOk result (λ done. HasStoodTallies (R.state proven.rig) (R.state done.proven.rig) (length pairs.now) test done.failed) }
    ensures partition { MatchResult result (λ done. done.proven.partition ≡ proven.partition) (KeepsPartition proven.partition) }
{
    let _point_count = proven.points();
    let _partition = proven.partition();
    stand_in_order(alloc, proven, bonds, pairs, test)
}

/// Makes the application of each pair in order.
fn stand_in_order<R: Rig>(
    alloc: Global,
    proven: Proven<R>,
    bonds: &Partition,
    pairs: &[Sides],
    test: Endurance,
) -> Result<StoodEach<R>, HvStop<R>>
    requires bonds { JoinsAllOf bonds.now proven.partition }
    requires pairs { All (AreSides (R.state proven.rig).points bonds.now) pairs.now }
    requires test { IsEndurance test }
    ensures ok { IfOk result (λ done. StandsEach bonds.now (R.state proven.rig) (R.state done.proven.rig) pairs.now test done.failed) }
    ensures err { IfErr result (HvStopped R.state bonds.now (R.state proven.rig)) }
    ensures partition { MatchResult result (λ done. done.proven.partition ≡ proven.partition) (KeepsPartition proven.partition) }
{
    let mut proven = proven;
    for (i, pair) in pairs.iter().enumerate() {
        let applied = stand(
            alloc,
            proven,
            bonds,
            pair.left.as_slice(),
            pair.right.as_slice(),
            test,
        )?;
        let Applied {
            proven: next,
            broken,
        } = applied;
        proven = next;
        match broken {
            Some(broken) => {
                return Ok(StoodEach {
                    proven,
                    failed: Some(PairBreakdown { pair: i, broken }),
                });
            }
            None => {}
        }
    }
    Ok(StoodEach {
        proven,
        failed: None,
    })
}
