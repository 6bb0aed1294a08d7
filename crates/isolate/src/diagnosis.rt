//! The partition of a unit, from the pieces of its nets.

ghost use Rattle.std.specs.Prelude.{◌≡◌, ◌+◌, ◌≤◌, IfOk, IfErr, length};
ghost use Rattle.partition.specs.Heads.{heads};
ghost use Rattle.partition.specs.NetTable.{judged_points, programmed_of};
ghost use Rattle.partition.specs.Partitions.{IsOver};
ghost use Rattle.rig.specs.Readings.{Reads};
ghost use Rattle.learn.specs.Learned.{IsLearned};
ghost use Rattle.learn.specs.Stops.{rig_after, refusal_of, learn_stop_rig};
ghost use Rattle.isolate.specs.Counts.{ReadsJudged};
ghost use Rattle.isolate.specs.Pieces.{IsDiagnosed, IsWithinDiagnosing};

use crate::{locate, pieces};
use learn::{LearnStop, Learned};
use partition::Nets;
use rig::{Rig, Seated};
use std::alloc::Global;

/// The partition that the readings determine: the nets are parted into pieces, and the pieces that conduct are merged. With n points that count, in
/// k nets, `k + e` pieces and t classes, and `D = digits(k+e-1)`, it makes at least `n-t` and at most
/// `(n-k) + (n-k-e) * digits(e) + D + (k+e-t) * (2*D - 1)` readings, so at most `n-k` where `k + e` is 1; a refused call makes at most as many as
/// some e and t would take.
pub fn diagnose<R: Rig>(
    alloc: Global,
    seat: Seated<R>,
    nets: &Nets,
) -> Result<Learned<R>, LearnStop<R>>
    requires { nets.now.points ≡ (R.state seat).points }
    ensures reads { Reads (R.state seat) (R.state (rig_after result)) (refusal_of result) }
    ensures judged { ReadsJudged (programmed_of nets.now) (R.state seat) (R.state (rig_after result)) }
    ensures learned { IfOk result (λ unit. IsLearned (R.state unit.seat) unit.partition) }
    ensures over { IfOk result (λ unit. IsOver (programmed_of nets.now) unit.partition) }
    ensures diagnosed { IfOk result (λ unit. IsDiagnosed (R.state seat) (R.state unit.seat) (programmed_of nets.now)
        (length (judged_points nets.now)) unit.partition) }
    ensures at_least { IfOk result (λ unit. (R.state seat).spent + length (judged_points nets.now) ≤ (R.state unit.seat).spent
        + length (heads unit.partition)) }
    ensures refused { IfErr result (λ stop. IsWithinDiagnosing (R.state seat) (R.state (learn_stop_rig stop)) (length (judged_points nets.now))
        (length (heads (programmed_of nets.now)))) }
{
    let Learned { seat, partition } = pieces(alloc, seat, nets)?;
    locate(alloc, seat, partition)
}
