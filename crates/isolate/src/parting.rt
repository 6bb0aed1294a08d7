//! The nets of a unit in pieces.

ghost use Rattle.std.specs.Prelude.{◌≡◌, ◌+◌, ◌<◌, ◌≤◌, All, IfOk, IfErr, OnErr, filter, length};
ghost use Rattle.std.specs.Result.{result_err};
ghost use Rattle.partition.specs.Heads.{heads};
ghost use Rattle.partition.specs.NetTable.{judged_points, programmed_of};
ghost use Rattle.rig.specs.Readings.{Reads};
ghost use Rattle.learn.specs.Stops.{rig_after, refusal_of, learn_stop_rig};
ghost use Rattle.isolate.specs.Counts.{ReadsJudged};
ghost use Rattle.isolate.specs.Pieces.{AreMeetings, ArePieces, IsWithinPlacing, OfTheUnit, is_of_net, most_placing};

use base::Memory;
use learn::{LearnStop, Learned, head_of};
use partition::{Nets, Partition, Point, PointList};
use rig::{Rig, RigStop, Seated};
use std::alloc::Global;

/// The label of a point that does not count.
const NO_POINT: Point = Point(u16::MAX);

/// The nets in pieces: the non-empty meetings of the nets and the classes of the unit. Each point of a net after its first is placed among the pieces
/// of its net so far. With n points that count, in k nets and `k + e` pieces, it makes at least `n-k` and at most `(n-k) + (n-k-e) * digits(e)`
/// readings; a refused call makes at most as many as some e would take.
pub fn pieces<R: Rig>(
    alloc: Global,
    mut seat: Seated<R>,
    nets: &Nets,
) -> Result<Learned<R>, LearnStop<R>>
    requires { nets.now.points ≡ (R.state seat).points }
    ensures reads { Reads (R.state seat) (R.state (rig_after result)) (refusal_of result) }
    ensures judged { ReadsJudged (programmed_of nets.now) (R.state seat) (R.state (rig_after result)) }
    ensures pieces { IfOk result (λ unit. ArePieces (R.state unit.seat) (programmed_of nets.now) unit.partition) }
    ensures some { IfOk result (λ unit. length (heads (programmed_of nets.now)) ≤ length (heads unit.partition)) }
    ensures few { IfOk result (λ unit. length (heads unit.partition) ≤ length (judged_points nets.now)) }
    ensures own { IfOk result (λ unit. OfTheUnit (R.state unit.seat) (programmed_of nets.now)
        (λ own. AreMeetings (programmed_of nets.now) own unit.partition)) }
    ensures at_least { IfOk result (λ unit. (R.state seat).spent + length (judged_points nets.now) ≤ (R.state unit.seat).spent
        + length (heads (programmed_of nets.now))) }
    ensures at_most { IfOk result (λ unit. (R.state unit.seat).spent ≤ (R.state seat).spent
        + most_placing (length (judged_points nets.now)) (length (heads (programmed_of nets.now))) (length (heads unit.partition))) }
    ensures refused { IfErr result (λ stop. IsWithinPlacing (R.state seat) (R.state (learn_stop_rig stop)) (length (judged_points nets.now))
        (length (heads (programmed_of nets.now)))) }
{
    match piece_classes(alloc, &mut seat, nets) {
        Ok(partition) => {
            let same_points = partition.points() == seat.points();
            prove!(same_points);
            Ok(Learned { seat, partition })
        }
        Err(RigStop::Failed) => Err(LearnStop::Rig(seat)),
        Err(RigStop::Memory) => Err(LearnStop::Memory(seat)),
    }
}

/// The partition whose classes are the pieces.
fn piece_classes<R: Rig>(
    alloc: Global,
    seat: &mut Seated<R>,
    nets: &Nets,
) -> Result<Partition, RigStop>
    requires { nets.now.points ≡ (R.state seat.old).points }
    ensures reads { Reads (R.state seat.old) (R.state seat.new) (result_err result) }
    ensures judged { ReadsJudged (programmed_of nets.now) (R.state seat.old) (R.state seat.new) }
    ensures pieces { IfOk result (ArePieces (R.state seat.new) (programmed_of nets.now)) }
    ensures some { IfOk result (λ pieces. length (heads (programmed_of nets.now)) ≤ length (heads pieces)) }
    ensures few { IfOk result (λ pieces. length (heads pieces) ≤ length (judged_points nets.now)) }
    ensures at_least { IfOk result (λ _. (R.state seat.old).spent + length (judged_points nets.now) ≤ (R.state seat.new).spent
        + length (heads (programmed_of nets.now))) }
    ensures at_most { IfOk result (λ pieces. (R.state seat.new).spent ≤ (R.state seat.old).spent
        + most_placing (length (judged_points nets.now)) (length (heads (programmed_of nets.now))) (length (heads pieces))) }
    ensures refused { OnErr result (IsWithinPlacing (R.state seat.old) (R.state seat.new) (length (judged_points nets.now))
        (length (heads (programmed_of nets.now)))) }
{
    let same_points = nets.points() == seat.points();
    prove!(same_points);
    let programmed = Partition::of_nets(alloc, nets)?;
    let mut pieces = PointList::new(alloc);
    let mut heads = PointList::new(alloc);
    for i in 0..programmed.points() {
        let point = Point(i);
        if !programmed.judges(point) {
            pieces.push(NO_POINT)?;
            continue;
        }
        let of_net = heads_of_net(alloc, &programmed, heads.as_slice(), point)?;
        match head_of(seat, of_net.as_slice(), point)? {
            Some(head) => pieces.push(head)?,
            None => {
                heads.push(point)?;
                pieces.push(point)?;
            }
        }
    }
    Ok(Partition::by_labels(alloc, pieces.as_slice())?)
}

/// The heads in the net of a point.
fn heads_of_net(
    alloc: Global,
    programmed: &Partition,
    heads: &[Point],
    point: Point,
) -> Result<PointList, Memory>
    requires point { point < length programmed.now }
    requires heads { All (λ p. p < length programmed.now) heads.now }
    ensures { IfOk result (λ list. list ≡ filter (is_of_net programmed.now point) heads.now) }
{
    let mut list = PointList::new(alloc);
    for head in heads {
        if programmed.same(*head, point) {
            list.push(*head)?;
        }
    }
    Ok(list)
}
