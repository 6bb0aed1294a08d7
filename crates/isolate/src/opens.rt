//! Whether all is joined that is to be joined.

ghost use Rattle.std.specs.Prelude.{◌≡◌, ℕ, ◌+◌, ◌<◌, ◌≤◌, Ok, None, true, false, IfOk, IfErr, IfSome, length};
ghost use Rattle.std.specs.Result.{result_err};
ghost use Rattle.partition.specs.Classes.{class_at};
ghost use Rattle.partition.specs.Heads.{heads, heads_to};
ghost use Rattle.partition.specs.NetTable.{judged_points, programmed_of};
ghost use Rattle.partition.specs.Partitions.{HasClass};
ghost use Rattle.isolate.specs.Counts.{judged_to, ReadsJudged};
ghost use Rattle.rig.specs.Readings.{Reads};
ghost use Rattle.rig.specs.States.{IsOfRig, IsContinuous};
ghost use Rattle.learn.specs.Groups.{AreOne};
ghost use Rattle.isolate.specs.Opens.{IsOpenReading, IsOpen};
ghost use Rattle.isolate.specs.Stops.{continuity_rig, continuity_refusal, continuity_stop_rig, open_of};

use partition::{Nets, Partition, Point};
use rig::{Continuous, Rig, RigStop, Seated};
use std::alloc::Global;

/// Why a unit was not found continuous. Each hands the seated unit back, with the readings made so far.
pub enum ContinuityStop<R: Rig> {
    /// A point does not conduct with the head of its net.
    OpenAt {
        seat: Seated<R>,
        net: u32,
        point: Point,
    },
    /// The rig failed.
    Rig(Seated<R>),
    /// Memory ran out.
    Memory(Seated<R>),
}

/// Whether all points of each net are joined. Each point is read against the head of its net, which is its least point. With n points in k nets,
/// points in no net counted as nets of their own, a continuous unit takes exactly `n-k` readings, and any other answer at most that many.
pub fn continuity<R: Rig>(
    alloc: Global,
    mut seat: Seated<R>,
    nets: &Nets,
) -> Result<Continuous<R>, ContinuityStop<R>>
    requires { nets.now.points ≡ (R.state seat).points }
    ensures reads { Reads (R.state seat) (R.state (continuity_rig result)) (continuity_refusal result) }
    ensures judged { ReadsJudged (programmed_of nets.now) (R.state seat) (R.state (continuity_rig result)) }
    ensures partition { IfOk result (λ unit. unit.partition ≡ programmed_of nets.now) }
    ensures continuous { IfOk result (λ unit. IsContinuous (R.state unit.rig) unit.partition) }
    ensures spent { IfOk result (λ unit. (R.state unit.rig).spent + length (heads (programmed_of nets.now)) ≡ (R.state seat).spent
        + length (judged_points nets.now)) }
    ensures at_most { (R.state (continuity_rig result)).spent + length (heads (programmed_of nets.now)) ≤ (R.state seat).spent
        + length (judged_points nets.now) }
    ensures open { IfErr result (λ stop. IfSome (open_of stop) (λ place. IsOpen (R.state (continuity_stop_rig stop)) nets.now place.0 place.1)) }
{
    let same_points = nets.points() == seat.points();
    prove!(same_points);
    let Ok(programmed) = Partition::of_nets(alloc, nets) else {
        return Err(ContinuityStop::Memory(seat));
    };
    match first_open(&mut seat, &programmed) {
        Ok(None) => Ok(seat.continuous(programmed)),
        Ok(Some(point)) => Err(ContinuityStop::OpenAt {
            seat,
            net: nets.net_of(point),
            point,
        }),
        Err(RigStop::Failed) => Err(ContinuityStop::Rig(seat)),
        Err(RigStop::Memory) => Err(ContinuityStop::Memory(seat)),
    }
}

/// The first point that does not conduct with the head of its class.
fn first_open<R: Rig>(
    seat: &mut Seated<R>,
    programmed: &Partition,
) -> Result<Option<Point>, RigStop>
    requires points { length programmed.now ≡ (R.state seat.old).points }
    requires some { (p : ℕ) × HasClass programmed.now p }
    ensures reads { Reads (R.state seat.old) (R.state seat.new) (result_err result) }
    ensures judged { ReadsJudged programmed.now (R.state seat.old) (R.state seat.new) }
    ensures continuous { result ≡ Ok None → IsContinuous (R.state seat.new) programmed.now }
    ensures spent { result ≡ Ok None → (R.state seat.new).spent + length (heads programmed.now) ≡ (R.state seat.old).spent
        + judged_to programmed.now (length programmed.now) }
    ensures at_most { (R.state seat.new).spent + length (heads programmed.now) ≤ (R.state seat.old).spent + judged_to programmed.now (length programmed.now) }
    ensures open { IfOk result (λ answer. IfSome answer (λ point. HasClass programmed.now point × IsOpenReading (R.state seat.new) programmed.now point)) }
{
    let points = seat.points();
    let same_points = programmed.points() == points;
    prove!(same_points);
    for i in 0..points {
        if is_open(seat, programmed, Point(i))? {
            return Ok(Some(Point(i)));
        }
    }
    Ok(None)
}

/// Whether a point does not conduct with the head of its class. A head is not read against itself.
fn is_open<R: Rig>(
    seat: &mut Seated<R>,
    programmed: &Partition,
    point: Point,
) -> Result<bool, RigStop>
    requires partition { IsOfRig (R.state seat.old) programmed.now }
    requires point { point < length programmed.now }
    ensures reads { Reads (R.state seat.old) (R.state seat.new) (result_err result) }
    ensures judged { ReadsJudged programmed.now (R.state seat.old) (R.state seat.new) }
    ensures open { result ≡ Ok true → IsOpenReading (R.state seat.new) programmed.now point }
    ensures counts { result ≡ Ok true → HasClass programmed.now point }
    ensures joined { result ≡ Ok false → HasClass programmed.now point → AreOne (R.state seat.new) (class_at programmed.now point) point }
    ensures spent { IfOk result (λ _. (R.state seat.new).spent + heads_to programmed.now (point + 1) + judged_to programmed.now point
        ≡ (R.state seat.old).spent + heads_to programmed.now point + judged_to programmed.now (point + 1)) }
    ensures at_most { (R.state seat.new).spent + heads_to programmed.now (point + 1) + judged_to programmed.now point ≤ (R.state seat.old).spent
        + heads_to programmed.now point + judged_to programmed.now (point + 1) }
{
    if !programmed.judges(point) {
        return Ok(false);
    }
    let head = programmed.class_of(point);
    if head == point {
        return Ok(false);
    }
    Ok(!seat.conducts(&[head], &[point])?)
}
