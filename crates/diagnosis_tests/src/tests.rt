//! Units that are parted into pieces and located.

ghost use Rattle.std.specs.Prelude.{◌≡◌, ◌≤◌, ◌<◌, IfOk};
ghost use Rattle.diagnosis_tests.specs.Placed.{groups};

use isolate::{ContinuityStop, IsolationStop, continuity, diagnose, isolation};
use learn::{LearnStop, Learned, conduct, place_in};
use partition::{NetLists, Nets, Partition, Point, PointList, PointLists};
use rig::{RigStop, SeatStop, Seated};
use rig_sim::SimRig;
use std::alloc::Global;
use std::test::Fail;

/// The unit SN1 of a harness file, seated.
fn seated(alloc: Global, harness: &[u8]) -> Result<Seated<SimRig>, Fail> {
    match Seated::take(SimRig::read(alloc, harness)?, "SN1", 1) {
        Ok(seat) => Ok(seat),
        Err(SeatStop::Absent(rig) | SeatStop::Rig(rig) | SeatStop::Memory(rig)) => {
            Err(let_go(rig))?
        }
    }
}

/// Lets a rig go.
fn let_go(_rig: SimRig) -> &'static str {
    "not seated"
}

/// Whether these are the class numbers of the points.
fn has_classes(partition: &Partition, classes: &[u16]) -> bool {
    if classes.len() != partition.points() as usize {
        return false;
    }
    for (i, class) in classes.iter().enumerate() {
        if partition.class_of(Point(i as u16)) != Point(*class) {
            return false;
        }
    }
    true
}

/// The partition and the readings of what was learnt; None where a call was refused.
fn readings_of(learnt: Result<Learned<SimRig>, LearnStop<SimRig>>) -> Option<(Partition, u64)> {
    match learnt {
        Ok(Learned { seat, partition }) => Some((partition, seat.into_rig().readings())),
        Err(LearnStop::Rig(seat) | LearnStop::Memory(seat)) => {
            let_go(seat.into_rig());
            None
        }
    }
}

/// A harness whose unit has these classes: each point is wired to the one of its number.
fn harness_of(alloc: Global, classes: &[u16]) -> Result<String, Fail> {
    let mut text = String::new(alloc);
    let points = classes.len();
    text.push_str(&format!(in alloc; "points {points}\nunit SN1 1\n")?)?;
    for (p, class) in classes.iter().enumerate() {
        if *class as usize != p {
            text.push_str(&format!(in alloc; "wire {class} {p}\n")?)?;
        }
    }
    text.push_str("end\n")?;
    Ok(text)
}

/// Nets of two neighbours each over n points, as far as there are any below the limit.
fn pairs_below(alloc: Global, n: u16, limit: u16) -> Result<Nets, Fail>
    requires { 1 ≤ n }
{
    let mut lists = NetLists::new(alloc);
    for i in 0..limit / 2 {
        let pair = [Point(i * 2), Point(i * 2 + 1)];
        lists.push(PointList::from_slice(alloc, &pair)?)?;
    }
    Ok(Nets::new(alloc, n, lists)?)
}

/// The points 0 and 1 as a group, and 2 as another.
fn two_groups(alloc: Global) -> Result<PointLists, Fail>
    ensures { IfOk result (λ list. list ≡ groups) }
{
    let mut list = PointLists::new(alloc);
    list.push(PointList::from_slice(alloc, &[Point(0), Point(1)])?)?;
    list.push(PointList::from_slice(alloc, &[Point(2)])?)?;
    Ok(list)
}

/// Where a point belongs among these groups, once 0 and 1 were read to be joined.
fn place(
    alloc: Global,
    seat: &mut Seated<SimRig>,
    point: Point,
    list: &PointLists,
) -> Result<Option<u32>, RigStop>
    requires groups { list.now ≡ groups }
    requires after { 3 ≤ point }
    requires below { point < 5 }
{
    if seat.points() != 5 {
        return Ok(None);
    }
    if !conduct(seat, &[Point(0)], &[Point(1)])? {
        return Ok(None);
    }
    place_in(alloc, seat, point, list)
}

/// Where a point of a harness belongs among these groups.
fn placed(alloc: Global, harness: &[u8], point: Point) -> Result<Option<u32>, Fail>
    requires after { 3 ≤ point }
    requires below { point < 5 }
{
    let list = two_groups(alloc)?;
    let mut seat = seated(alloc, harness)?;
    let place = place(alloc, &mut seat, point, &list);
    let_go(seat.into_rig());
    Ok(place?)
}

#[test]
fn a_point_is_placed_in_its_group(rt: HostRuntime) -> Result<(), Fail> {
    let harness = b"points 5\nunit SN1 1\nwire 0 1\nwire 2 3\nend\n";
    assert_eq!(rt; placed(rt.alloc(), harness, Point(3))?, Some(1));
    assert_eq!(rt; placed(rt.alloc(), harness, Point(4))?, None);
    Ok(())
}

/// The readings of a diagnosis that finds these classes.
fn diagnosed(alloc: Global, classes: &[u16], nets: &Nets) -> Result<u64, Fail> {
    let seat = seated(alloc, harness_of(alloc, classes)?.as_bytes())?;
    if nets.points() == seat.points() {
        let (partition, readings) = readings_of(diagnose(alloc, seat, nets)).ok_or(
            "not diagnosed",
        )?;
        if has_classes(&partition, classes) {
            Ok(readings)
        } else {
            Err("other classes")?
        }
    } else {
        let_go(seat.into_rig());
        Err("other points")?
    }
}

/// A unit of nets of two neighbours.
#[derive(Clone, Copy)]
enum Pairs {
    Good,
    /// The first net and the second are joined.
    Shorted,
    /// In each 256 points one net is open, one is joined with the next, and one is swapped with the next.
    Faulty,
}

/// The class of a point.
fn class_in(unit: Pairs, p: u16) -> u16 {
    match unit {
        Pairs::Good => p - p % 2,
        Pairs::Shorted => { if p < 4 { 0 } else { p - p % 2 } }
        Pairs::Faulty => match p % 256 {
            1 | 129 => p,
            66 => p - 2,
            67 | 131 => p - 3,
            130 => p - 1,
            _ => p - p % 2,
        },
    }
}

/// The readings of the diagnosis of such a unit of n points.
fn diagnosed_pairs(alloc: Global, n: u16, unit: Pairs) -> Result<u64, Fail>
    requires { 1 ≤ n }
{
    let mut classes = Vec::new(alloc);
    for p in 0..n {
        classes.push(class_in(unit, p))?;
    }
    diagnosed(alloc, classes.as_slice(), &pairs_below(alloc, n, n)?)
}

#[test]
fn faults_are_diagnosed_within_the_bound(rt: HostRuntime) -> Result<(), Fail> {
    let alloc = rt.alloc();
    let swapped = diagnosed(alloc, &[0, 1, 1, 0, 4], &pairs_below(alloc, 5, 4)?)?;
    assert!(rt; swapped <= 2 + 0 + 3 + 10, "{swapped} readings");
    assert_eq!(rt; diagnosed_pairs(alloc, 1024, Pairs::Good)?, 512 + 9);
    let shorted = diagnosed_pairs(alloc, 1024, Pairs::Shorted)?;
    assert!(rt; shorted <= 512 + 0 + 9 + 17, "{shorted} readings");
    let faulty = diagnosed_pairs(alloc, 4096, Pairs::Faulty)?;
    assert!(rt;
        faulty <= 2048 + 2000 * 6 + 12 + 48 * 23,
        "{faulty} readings"
    );
    Ok(())
}

/// How the two tests of a unit came out.
#[derive(Clone, Copy, Debug, PartialEq, Eq)]
enum Outcome {
    /// The readings of both.
    Proven(u64),
    Open(u32, Point),
    Short(u32),
    Refused,
}

/// Tests a unit for continuity, then for isolation.
fn tested(alloc: Global, seat: Seated<SimRig>, nets: &Nets) -> Outcome
    requires { nets.now.points ≡ seat.state.points }
{
    let unit = match continuity(alloc, seat, nets) {
        Ok(unit) => unit,
        Err(stop) => return open_of(stop),
    };
    match isolation(alloc, unit) {
        Ok(unit) => Outcome::Proven(unit.back().into_rig().readings()),
        Err(stop) => short_of(stop),
    }
}

fn open_of(stop: ContinuityStop<SimRig>) -> Outcome {
    match stop {
        ContinuityStop::OpenAt { seat, net, point } => {
            let_go(seat.into_rig());
            Outcome::Open(net, point)
        }
        ContinuityStop::Rig(seat) | ContinuityStop::Memory(seat) => refused(seat),
    }
}

fn short_of(stop: IsolationStop<SimRig>) -> Outcome {
    match stop {
        IsolationStop::ShortAt { seat, bit } => {
            let_go(seat.into_rig());
            Outcome::Short(bit)
        }
        IsolationStop::Rig(seat) | IsolationStop::Memory(seat) => refused(seat),
    }
}

fn refused(seat: Seated<SimRig>) -> Outcome {
    let_go(seat.into_rig());
    Outcome::Refused
}

/// The outcome of a unit with these classes.
fn outcome_of(alloc: Global, classes: &[u16], nets: &Nets) -> Result<Outcome, Fail> {
    let seat = seated(alloc, harness_of(alloc, classes)?.as_bytes())?;
    if nets.points() == seat.points() {
        Ok(tested(alloc, seat, nets))
    } else {
        let_go(seat.into_rig());
        Err("other points")?
    }
}

#[test]
fn a_unit_is_proven_or_its_first_fault_named(rt: HostRuntime) -> Result<(), Fail> {
    let alloc = rt.alloc();
    let nets = pairs_below(alloc, 5, 4)?;
    let units: [(&[u16], Outcome); 4] = [
        (&[0, 0, 2, 2, 4], Outcome::Proven(4)),
        (&[0, 0, 2, 3, 4], Outcome::Open(1, Point(3))),
        (&[0, 0, 2, 2, 2], Outcome::Short(0)),
        (&[0, 0, 2, 2, 0], Outcome::Short(1)),
    ];
    for (classes, wanted) in units {
        assert_eq!(rt; outcome_of(alloc, classes, &nets)?, wanted);
    }
    Ok(())
}

#[test]
fn a_diagnosis_that_fails_hands_the_readings_back(rt: HostRuntime) -> Result<(), Fail> {
    let alloc = rt.alloc();
    let harness = b"points 5\nfault 4\nunit SN1 1\nwire 0 3\nwire 1 2\nend\n";
    let nets = pairs_below(alloc, 5, 4)?;
    let seat = seated(alloc, harness)?;
    assert!(rt; nets.points() == seat.points());
    match diagnose(alloc, seat, &nets) {
        Err(LearnStop::Rig(seat)) => {
            let rig = seat.into_rig();
            assert_eq!(rt; (rig.readings(), rig.events().len()), (2, 2));
            Ok(())
        }
        Err(LearnStop::Memory(seat)) => {
            let_go(seat.into_rig());
            Err("out of memory")?
        }
        Ok(Learned { seat, partition: _ }) => {
            let_go(seat.into_rig());
            Err("diagnosed")?
        }
    }
}
