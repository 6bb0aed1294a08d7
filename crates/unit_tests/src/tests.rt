//! Units of a simulator's file.

ghost use Rattle.std.specs.Prelude.{◌≡◌, ◌≤◌};

use isolate::{ContinuityStop, IsolationStop, continuity, isolation, locate};
use learn::{LearnStop, Learned, learn};
use partition::{NetLists, Nets, Partition, Point, PointList};
use rig::{SeatStop, Seated};
use rig_sim::SimRig;
use std::alloc::Global;
use std::test::Fail;

/// The unit SN1 of a harness file, seated.
fn seated(alloc: Global, harness: &[u8]) -> Result<Seated<SimRig>, Fail> {
    match Seated::take(SimRig::read(alloc, harness)?, "SN1", 1) {
        Ok(seat) => Ok(seat),
        Err(SeatStop::Absent(rig) | SeatStop::Rig(rig) | SeatStop::Memory(rig)) => {
            Err(not_seated(rig))?
        }
    }
}

/// Lets a rig go that has no unit.
fn not_seated(_rig: SimRig) -> &'static str {
    "not seated"
}

/// The rig of a unit that was not learnt, and whether it failed.
fn unlearnt(stop: LearnStop<SimRig>) -> (SimRig, bool) {
    match stop {
        LearnStop::Rig(seat) => (seat.into_rig(), true),
        LearnStop::Memory(seat) => (seat.into_rig(), false),
    }
}

/// Whether these are the class numbers of the points.
fn has_classes(partition: &Partition, classes: &[u16]) -> bool {
    if classes.len() != partition.points() as usize {
        return false;
    }
    for (i, class) in classes.iter().enumerate() {
        if partition.class_of(Point(i as u16)) != Point(*class) {
            return false;
        }
    }
    true
}

/// The partition and the readings of what was learnt; None where a call was refused.
fn readings_of(learnt: Result<Learned<SimRig>, LearnStop<SimRig>>) -> Option<(Partition, u64)> {
    match learnt {
        Ok(Learned { seat, partition }) => Some((partition, seat.into_rig().readings())),
        Err(stop) => {
            unlearnt(stop);
            None
        }
    }
}

#[test]
fn units_are_learnt_within_the_bound(rt: HostRuntime) -> Result<(), Fail> {
    let alloc = rt.alloc();
    let units: [(&[u8], &[u16], u64); 2] = [
        (
            b"points 5\nunit SN1 1\nwire 0 1\nwire 2 3\nend\n",
            &[0, 0, 2, 2, 4],
            8,
        ),
        (
            b"points 6\nunit SN1 1\nwire 0 5\nwire 1 4\nend\n",
            &[0, 1, 2, 3, 1, 0],
            9,
        ),
    ];
    for (harness, classes, most) in units {
        let (partition, readings) = readings_of(learn(alloc, seated(alloc, harness)?)).ok_or(
            "not learnt",
        )?;
        assert!(rt; has_classes(&partition, classes));
        assert!(rt; readings <= most, "{readings} readings");
    }
    Ok(())
}

#[test]
fn a_failing_call_hands_the_readings_back(rt: HostRuntime) -> Result<(), Fail> {
    let harness = b"points 5\nfault 4\nunit SN1 1\nwire 0 1\nwire 2 3\nend\n";
    match learn(rt.alloc(), seated(rt.alloc(), harness)?) {
        Ok(Learned { seat, partition: _ }) => {
            seat.into_rig();
            Err("learnt")?
        }
        Err(stop) => {
            let (rig, failed) = unlearnt(stop);
            assert!(rt; failed);
            assert_eq!(rt; (rig.readings(), rig.events().len()), (2, 2));
        }
    }
    Ok(())
}

#[test]
fn joined_classes_are_located_within_the_bound(rt: HostRuntime) -> Result<(), Fail> {
    let alloc = rt.alloc();
    let units: [(&[u8], &[u16], u64); 3] = [
        (b"points 4\nunit SN1 1\nwire 0 3\nend\n", &[0, 1, 2, 0], 5),
        (
            b"points 4\nunit SN1 1\nwire 0 1\nwire 1 2\nwire 2 3\nend\n",
            &[0, 0, 0, 0],
            11,
        ),
        (b"points 4\nunit SN1 1\nend\n", &[0, 1, 2, 3], 2),
    ];
    for (harness, classes, most) in units {
        let within = Partition::singles(alloc, 4)?;
        let seat = seated(alloc, harness)?;
        assert!(rt; seat.points() == 4);
        let (partition, readings) = readings_of(locate(alloc, seat, within)).ok_or("not located")?;
        assert!(rt; has_classes(&partition, classes));
        assert!(rt; readings <= most, "{readings} readings");
    }
    Ok(())
}

/// A harness of 4,096 points in classes of so many neighbours.
fn harness_of(alloc: Global, neighbours: u16) -> Result<String, Fail>
    requires { 1 ≤ neighbours }
{
    let mut text = String::new(alloc);
    text.push_str("points 4096\nunit SN1 1\n")?;
    for p in 0..4096 {
        let head = p - p % neighbours;
        if head != p {
            text.push_str(&format!(in alloc; "wire {head} {p}\n")?)?;
        }
    }
    text.push_str("end\n")?;
    Ok(text)
}

/// The readings of a unit that is continuous and isolated; None for any other.
fn tested(alloc: Global, seat: Seated<SimRig>, nets: &Nets) -> Option<u64>
    requires { nets.now.points ≡ seat.state.points }
{
    let unit = match continuity(alloc, seat, nets) {
        Ok(unit) => unit,
        Err(stop) => return not_continuous(stop),
    };
    match isolation(alloc, unit) {
        Ok(unit) => Some(unit.back().into_rig().readings()),
        Err(stop) => not_isolated(stop),
    }
}

fn not_continuous(stop: ContinuityStop<SimRig>) -> Option<u64> {
    match stop {
        ContinuityStop::OpenAt {
            seat,
            net: _,
            point: _,
        }
        | ContinuityStop::Rig(seat)
        | ContinuityStop::Memory(seat) => {
            seat.into_rig();
            None
        }
    }
}

fn not_isolated(stop: IsolationStop<SimRig>) -> Option<u64> {
    match stop {
        IsolationStop::ShortAt { seat, bit: _ }
        | IsolationStop::Rig(seat)
        | IsolationStop::Memory(seat) => {
            seat.into_rig();
            None
        }
    }
}

#[test]
fn a_good_unit_of_the_most_points_takes_the_exact_readings(rt: HostRuntime) -> Result<(), Fail> {
    let alloc = rt.alloc();
    let mut points = [Point(0); 4096];
    for i in 0..4096 {
        points[i] = Point(i as u16);
    }
    let mut one_net = NetLists::new(alloc);
    one_net.push(PointList::from_slice(alloc, &points)?)?;
    let one_net = Nets::new(alloc, 4096, one_net)?;
    let no_net = Nets::new(alloc, 4096, NetLists::new(alloc))?;
    let joined = seated(alloc, harness_of(alloc, 4096)?.as_bytes())?;
    assert!(rt; one_net.points() == joined.points());
    assert_eq!(rt; tested(alloc, joined, &one_net), Some(4095));
    let alone = seated(alloc, harness_of(alloc, 1)?.as_bytes())?;
    assert!(rt; no_net.points() == alone.points());
    assert_eq!(rt; tested(alloc, alone, &no_net), Some(12));
    Ok(())
}

#[test]
fn the_most_points_are_learnt(rt: HostRuntime) -> Result<(), Fail> {
    let alloc = rt.alloc();
    for (neighbours, least, most) in [(64, 4032, 28287), (1, 4095, 4095), (4096, 4095, 4095)] {
        assert!(rt; neighbours > 0);
        let seat = seated(alloc, harness_of(alloc, neighbours)?.as_bytes())?;
        let (partition, readings) = readings_of(learn(alloc, seat)).ok_or("not learnt")?;
        for p in 0..partition.points() {
            assert_eq!(rt; partition.class_of(Point(p)), Point(p - p % neighbours));
        }
        assert!(rt;
            readings >= least && readings <= most,
            "{readings} readings"
        );
    }
    Ok(())
}
