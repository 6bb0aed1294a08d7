//! Components of a simulator's unit.

ghost use Rattle.std.specs.Prelude.{◌≡◌};
ghost use Rattle.wirelist.specs.Programs.{IsProgram};

use isolate::{ContinuityStop, IsolationStop, continuity, isolation};
use parts_check::{Checked, PartsStop, check_parts};
use rig::{Rig, SeatStop, Seated};
use rig_sim::SimRig;
use std::alloc::Global;
use std::test::Fail;
use wirelist::{PartFault, PartFaultKind, PartFaults, Program};
use wirelist_reader::read;

/// The unit SN1 of a harness file, seated.
fn seated(alloc: Global, harness: &[u8]) -> Result<Seated<SimRig>, Fail> {
    match Seated::take(SimRig::read(alloc, harness)?, "SN1", 1) {
        Ok(seat) => Ok(seat),
        Err(SeatStop::Absent(rig) | SeatStop::Rig(rig) | SeatStop::Memory(rig)) => {
            Err(not_seated(rig))?
        }
    }
}

/// Lets a rig go that has no unit.
fn not_seated(_rig: SimRig) -> &'static str {
    "not seated"
}

/// The rig, and the faults of the components of a unit whose wiring has none; no faults where a call was refused.
fn part_faults_of<R: Rig>(
    alloc: Global,
    seat: Seated<R>,
    program: &Program,
) -> (R, Option<PartFaults>)
    requires program { IsProgram program.now }
    requires points { program.now.nets.points ≡ (R.state seat).points }
{
    let unit = match continuity(alloc, seat, &program.nets) {
        Ok(unit) => unit,
        Err(stop) => return (rig_of_open(stop), None),
    };
    let proven = match isolation(alloc, unit) {
        Ok(proven) => proven,
        Err(stop) => return (rig_of_short(stop), None),
    };
    match check_parts(alloc, proven, program) {
        Ok(Checked { proven, faults }) => (proven.back().into_rig(), Some(faults)),
        Err(PartsStop::Rig(proven) | PartsStop::Memory(proven)) => {
            (proven.back().into_rig(), None)
        }
    }
}

/// The rig of a unit that is not continuous.
fn rig_of_open<R: Rig>(stop: ContinuityStop<R>) -> R {
    match stop {
        ContinuityStop::OpenAt {
            seat,
            net: _,
            point: _,
        }
        | ContinuityStop::Rig(seat)
        | ContinuityStop::Memory(seat) => seat.into_rig(),
    }
}

/// The rig of a unit that is not isolated.
fn rig_of_short<R: Rig>(stop: IsolationStop<R>) -> R {
    match stop {
        IsolationStop::ShortAt { seat, bit: _ }
        | IsolationStop::Rig(seat)
        | IsolationStop::Memory(seat) => seat.into_rig(),
    }
}

/// Two wires and one row more, under a program of two nets and one component: the faults of the component, and how often it was read.
fn faults_and_readings(alloc: Global, row: &str, part: &str) -> Result<(PartFaults, u64), Fail> {
    let harness = format!(in alloc; "points 5\nunit SN1 1\nwire 0 1\nwire 2 3\n{row}\nend\n")?;
    let wires = format!(in alloc; "part,P1,1\npoints,5\nnet,A,0,1\nnet,B,2,3\n{part}\n")?;
    let program = read(alloc, wires.as_bytes())?;
    let seat = seated(alloc, harness.as_bytes())?;
    if program.nets.points() != seat.points() {
        return Err(not_seated(seat.into_rig()))?;
    }
    let (rig, faults) = part_faults_of(alloc, seat, &program);
    let readings = rig.tallies().as_slice().first().ok_or("no tally")?.probes;
    Ok((faults.ok_or("not read")?, readings))
}

#[test]
fn a_reading_outside_its_window_is_a_fault(rt: HostRuntime) -> Result<(), Fail> {
    let alloc = rt.alloc();
    let diode = "diode,D1,0,2,500,800";
    let resistor = "resistor,R1,0,2,20000,30000";
    let rows: [(&str, &str, Option<PartFaultKind>, u64); 10] = [
        (
            "diode 2 0 650",
            diode,
            Some(PartFaultKind::WrongWay(650)),
            2,
        ),
        ("diode 0 2 650", diode, None, 2),
        ("diode 0 2 801", diode, Some(PartFaultKind::High(801)), 2),
        ("diode 0 2 800", diode, None, 2),
        ("diode 0 2 499", diode, Some(PartFaultKind::Low(499)), 2),
        (
            "resistor 1 3 20000",
            diode,
            Some(PartFaultKind::OpenPart),
            2,
        ),
        (
            "resistor 1 3 19999",
            resistor,
            Some(PartFaultKind::Low(19999)),
            1,
        ),
        ("resistor 0 2 20000", resistor, None, 1),
        ("resistor 0 2 30000", resistor, None, 1),
        ("diode 0 2 650", resistor, Some(PartFaultKind::OpenPart), 1),
    ];
    for (row, part, expected, times) in rows {
        let (faults, readings) = faults_and_readings(alloc, row, part)?;
        let found = faults.as_slice().first().copied();
        assert_eq!(rt;
            found,
            expected.map(|kind| PartFault { part: 0, kind }),
            "{row}"
        );
        assert!(rt; faults.len() <= 1, "{row}");
        assert_eq!(rt; readings, times, "{row}");
    }
    Ok(())
}
