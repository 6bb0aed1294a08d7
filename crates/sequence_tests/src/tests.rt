//! Units of a simulator's file, and a rig that may lie.

ghost use Rattle.std.specs.Prelude.{◌≡◌, IfOk, IfSome};
ghost use Rattle.wirelist.specs.Programs.{IsProgram};

use crate::words::{found, stopped};
use rig::{Event, Rig, Tally};
use rig_sim::{Flags, ListRig, SimRig};
use sequence::run_unit;
use std::alloc::Global;
use std::test::Fail;
use unit_outcome::{UnitRun, UnitStop};
use wirelist::Program;

/// Two nets of five points.
const NETS: &str = "part,P1,1\npoints,5\nnet,A,0,1\nnet,B,2,3\n";

/// The joins of these nets.
const WIRES: &str = "wire 0 1\nwire 2 3\n";

/// A test of withstand.
const WITHSTAND: &str = "withstand,50,1,1000\n";

/// A program.
fn program(alloc: Global, text: &str) -> Result<Program, Fail>
    ensures { IfOk result IsProgram }
{
    match wirelist_reader::read(alloc, text.as_bytes()) {
        Ok(p) => Ok(p),
        Err(_) => Err("no program")?,
    }
}

/// The test of a unit, of which nothing more is asked here than that it ends.
fn tested<R: Rig>(
    alloc: Global,
    rig: R,
    p: &Program,
    serial: &str,
) -> Result<UnitRun<R>, UnitStop<R>>
    requires unpowered { (R.state rig).volts ≡ 0 }
    requires program { IsProgram p.now }
    requires points { p.now.nets.points ≡ (R.state rig).points }
{
    run_unit(alloc, rig, p, serial, 1)
}

/// What the test of a unit came to, in words, and the rig after it.
#[derive(Drop)]
struct Came {
    words: String,
    rig: SimRig,
}

/// The test of a unit in words.
fn in_words(
    alloc: Global,
    answer: Result<UnitRun<SimRig>, UnitStop<SimRig>>,
) -> Result<Came, Fail> {
    match answer {
        Ok(UnitRun { rig, outcome }) => Ok(Came {
            words: found(alloc, &outcome)?,
            rig,
        }),
        Err(stop) => {
            let (words, rig) = stopped(alloc, stop)?;
            Ok(Came { words, rig })
        }
    }
}

/// The test of the unit SN1 of a harness file against a wirelist.
fn run(alloc: Global, harness: &str, wires: &str) -> Result<Came, Fail> {
    let p = program(alloc, wires)?;
    let rig = SimRig::read(alloc, harness.as_bytes())?;
    if rig.points() != p.nets.points() {
        return Err("other points")?;
    }
    in_words(alloc, tested(alloc, rig, &p, "SN1"))
}

/// The same of a unit of five points with these rows, under the two nets with these rows more.
fn run_small(alloc: Global, above: &str, rows: &str, tests: &str) -> Result<Came, Fail> {
    let harness = format!(in alloc; "points 5\n{above}unit SN1 1\n{rows}end\n")?;
    let wires = format!(in alloc; "{NETS}{tests}")?;
    run(alloc, &harness, &wires)
}

#[test]
fn an_outcome_is_the_first_that_applies(rt: HostRuntime) -> Result<(), Fail> {
    let alloc = rt.alloc();
    let diode = "diode,D1,0,2,500,800\n";
    let resistor = "resistor,R1,0,2,20000,30000\n";
    let insulation = "insulation,500,1,100\n";
    let rows = [
        ("", "", "pass", 4),
        ("resistor 0 2 10000\n", "", "wiring short 0,0,1", 11),
        ("resistor 0 2 10001\n", "", "pass", 4),
        (
            "resistor 0 2 10001\n",
            insulation,
            "insulation 0:99990000999 1:99990000999",
            4,
        ),
        ("diode 2 0 650\n", diode, "parts 0:wrong way 650", 4),
        ("diode 0 2 650\n", diode, "pass", 4),
        ("diode 0 2 801\n", diode, "parts 0:high 801", 4),
        ("", resistor, "parts 0:open", 4),
        ("resistor 0 2 19999\n", resistor, "parts 0:low 19999", 4),
        ("resistor 0 2 30000\n", resistor, "pass", 4),
        ("leak 0 2 10000\n", insulation, "pass", 4),
        (
            "leak 0 2 10001\n",
            insulation,
            "insulation 0:10001 1:10001",
            4,
        ),
        (
            "arc 0 2 750\n",
            "withstand,1500,10,2000\n",
            "withstand 0 750 arc",
            4,
        ),
        ("charge 45 100\n", WITHSTAND, "pass", 4),
        ("charge 45 101\n", WITHSTAND, "charged 45", 4),
        ("charge 30 1000\n", WITHSTAND, "pass", 4),
        ("wire 3 4\n", "", "wiring short 2,1,2", 11),
        ("wire 3 4\n", "ignore,4\n", "pass", 3),
        (
            "wire 1 4\nwire 4 2\n",
            "ignore,4\n",
            "wiring short 0,0,1",
            7,
        ),
    ];
    for (rows, tests, words, most) in rows {
        let rows = format!(in alloc; "{WIRES}{rows}")?;
        let came = run_small(alloc, "", &rows, tests)?;
        assert_eq!(rt; came.words.as_str(), words, "{rows}");
        assert!(rt; came.rig.readings() <= most, "{rows}");
    }
    Ok(())
}

#[test]
fn a_difference_states_opens_shorts_and_miswires(rt: HostRuntime) -> Result<(), Fail> {
    let alloc = rt.alloc();
    let swap = "points 5\nunit SN1 1\nwire 0 3\nwire 1 2\nend\n";
    let three = "part,P1,1\npoints,6\nnet,A,0,1,2\n";
    let four = "part,P1,1\npoints,4\n";
    let units = [
        (
            "points 1\nunit SN1 1\nend\n",
            "part,P1,1\npoints,1\n",
            "pass",
            0,
        ),
        (swap, NETS, "wiring miswire 0:2,1 miswire 1:0,3", 19),
        (
            "points 6\nunit SN1 1\nwire 0 1\nend\n",
            three,
            "wiring open 0:2,2",
            10,
        ),
        (
            "points 6\nunit SN1 1\nwire 0 1\nwire 2 5\nend\n",
            three,
            "wiring miswire 0:5,2",
            15,
        ),
        (
            "points 4\nunit SN1 1\nwire 0 3\nend\n",
            four,
            "wiring short 0,0,3",
            7,
        ),
        (
            "points 4\nunit SN1 1\nwire 0 1\nwire 1 2\nwire 2 3\nend\n",
            four,
            "wiring short 0,0,1,2,3",
            13,
        ),
    ];
    for (harness, wires, words, most) in units {
        let came = run(alloc, harness, wires)?;
        assert_eq!(rt; came.words.as_str(), words, "{harness}");
        assert!(rt; came.rig.readings() <= most, "{harness}");
    }
    Ok(())
}

/// A harness of n points with so many wires, each from a point to the next one, or from 0 to each other one, and this row more.
fn wired(alloc: Global, n: u16, pairs: bool, row: &str) -> Result<String, Fail> {
    let mut text = format!(in alloc; "points {n}\nunit SN1 1\n")?;
    for i in 1..n {
        if !pairs {
            text.push_str(&format!(in alloc; "wire 0 {i}\n")?)?;
        } else if i % 2 == 1 {
            let before = i - 1;
            text.push_str(&format!(in alloc; "wire {before} {i}\n")?)?;
        }
    }
    text.push_str(row)?;
    text.push_str("end\n")?;
    Ok(text)
}

/// A wirelist of n points in one net, or in nets of two.
fn nets(alloc: Global, n: u16, pairs: bool) -> Result<String, Fail> {
    let mut text = format!(in alloc; "part,P1,1\npoints,{n}\nnet,A,0")?;
    for i in 1..n {
        if pairs && i % 2 == 0 {
            text.push_str(&format!(in alloc; "\nnet,N{i},{i}")?)?;
        } else {
            text.push_str(&format!(in alloc; ",{i}")?)?;
        }
    }
    text.push_str("\n")?;
    Ok(text)
}

/// What the test of a unit came to in words, and the readings that were spent.
fn counted(alloc: Global, harness: &str, wires: &str) -> Result<(String, u64), Fail> {
    let Came { words, rig } = run(alloc, harness, wires)?;
    Ok((words, rig.readings()))
}

#[test]
fn readings_of_one_net_are_counted(rt: HostRuntime) -> Result<(), Fail> {
    let harness = wired(rt.alloc(), 1024, false, "")?;
    let wires = nets(rt.alloc(), 1024, false)?;
    let (words, readings) = counted(rt.alloc(), &harness, &wires)?;
    assert_eq!(rt; words.as_str(), "pass");
    assert_eq!(rt; readings, 1023);
    Ok(())
}

#[test]
fn readings_of_single_points_are_counted(rt: HostRuntime) -> Result<(), Fail> {
    for (points, wanted) in [(1024u16, 10u64), (4096, 12)] {
        let harness = format!(in rt.alloc(); "points {points}\nunit SN1 1\nend\n")?;
        let wires = format!(in rt.alloc(); "part,P1,1\npoints,{points}\n")?;
        let (words, readings) = counted(rt.alloc(), &harness, &wires)?;
        assert_eq!(rt; words.as_str(), "pass");
        assert_eq!(rt; readings, wanted);
    }
    Ok(())
}

#[test]
fn readings_of_a_short_among_pairs_are_counted(rt: HostRuntime) -> Result<(), Fail> {
    let harness = wired(rt.alloc(), 1024, true, "wire 0 2\n")?;
    let wires = nets(rt.alloc(), 1024, true)?;
    let (words, readings) = counted(rt.alloc(), &harness, &wires)?;
    assert_eq!(rt; words.as_str(), "wiring short 0,0,1");
    assert!(rt; readings <= 1059);
    Ok(())
}

#[test]
fn a_stop_has_its_cause(rt: HostRuntime) -> Result<(), Fail> {
    let alloc = rt.alloc();
    let rows = [
        ("door 3\n", "insulation,500,1,100\n", "open"),
        ("fault 1\n", WITHSTAND, "fault"),
        ("fault 9\n", WITHSTAND, "fault"),
        (
            "fault 9\nfault 10\nfault 11\nfault 12\n",
            WITHSTAND,
            "stuck",
        ),
    ];
    for (above, tests, words) in rows {
        let came = run_small(alloc, above, WIRES, tests)?;
        assert_eq!(rt; came.words.as_str(), words, "{above}");
    }
    let none = run(alloc, "points 5\nunit SN1 2\nend\n", NETS)?;
    assert_eq!(rt; none.words.as_str(), "empty");
    assert_eq!(rt; none.rig.readings(), 0);
    Ok(())
}

/// The rig after the test of a unit, where that has an outcome, an open interlock or a fault.
fn rig_after<R: Rig + Drop>(alloc: Global, rig: R, p: &Program, serial: &str) -> Option<R>
    requires unpowered { (R.state rig).volts ≡ 0 }
    requires program { IsProgram p.now }
    requires points { p.now.nets.points ≡ (R.state rig).points }
    ensures unpowered { IfSome result (λ after. (R.state after).volts ≡ 0) }
    ensures points { IfSome result (λ after. (R.state after).points ≡ (R.state rig).points) }
{
    match run_unit(alloc, rig, p, serial, 1) {
        Ok(UnitRun { rig, outcome: _ }) => Some(rig),
        Err(UnitStop::InterlockOpen(rig)) => Some(rig),
        Err(UnitStop::RigFault(rig)) => Some(rig),
        Err(UnitStop::Empty(rig) | UnitStop::NotDischarged(rig, _) | UnitStop::Memory(rig)) => {
            let _rig = rig;
            None
        }
        Err(UnitStop::NotZero(stuck)) => {
            let _rig = stuck.into_rig();
            None
        }
    }
}

/// The test of a unit after that of the unit SN1, on one rig.
fn run_after(alloc: Global, harness: &str, wires: &str, serial: &str) -> Result<Came, Fail> {
    let p = program(alloc, wires)?;
    let rig = SimRig::read(alloc, harness.as_bytes())?;
    if rig.points() != p.nets.points() {
        return Err("other points")?;
    }
    let Some(rig) = rig_after(alloc, rig, &p, "SN1") else {
        return Err("no rig")?;
    };
    in_words(alloc, tested(alloc, rig, &p, serial))
}

#[test]
fn a_unit_is_tested_anew_after_a_stop(rt: HostRuntime) -> Result<(), Fail> {
    let alloc = rt.alloc();
    for (above, tests) in [
        ("door 3\n", "insulation,500,1,100\n"),
        ("fault 9\n", WITHSTAND),
    ] {
        let harness = format!(in alloc; "points 5\n{above}unit SN1 1\n{WIRES}end\n")?;
        let wires = format!(in alloc; "{NETS}{tests}")?;
        let came = run_after(alloc, &harness, &wires, "SN1")?;
        assert_eq!(rt; came.words.as_str(), "pass", "{above}");
    }
    Ok(())
}

/// Whether a tally has these counts of readings, probes, routes, raises, ticks and leaks.
fn counts(tally: &Tally, is: [u64; 6]) -> bool {
    tally.readings == is[0]
        && tally.probes == is[1]
        && tally.routes == is[2]
        && tally.raises == is[3]
        && tally.ticks == is[4]
        && tally.leaks == is[5]
}

#[test]
fn each_seating_has_its_own_tally(rt: HostRuntime) -> Result<(), Fail> {
    let alloc = rt.alloc();
    let harness = format!(in alloc; "points 5\nunit SN1 1\n{WIRES}unit SN2 1\n{WIRES}end\n")?;
    let wires = format!(in alloc; "{NETS}{WITHSTAND}")?;
    let came = run_after(alloc, &harness, &wires, "SN2")?;
    assert_eq!(rt; came.words.as_str(), "pass");
    let tallies = came.rig.tallies().as_slice();
    assert_eq!(rt; tallies.len(), 2);
    for tally in tallies {
        assert!(rt; counts(tally, [4, 0, 2, 2, 4, 4]));
    }
    Ok(())
}

/// A cable of 24 points with a terminating resistor between two of its nets.
const CABLE: &str =
    "part,CABLE24,2\npoints,24\nnet,GND,0,8,16\nnet,P5,1,9,17\nnet,CLK,2,10\nnet,DAT,3,11\nnet,CS,4,12\nnet,INT,5,13\n\
     net,TX,6,14,18,20\nnet,RX,7,15,19,21\nnet,SHLD,22,23\nresistor,R120,6,7,114000,126000\ninsulation,500,20,100\n\
     withstand,1500,10,2000\n";

/// A good unit of it.
const GOOD_CABLE: &str =
    "points 24\nunit SN1 1\nwire 0 8\nwire 8 16\nwire 1 9\nwire 9 17\nwire 2 10\nwire 3 11\nwire 4 12\nwire 5 13\n\
     wire 6 14\nwire 14 18\nwire 18 20\nwire 7 15\nwire 15 19\nwire 19 21\nwire 22 23\nresistor 18 19 120400\n\
     leak 0 1 50\ncharge 400 3\nend\n";

#[test]
fn a_cable_takes_its_applications(rt: HostRuntime) -> Result<(), Fail> {
    let came = run(rt.alloc(), GOOD_CABLE, CABLE)?;
    assert_eq!(rt; came.words.as_str(), "pass");
    assert_eq!(rt; came.rig.readings(), 19);
    let mut to_500 = 0u32;
    let mut to_1500 = 0u32;
    for event in came.rig.events().as_slice() {
        match event {
            Event::Raise(500, true) => to_500 = to_500.saturating_add(1),
            Event::Raise(1500, true) => to_1500 = to_1500.saturating_add(1),
            _ => {}
        }
    }
    assert_eq!(rt;
        to_500,
        8 + 3,
        "each application of either test goes through 500 volts"
    );
    assert_eq!(rt; to_1500, 3);
    Ok(())
}

/// The rig of a stop is let go.
fn let_go(stop: UnitStop<ListRig>) -> &'static str {
    match stop {
        UnitStop::Empty(_rig)
        | UnitStop::InterlockOpen(_rig)
        | UnitStop::NotDischarged(_rig, _)
        | UnitStop::RigFault(_rig)
        | UnitStop::Memory(_rig) => "stopped",
        UnitStop::NotZero(stuck) => {
            let _rig = stuck.into_rig();
            "stuck"
        }
    }
}

/// The readings that were spent. The rig is let go.
fn spent(rig: ListRig) -> u64 {
    rig.readings()
}

/// An outcome in words, and the readings that were spent for it.
fn listed_words(
    alloc: Global,
    answer: Result<UnitRun<ListRig>, UnitStop<ListRig>>,
) -> Result<(String, u64), Fail> {
    match answer {
        Ok(UnitRun { rig, outcome }) => {
            let readings = spent(rig);
            Ok((found(alloc, &outcome)?, readings))
        }
        Err(stop) => Err(let_go(stop))?,
    }
}

/// The test of a unit of a rig that answers its readings by a list and has the points of the wirelist.
fn run_listed(alloc: Global, answers: &[bool], wires: &str) -> Result<(String, u64), Fail> {
    let p = program(alloc, wires)?;
    let points = p.nets.points();
    let answers = Flags::from_slice(alloc, answers)?;
    if points == 0 || answers.len() == 0 {
        return Err("no rig")?;
    }
    let rig = ListRig::new(alloc, points, answers);
    listed_words(alloc, tested(alloc, rig, &p, "SN1"))
}

#[test]
fn a_rig_that_lies_gets_an_outcome_within_bounds(rt: HostRuntime) -> Result<(), Fail> {
    let lists = [
        (
            [true].as_slice(),
            "part,P1,1\npoints,4\n",
            "wiring short 0,0,1,2,3",
            13,
        ),
        ([false].as_slice(), NETS, "wiring open 0:1,1 open 1:3,3", 9),
        (
            [false, true].as_slice(),
            "part,P1,1\npoints,2\nnet,A,0,1\n",
            "wiring",
            2,
        ),
    ];
    for (answers, wires, words, most) in lists {
        let (came, readings) = run_listed(rt.alloc(), answers, wires)?;
        assert_eq!(rt; came.as_str(), words, "{wires}");
        assert!(rt; readings <= most, "{wires}: {readings}");
    }
    Ok(())
}
