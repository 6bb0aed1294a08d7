//! The station at work over bytes in memory, with values from the rules of its files and its words.

use crate::{Ended, bench};
use base::{Bytes, Counts};
use bench_edge::{MemClock, MemSink, MemSource};
use disk_edge::MemDisk;
use door_edge::{ConnList, MemDoor};
use std::process::Abort;
use std::test::Fail;

const UNIT: &str = "continuity --serial SN1 --attempt 1";

const HARNESS: &str = "points 5\nunit SN1 1\nwire 0 1\nwire 2 3\nend\n";

const WIRES: &str = "part,P1,1\npoints,5\nnet,A,0,1\nnet,B,2,3\n";

const USAGE: &str =
    "usage: bench continuity|learn|run|serve|report|unit|import|export|soak [options]\n";

/// Which call fails on each of the sources and on the sink, counted from 1; 0: none.
#[derive(Clone, Copy)]
struct Failing {
    harness: u64,
    wires: u64,
    sink: u64,
}

const NONE: Failing = Failing {
    harness: 0,
    wires: 0,
    sink: 0,
};

fn source_of(rt: &impl AllocGlobal, bytes: &[u8], failing: u64) -> Result<MemSource, Fail> {
    let bytes = Bytes::from_slice(rt.alloc(), bytes)?;
    let failing = Counts::from_slice(rt.alloc(), &[failing])?;
    Ok(MemSource::new(bytes, failing))
}

fn words_of(rt: &impl AllocGlobal, line: &str) -> Result<Vec<String>, Fail> {
    let mut words = Vec::new(rt.alloc());
    for word in line.split_whitespace() {
        words.push(word.to_string(rt.alloc())?)?;
    }
    Ok(words)
}

/// All that a run is given but the disk and the door.
#[derive(Drop)]
struct Desk {
    words: Vec<String>,
    harness: MemSource,
    wires: MemSource,
    input: MemSource,
    out: MemSink,
    clock: MemClock,
}

fn desk_of(
    rt: &impl AllocGlobal,
    line: &str,
    harness: &[u8],
    wires: &[u8],
    failing: Failing,
) -> Result<Desk, Fail> {
    Ok(Desk {
        words: words_of(rt, line)?,
        harness: source_of(rt, harness, failing.harness)?,
        wires: source_of(rt, wires, failing.wires)?,
        input: source_of(rt, b"", 1)?,
        out: MemSink::new(rt.alloc(), Counts::from_slice(rt.alloc(), &[failing.sink])?),
        clock: MemClock::new(Counts::new(rt.alloc())),
    })
}

/// A disk and a door that fail at their first call.
fn disk_of(rt: &impl AllocGlobal) -> Result<MemDisk, Fail> {
    let failing = Counts::from_slice(rt.alloc(), &[1])?;
    Ok(MemDisk::new(rt.alloc(), Bytes::new(rt.alloc()), failing)?)
}

fn door_of(rt: &impl AllocGlobal) -> Result<MemDoor, Fail> {
    let failing = Counts::from_slice(rt.alloc(), &[1])?;
    Ok(MemDoor::new(rt.alloc(), ConnList::new(rt.alloc()), failing))
}

/// Does what the words ask; the disk and the rig are let go.
fn call(rt: &impl AllocGlobal, desk: &mut Desk, disk: MemDisk, door: &mut MemDoor) -> u8 {
    let Ended {
        status,
        disk: _disk,
        rig: _rig,
    } = bench(
        rt.alloc(),
        desk.words.as_slice(),
        &mut desk.harness,
        &mut desk.wires,
        &mut desk.input,
        &mut desk.out,
        disk,
        &mut desk.clock,
        door,
    );
    status
}

/// The status of a run, and what it wrote.
fn ran(
    rt: &impl AllocGlobal,
    line: &str,
    harness: &[u8],
    wires: &[u8],
    failing: Failing,
) -> Result<(u8, Bytes), Fail> {
    let mut desk = desk_of(rt, line, harness, wires, failing)?;
    let mut door = door_of(rt)?;
    let disk = disk_of(rt)?;
    let status = call(rt, &mut desk, disk, &mut door);
    let wrote = Bytes::from_slice(rt.alloc(), desk.out.bytes())?;
    Ok((status, wrote))
}

/// The words of a run, its two files, its status and what it writes.
type Run = (&'static str, &'static str, &'static str, u8, &'static str);

const ONE_WIRE: &str = "points 5\nunit SN1 1\nwire 0 1\nend\n";

const NO_WIRE: &str = "points 5\nunit SN1 1\nend\n";

const FAILS_FIRST: &str = "points 5\nfault 1\nunit SN1 1\nwire 0 1\nwire 2 3\nend\n";

const FAILS_SECOND: &str = "points 5\nfault 2\nunit SN1 1\nwire 0 1\nwire 2 3\nend\n";

const OFF: &str = "points 5\nunit SN1 1\nwire 0 5\nend\n";

const CROSSED: &str = "points 6\nunit SN1 1\nwire 0 5\nwire 1 4\nend\n";

const OTHER: &str = "continuity --serial SN2 --attempt 1";

const LATER: &str = "continuity --serial SN1 --attempt 2";

const SECOND: &str =
    "points 5\nunit SN1 1\nwire 0 1\nwire 2 3\nresistor 0 2 20000\ndiode 1 3 600\nend\n";

const CHECKS: [Run; 15] = [
    (
        "--serial=SN1 continuity --attempt 1",
        HARNESS,
        WIRES,
        0,
        "PASS\n",
    ),
    (UNIT, HARNESS, WIRES, 0, "PASS\n"),
    (UNIT, ONE_WIRE, WIRES, 0, "open B 3\nFAIL 1\n"),
    (UNIT, NO_WIRE, WIRES, 0, "open A 1\nopen B 3\nFAIL 2\n"),
    (
        UNIT,
        HARNESS,
        "part,P1,1\npoints,5\nnet,A,1,4,0\n",
        0,
        "open A 4\nFAIL 1\n",
    ),
    (UNIT, HARNESS, "part,P1,1\npoints,5\n", 0, "PASS\n"),
    (LATER, HARNESS, WIRES, 14, "fixture empty\n"),
    (OTHER, HARNESS, WIRES, 14, "fixture empty\n"),
    (UNIT, FAILS_FIRST, WIRES, 15, "rig fault\n"),
    (UNIT, FAILS_SECOND, WIRES, 15, "rig fault\n"),
    (UNIT, OFF, WIRES, 3, "harness refused 2 line 3\n"),
    (UNIT, OFF, "", 3, "harness refused 2 line 3\n"),
    (UNIT, "points 5\n", WIRES, 3, "harness refused 5\n"),
    (UNIT, SECOND, WIRES, 3, "harness refused 3 line 6\n"),
    (
        UNIT,
        HARNESS,
        "part,P1,1\npoints,4\n",
        13,
        "points differ harness 5 wirelist 4\n",
    ),
];

const POINT_TWICE: &str = "part,P1,1\npoints,5\nnet,A,0,1\nnet,C,1,4\n";

const NAME_TWICE: &str = "part,P1,1\npoints,5\nnet,A,0,1\nnet,A,4\n";

const QUOTED: &str = "points,5\r\n\"net\",A,1,0,,\r\npart,P1,1";

const NONE_JUDGED: &str = "part,P1,1\npoints,5\nignore,0,1,2,3,4\n";

const IGNORED: &str = "part,P1,1\npoints,5\nnet,B,2,3\nignore,4\n";

const WIRELISTS: [Run; 8] = [
    (UNIT, HARNESS, "", 4, "wirelist refused 4\n"),
    (UNIT, HARNESS, POINT_TWICE, 4, "wirelist refused 7 2 1\n"),
    (UNIT, HARNESS, NONE_JUDGED, 4, "wirelist refused 7 4\n"),
    (UNIT, HARNESS, IGNORED, 0, "PASS\n"),
    (UNIT, HARNESS, NAME_TWICE, 4, "wirelist refused 8 4\n"),
    (
        UNIT,
        HARNESS,
        "attempts,10\n",
        4,
        "wirelist refused 3 1 2\n",
    ),
    (
        UNIT,
        HARNESS,
        "points,5000\n",
        4,
        "wirelist refused 6 5000\n",
    ),
    (UNIT, HARNESS, QUOTED, 0, "PASS\n"),
];

const LEARN: &str = "learn --serial SN1 --attempt 1";

const LEARNT: &str = "part,LEARNED,1\npoints,5\nnet,N1,0,1\nnet,N2,2,3\nattempts,3\n";

const CROSSED_LEARNT: &str = "part,LEARNED,1\npoints,6\nnet,N1,0,5\nnet,N2,1,4\nattempts,3\n";

const LEARNINGS: [Run; 9] = [
    (LEARN, HARNESS, WIRES, 0, LEARNT),
    (LEARN, HARNESS, "", 0, LEARNT),
    (LEARN, CROSSED, WIRES, 0, CROSSED_LEARNT),
    (
        LEARN,
        NO_WIRE,
        "",
        0,
        "part,LEARNED,1\npoints,5\nattempts,3\n",
    ),
    (
        "learn --serial SN1 --attempt 2",
        HARNESS,
        WIRES,
        14,
        "fixture empty\n",
    ),
    (
        "learn --serial SN2 --attempt 1",
        HARNESS,
        WIRES,
        14,
        "fixture empty\n",
    ),
    (LEARN, FAILS_FIRST, WIRES, 15, "rig fault\n"),
    (LEARN, FAILS_SECOND, WIRES, 15, "rig fault\n"),
    (LEARN, OFF, WIRES, 3, "harness refused 2 line 3\n"),
];

/// Whether each run of a table ends as it says.
fn each_ends(rt: &(impl AllocGlobal + Abort), runs: &[Run]) -> Result<(), Fail> {
    for (line, harness, wires, status, text) in runs {
        let (ended, wrote) = ran(rt, line, harness.as_bytes(), wires.as_bytes(), NONE)?;
        assert_eq!(rt; ended, *status, "{line}: {harness}");
        assert_eq!(rt; wrote.as_slice(), text.as_bytes(), "{line}: {harness}");
    }
    Ok(())
}

#[test]
fn each_ending_of_a_check_has_its_status_and_its_line(rt: HostRuntime) -> Result<(), Fail> {
    each_ends(&rt, &CHECKS)
}

#[test]
fn each_ending_of_learning_has_its_status_and_its_line(rt: HostRuntime) -> Result<(), Fail> {
    each_ends(&rt, &LEARNINGS)
}

#[test]
fn each_wirelist_has_its_status_and_its_line(rt: HostRuntime) -> Result<(), Fail> {
    each_ends(&rt, &WIRELISTS)
}

#[test]
fn other_words_are_no_command(rt: HostRuntime) -> Result<(), Fail> {
    for line in [
        "",
        "learn",
        "learning --serial SN1 --attempt 1",
        "continuity --serial SN1 --attempt 0",
        "continuity --serial SN1 --attempt 10",
        "learn --serial SN1 --attempt 10",
        "continuity --serial -a --attempt 1",
        "learn --serial -a --attempt 1",
        "continuity --serial SN1 --attempt 1 1",
        "continuity --serial SN1 --serial SN1 --attempt 1",
        "--help",
    ] {
        let (ended, wrote) = ran(&rt, line, OFF.as_bytes(), WIRES.as_bytes(), NONE)?;
        assert_eq!(rt; ended, 2, "{line}");
        assert_eq!(rt; wrote.as_slice(), USAGE.as_bytes(), "{line}");
    }
    Ok(())
}

#[test]
fn a_failing_call_has_its_status(rt: HostRuntime) -> Result<(), Fail> {
    for (failing, status, text) in [
        (Failing { harness: 1, ..NONE }, 6, "read fault\n"),
        (Failing { harness: 2, ..NONE }, 6, "read fault\n"),
        (Failing { wires: 1, ..NONE }, 6, "read fault\n"),
        (Failing { sink: 1, ..NONE }, 7, ""),
        (
            Failing {
                harness: 1,
                wires: 1,
                sink: 1,
            },
            6,
            "",
        ),
        (
            Failing {
                harness: 9,
                wires: 9,
                sink: 9,
            },
            0,
            "PASS\n",
        ),
    ] {
        let (ended, wrote) = ran(&rt, UNIT, HARNESS.as_bytes(), WIRES.as_bytes(), failing)?;
        assert_eq!(rt; ended, status);
        assert_eq!(rt; wrote.as_slice(), text.as_bytes());
    }
    Ok(())
}

/// What is written where the harness file is cut after n bytes.
fn text_of_cut(n: usize) -> &'static str {
    match n {
        1..=7 => "harness refused 1 line 1\n",
        10..=18 => "harness refused 1 line 2\n",
        21..=27 => "harness refused 1 line 3\n",
        30..=36 => "harness refused 1 line 4\n",
        39..=40 => "harness refused 1 line 5\n",
        41..=42 => "PASS\n",
        _ => "harness refused 5\n",
    }
}

#[test]
fn a_cut_harness_is_refused(rt: HostRuntime) -> Result<(), Fail> {
    for n in 0..43 {
        let cut = &HARNESS.as_bytes()[..n];
        let (status, wrote) = ran(&rt, UNIT, cut, WIRES.as_bytes(), NONE)?;
        assert_eq!(rt; status, if n < 41 { 3 } else { 0 }, "cut after {n} bytes");
        assert_eq!(rt;
            wrote.as_slice(),
            text_of_cut(n).as_bytes(),
            "cut after {n} bytes"
        );
    }
    Ok(())
}

#[test]
fn learning_asks_the_wirelist_for_nothing(rt: HostRuntime) -> Result<(), Fail> {
    for (failing, status, text) in [
        (Failing { wires: 1, ..NONE }, 0, LEARNT),
        (Failing { harness: 1, ..NONE }, 6, "read fault\n"),
        (Failing { sink: 1, ..NONE }, 7, ""),
    ] {
        let (ended, wrote) = ran(&rt, LEARN, HARNESS.as_bytes(), WIRES.as_bytes(), failing)?;
        assert_eq!(rt; ended, status);
        assert_eq!(rt; wrote.as_slice(), text.as_bytes());
    }
    Ok(())
}
