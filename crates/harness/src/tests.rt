//! Harness files and what they say, with values from the rules of the format.

use crate::{Harness, HarnessRefusal};
use partition::Point;
use rig::Row;
use std::test::Fail;

const HARNESS: &[u8] = b"points 5\nunit SN1 1\nwire 0 1\nwire 2 3\nend\n";

/// How the harness is refused where it is cut after n bytes.
fn refusal_of_cut(n: usize) -> Option<HarnessRefusal> {
    match n {
        1..=7 => Some(HarnessRefusal::BadLine(1)),
        10..=18 => Some(HarnessRefusal::BadLine(2)),
        21..=27 => Some(HarnessRefusal::BadLine(3)),
        30..=36 => Some(HarnessRefusal::BadLine(4)),
        39..=40 => Some(HarnessRefusal::BadLine(5)),
        41..=42 => None,
        _ => Some(HarnessRefusal::NoEnd),
    }
}

#[test]
fn a_harness_is_read_whole_or_refused(rt: HostRuntime) -> Result<(), Fail> {
    for n in 0..43 {
        let read = Harness::read(rt.alloc(), &HARNESS[..n]);
        assert_eq!(rt; read.err(), refusal_of_cut(n), "cut after {n} bytes");
    }
    Ok(())
}

#[test]
fn each_refusal_has_its_line(rt: HostRuntime) -> Result<(), Fail> {
    let refusals = [
        (
            b"points 5\nunit SN1 1\nwire 0 5\nend".as_slice(),
            HarnessRefusal::PointRange(3),
        ),
        (
            b"points 5\n#\nunit A 1\nunit A 2\nunit A 1",
            HarnessRefusal::SameUnit(5),
        ),
        (
            b"points 5\nunit A 1\nfault 1\nend",
            HarnessRefusal::BadLine(3),
        ),
        (
            b"points 5\nunit A 1\ndoor 1\nend",
            HarnessRefusal::BadLine(3),
        ),
        (b"points 5\nwire 0 1\nend", HarnessRefusal::BadLine(2)),
        (b"points 4097\nend", HarnessRefusal::BadLine(1)),
        (
            b"points 5\nunit A 1\nresistor 0 9 0\nend",
            HarnessRefusal::BadLine(3),
        ),
        (
            b"points 5\nunit A 1\nresistor 0 9 1\nend",
            HarnessRefusal::PointRange(3),
        ),
        (
            b"points 5\nunit A 1\ndiode 1 1 600\nend",
            HarnessRefusal::PointRange(3),
        ),
        (
            b"points 5\nunit A 1\ncharge 45 100\ncharge 0 0\nend",
            HarnessRefusal::BadLine(4),
        ),
        (
            b"points 5\nunit A 1\ncharge 2001 0\nend",
            HarnessRefusal::BadLine(3),
        ),
        (
            b"points 5\nunit A 1\narc 0 1 2001\nend",
            HarnessRefusal::BadLine(3),
        ),
        (
            b"points 5\nunit SN1 1\nwire 0 1\nwire 2 3\nresistor 0 2 20000\ndiode 1 3 600\nend\n",
            HarnessRefusal::SecondElement(6),
        ),
        (
            b"points 5\nunit A 1\nresistor 0 2 20000\nunit B 1\ndiode 0 2 1\n\ndiode 3 1 1\nwire 3 2\nwire 0 1\nend\n",
            HarnessRefusal::SecondElement(7),
        ),
    ];
    for (bytes, refusal) in refusals {
        assert_eq!(rt; Harness::read(rt.alloc(), bytes).err(), Some(refusal));
    }
    let lines = vec![in rt.alloc(); b'\n'; 200_001]?;
    assert_eq!(rt;
        Harness::read(rt.alloc(), lines.as_slice()).err(),
        Some(HarnessRefusal::TooMany(200_001))
    );
    let long = vec![in rt.alloc(); b'\n'; 8_388_609]?;
    assert_eq!(rt;
        Harness::read(rt.alloc(), long.as_slice()).err(),
        Some(HarnessRefusal::TooLong)
    );
    assert_eq!(rt; HarnessRefusal::SecondElement(6).number(), Some(3));
    assert_eq!(rt; HarnessRefusal::SecondElement(6).line(), Some(6));
    Ok(())
}

#[test]
fn a_unit_has_its_rows(rt: HostRuntime) -> Result<(), Fail> {
    let file =
        b"points 4096\nfault 7\nfault 7\ndoor 2\nunit SN1 1\nresistor 0 2 10000\nresistor 0 2 20000\n\
          diode 3 4095 650\nleak 0 3 5\narc 0 3 750\ncharge 45 100\nunit SN1 2\nend";
    let harness = Harness::read(rt.alloc(), file).ok().ok_or("refused")?;
    assert_eq!(rt; harness.points, 4096);
    assert!(rt;
        harness.faults.contains(7) && harness.faults.len() == 1 && !harness.faults.is_empty()
    );
    assert!(rt; harness.doors.contains(2) && !harness.doors.contains(7));
    let units = harness.units.as_slice();
    assert_eq!(rt; units.len(), 2);
    assert_eq!(rt;
        units[0].rows.as_slice(),
        [
            Row::Resistor(Point(0), Point(2), 10_000),
            Row::Resistor(Point(0), Point(2), 20_000),
            Row::Diode(Point(3), Point(4095), 650),
            Row::Leak(Point(0), Point(3), 5),
            Row::Arc(Point(0), Point(3), 750),
            Row::Charge(45, 100),
        ]
        .as_slice()
    );
    assert_eq!(rt; units[1].rows.as_slice().len(), 0);
    Ok(())
}
