//! Spellings typed byte by byte, and what is read of them.

ghost use Rattle.std.specs.Prelude.{◌<◌, length};

use crate::{Body, DecodeStop, StationRecord, decode, encode};
use base::Text;
use difference::{Piece, Short};
use std::alloc::Global;
use std::test::Fail;
use wirelist::{LeakFault, Outcome, PartFault, PartFaultKind};

const NONE: &str = "no record";

const ENROLLED: &[u8] = b"\x02\0\0\0\0\x66\x31\x86\0\x02E1\x03SN1";

const CALIBRATED: &[u8] = b"\x03\0\0\0\0\x66\x31\x86\0\x02C1\0\0\x4d\xc0";

const PASSED: &[u8] = b"\x04\0\0\0\0\x66\x31\x86\0\x02T1\x03SN1\x01\0";

const STAFFED: &[u8] = b"\x09\0\0\0\0\x66\x31\x86\0\x02S1\x03SN1\x01\x03OP7\x03FX2\0";

const MARKED: &[u8] = b"\x08\0\0\0\0\x66\x31\x86\0\x02M1";

const ADOPTED: &[u8] =
    b"\x01\0\0\0\0\x66\x31\x86\0\x02A1\0\0\0\x32part,P1,1\npoints,5\nnet,A,0,1\nnet,B,2,3\nattempts,3\n";

/// Two nets with their second points swapped.
const SWAPPED: &[u8] = b"\x01\0\0\0\0\0\x02\0\0\0\x02\0\x01\0\x01\0\x01\0\0\0\x01\0\x03";

/// What the bytes are read as, where they are written so again.
fn told(alloc: Global, bytes: &[u8]) -> Result<Text, Fail> {
    let record = match decode(alloc, bytes) {
        Ok(record) => record,
        Err(DecodeStop::NotARecord) => return Ok(Text::from_text(alloc, NONE)?),
        Err(DecodeStop::Memory) => return Err("out of memory")?,
    };
    if encode(alloc, &record)?.as_slice() != bytes {
        return Err("written in another way")?;
    }
    record_text(alloc, &record)
}

/// The same of a test's record, with this outcome.
fn told_of(alloc: Global, outcome: &[u8]) -> Result<Text, Fail> {
    let mut bytes = Vec::from_slice(alloc, &PASSED[..17])?;
    bytes.extend_from_slice(outcome)?;
    told(alloc, bytes.as_slice())
}

fn record_text(alloc: Global, record: &StationRecord) -> Result<Text, Fail> {
    let mut text = Text::new(alloc);
    text.push_str(format!(in alloc; "{} {} ", record.id.text(), record.moment)?.as_str())?;
    match &record.body {
        Body::Adopt(program) => {
            text.push_str(format!(in alloc; "adopt {}", program.part.text())?.as_str())?
        }
        Body::Enrol(serial) => {
            text.push_str(format!(in alloc; "enrol {}", serial.text())?.as_str())?
        }
        Body::Calibrate(day) => text.push_str(format!(in alloc; "calibrate {day}")?.as_str())?,
        Body::Tested {
            serial,
            attempt,
            staff,
            outcome,
        } => {
            text.push_str(format!(in alloc; "test {} {attempt}", serial.text())?.as_str())?;
            if let Some(staff) = staff {
                text.push_str(format!(in alloc;
                    " by {} on {}",
                    staff.operator.text(),
                    staff.fixture.text()
                )?.as_str())?;
            }
            push_outcome(alloc, &mut text, outcome)?
        }
        Body::Rework(serial) => {
            text.push_str(format!(in alloc; "rework {}", serial.text())?.as_str())?
        }
        Body::Release(serial) => {
            text.push_str(format!(in alloc; "release {}", serial.text())?.as_str())?
        }
        Body::Scrap(serial) => {
            text.push_str(format!(in alloc; "scrap {}", serial.text())?.as_str())?
        }
        Body::Mark => text.push_str("mark")?,
    }
    Ok(text)
}

fn push_outcome(alloc: Global, text: &mut Text, outcome: &Outcome) -> Result<(), Fail> {
    match outcome {
        Outcome::Pass => text.push_str(" pass")?,
        Outcome::Wiring(found) => {
            push_pieces(alloc, text, " opens", found.opens.as_slice())?;
            push_shorts(alloc, text, found.shorts.as_slice())?;
            push_pieces(alloc, text, " miswires", found.miswires.as_slice())?;
        }
        Outcome::Parts(faults) => {
            for fault in faults.as_slice() {
                push_part(alloc, text, fault)?;
            }
        }
        Outcome::Insulation(faults) => {
            for fault in faults.as_slice() {
                push_leak(alloc, text, fault)?;
            }
        }
        Outcome::Withstand { bit, volts, leak } => text.push_str(format!(in alloc;
            " withstand {bit} {volts} {leak:?}"
        )?.as_str())?,
    }
    Ok(())
}

fn push_pieces(alloc: Global, text: &mut Text, head: &str, pieces: &[Piece]) -> Result<(), Fail> {
    text.push_str(head)?;
    for piece in pieces {
        text.push_str(format!(in alloc; " {}@{}", piece.net, piece.class.0)?.as_str())?;
        for point in piece.points.as_slice() {
            text.push_str(format!(in alloc; ",{}", point.0)?.as_str())?;
        }
    }
    Ok(())
}

fn push_shorts(alloc: Global, text: &mut Text, shorts: &[Short]) -> Result<(), Fail> {
    text.push_str(" shorts")?;
    for short in shorts {
        text.push_str(format!(in alloc; " @{}", short.class.0)?.as_str())?;
        for net in short.nets.as_slice() {
            text.push_str(format!(in alloc; ",{net}")?.as_str())?;
        }
    }
    Ok(())
}

fn push_part(alloc: Global, text: &mut Text, fault: &PartFault) -> Result<(), Fail> {
    let (word, reading) = match fault.kind {
        PartFaultKind::Low(reading) => ("low", reading),
        PartFaultKind::High(reading) => ("high", reading),
        PartFaultKind::OpenPart => ("open", 0),
        PartFaultKind::WrongWay(reading) => ("wrong way", reading),
        PartFaultKind::Leaky(reading) => ("leaky", reading),
    };
    text.push_str(format!(in alloc; " part {} {word} {reading}", fault.part)?.as_str())?;
    Ok(())
}

fn push_leak(alloc: Global, text: &mut Text, fault: &LeakFault) -> Result<(), Fail> {
    match fault.reading {
        None => text.push_str(format!(in alloc; " leak {} arc", fault.cluster)?.as_str())?,
        Some(reading) => {
            text.push_str(format!(in alloc; " leak {} {reading}", fault.cluster)?.as_str())?
        }
    }
    Ok(())
}

#[test]
fn each_kind_is_read_and_written(rt: HostRuntime) -> Result<(), Fail> {
    let rows = [
        (ADOPTED, 66, "A1 1714521600 adopt P1"),
        (ENROLLED, 16, "E1 1714521600 enrol SN1"),
        (CALIBRATED, 16, "C1 1714521600 calibrate 19904"),
        (PASSED, 18, "T1 1714521600 test SN1 1 pass"),
        (STAFFED, 26, "S1 1714521600 test SN1 1 by OP7 on FX2 pass"),
        (MARKED, 12, "M1 1714521600 mark"),
        (
            b"\x05\0\0\0\x3a\xff\xf4\x41\x7f\x01r\x01u",
            13,
            "r 253402300799 rework u",
        ),
        (b"\x06\0\0\0\0\0\0\0\0\x01r\x01u", 13, "r 0 release u"),
        (b"\x07\0\0\0\0\0\0\0\x09\x01r\x01u", 13, "r 9 scrap u"),
    ];
    for (bytes, len, text) in rows {
        assert_eq!(rt; bytes.len(), len);
        assert_eq!(rt; told(rt.alloc(), bytes)?.as_str(), text);
    }
    Ok(())
}

#[test]
fn each_outcome_is_read_and_written(rt: HostRuntime) -> Result<(), Fail> {
    let rows = [
        (b"\0".as_slice(), "T1 1714521600 test SN1 1 pass"),
        (
            SWAPPED,
            "T1 1714521600 test SN1 1 opens shorts miswires 0@2,1 1@0,3",
        ),
        (
            b"\x01\0\0\0\0\0\0",
            "T1 1714521600 test SN1 1 opens shorts miswires",
        ),
        (
            b"\x01\0\x02\0\x01\0\x04\0\x02\0\x04\x0f\xff\0\x01\x01\0\0\x01\0\0\0\x01\0\0\0\x02\0\0\x0f\xff\0\0",
            "T1 1714521600 test SN1 1 opens 1@4,4,4095 1@256,0 shorts @0,0,4095 miswires",
        ),
        (
            b"\x02\0\x03\0\0\0\0\0\0\0\0\0\x23\x28\0\x03\x02\0\0\0\0\0\0\0\0\x01\xff\x04\xff\xff\xff\xff\xff\xff\xff\xff",
            "T1 1714521600 test SN1 1 part 0 low 9000 part 3 open 0 part 511 leaky 18446744073709551615",
        ),
        (
            b"\x02\0\x02\0\x01\x01\0\0\0\0\0\0\0\x02\0\x02\x03\0\0\0\0\0\0\0\x03",
            "T1 1714521600 test SN1 1 part 1 high 2 part 2 wrong way 3",
        ),
        (
            b"\x03\0\x02\0\0\0\0\0\0\0\0\0\0\0\0\xff\x01\0\0\0\0\0\0\x4e\x20",
            "T1 1714521600 test SN1 1 leak 0 arc leak 255 20000",
        ),
        (
            b"\x04\x02\x01\xf4\0\0\0\0\0\0\0\0\0",
            "T1 1714521600 test SN1 1 withstand 2 500 None",
        ),
        (
            b"\x04\x0b\x07\xd0\x01\0\0\0\0\0\0\x01\0",
            "T1 1714521600 test SN1 1 withstand 11 2000 Some(256)",
        ),
    ];
    for (outcome, text) in rows {
        assert_eq!(rt; told_of(rt.alloc(), outcome)?.as_str(), text);
    }
    Ok(())
}

#[test]
fn what_is_out_of_range_is_no_record(rt: HostRuntime) -> Result<(), Fail> {
    let rows = [
        b"".as_slice(),
        b"\0\0\0\0\0\0\0\0\0\x01r\x01u",
        b"\x08\0\0\0\0\0\0\0\0\x01r\x01u",
        b"\x08\0\0\0\0\0\0\0\0\x01r\0",
        b"\x09\0\0\0\0\0\0\0\0\x01r\x01u\x01\0",
        b"\x09\0\0\0\0\0\0\0\0\x01r\x01u\x01\x01o\0",
        b"\x09\0\0\0\0\0\0\0\0\x01r\x01u\x01\x01o\x01-\0",
        b"\x04\0\0\0\0\0\0\0\0\x01r\x01u\x01\x01o\x01f\0",
        b"\x02\0\0\0\x3a\xff\xf4\x41\x80\x01r\x01u",
        b"\x02\0\0\0\0\0\0\0\0\x01-\x01u",
        b"\x02\0\0\0\0\0\0\0\0\x01r\0",
        b"\x02\0\0\0\0\0\0\0\0\x01r\x19uuuuuuuuuuuuuuuuuuuuuuuuu",
        b"\x02\0\0\0\0\0\0\0\0\x01r\x01uu",
        b"\x03\0\0\0\0\0\0\0\0\x01r\0\x2c\xc0\xa1",
        b"\x04\0\0\0\0\0\0\0\0\x01r\x01u\0\0",
        b"\x04\0\0\0\0\0\0\0\0\x01r\x01u\x0a\0",
        b"\x04\0\0\0\0\0\0\0\0\x01r\x01u\x01\0\0",
    ];
    for bytes in rows {
        assert_eq!(rt; told(rt.alloc(), bytes)?.as_str(), NONE);
    }
    Ok(())
}

#[test]
fn another_text_of_a_program_is_no_record(rt: HostRuntime) -> Result<(), Fail> {
    let texts = [
        (
            b'\x31',
            b"part,P1,1\npoints,5\nnet,A,0,1\nnet,B,2,3\nattempts,3\n".as_slice(),
        ),
        (
            b'\x31',
            b"part,P1,1\npoints,5\nnet,A,0,1\nnet,B,2,3\nattempts,3",
        ),
        (
            b'\x32',
            b"part,P1,1\npoints,5\nnet,A,1,0\nnet,B,2,3\nattempts,3\n",
        ),
        (
            b'\x32',
            b"points,5\npart,P1,1\nnet,A,0,1\nnet,B,2,3\nattempts,3\n",
        ),
        (b'\x27', b"part,P1,1\npoints,5\nnet,A,0,1\nnet,B,2,3\n"),
        (
            b'\x32',
            b"part,P1,1\npoints,3\nnet,A,0,1\nnet,B,2,3\nattempts,3\n",
        ),
    ];
    for (len, text) in texts {
        let mut bytes = Vec::from_slice(rt.alloc(), &ADOPTED[..15])?;
        bytes.push(len)?;
        bytes.extend_from_slice(text)?;
        assert_eq!(rt; told(rt.alloc(), bytes.as_slice())?.as_str(), NONE);
    }
    Ok(())
}

#[test]
fn an_outcome_out_of_range_is_in_no_record(rt: HostRuntime) -> Result<(), Fail> {
    let rows = [
        b"\x05".as_slice(),
        b"\x01\0\x01\0\0\0\0\0\0\0\0\0\0",
        b"\x01\0\x01\x10\0\0\0\0\x01\0\0\0\0\0\0",
        b"\x01\0\x01\0\0\x10\0\0\x01\0\0\0\0\0\0",
        b"\x01\0\x01\0\0\0\0\0\x01\x10\0\0\0\0\0",
        b"\x01\0\x01\0\0\0\0\0\x02\0\x01\0\x01\0\0\0\0",
        b"\x01\0\x02\0\0\0\0\0\x01\0\x01\0\0\0\0\0\x01\0\x02\0\0\0\0",
        b"\x01\0\0\0\x01\0\0\0\x01\0\0\0\0",
        b"\x01\0\0\0\x02\0\x05\0\x02\0\x01\0\x02\0\x04\0\x02\0\x01\0\x03\0\0",
        b"\x02\0\0",
        b"\x02\0\x01\x02\0\0\0\0\0\0\0\0\0\0\0",
        b"\x02\0\x01\0\0\x05\0\0\0\0\0\0\0\0",
        b"\x02\0\x01\0\0\x02\0\0\0\0\0\0\0\x01",
        b"\x02\0\x02\0\0\0\0\0\0\0\0\0\0\x01\0\0\0\0\0\0\0\0\0\0\0\x01",
        b"\x03\0\0",
        b"\x03\0\x01\x01\0\0\0\0\0\0\0\0\0\0",
        b"\x03\0\x01\0\0\0\0\0\0\0\0\0\0\x01",
        b"\x03\0\x01\0\0\x02\0\0\0\0\0\0\0\0",
        b"\x04\x0c\x01\xf4\0\0\0\0\0\0\0\0\0",
        b"\x04\0\0\0\0\0\0\0\0\0\0\0\0",
        b"\x04\0\0\x4b\0\0\0\0\0\0\0\0\0",
        b"\x04\0\x08\x02\0\0\0\0\0\0\0\0\0",
    ];
    for outcome in rows {
        assert_eq!(rt; told_of(rt.alloc(), outcome)?.as_str(), NONE);
    }
    Ok(())
}

/// How many of the cuts of these bytes, and of the changes of one byte, are read as a record. None is read as their own.
fn found_nearby(alloc: Global, bytes: &[u8]) -> Result<u32, Fail> {
    let own = told(alloc, bytes)?;
    let cuts = found_among_cuts(alloc, bytes, own.as_str())?;
    let mut found = cuts;
    for at in 0..bytes.len() {
        found = found.saturating_add(found_at(alloc, bytes, at, own.as_str())?);
    }
    Ok(found)
}

fn found_among_cuts(alloc: Global, bytes: &[u8], own: &str) -> Result<u32, Fail> {
    let mut found: u32 = 0;
    for len in 0..bytes.len() {
        found = found.saturating_add(is_another(alloc, &bytes[..len], own)?);
    }
    Ok(found)
}

/// How many changes of this byte are read as a record.
fn found_at(alloc: Global, bytes: &[u8], at: usize, own: &str) -> Result<u32, Fail>
    requires { at < length bytes.now }
{
    let mut found: u32 = 0;
    for value in 0..=255 {
        if value != bytes[at] {
            let mut changed = Vec::from_slice(alloc, bytes)?;
            changed[at] = value;
            found = found.saturating_add(is_another(alloc, changed.as_slice(), own)?);
        }
    }
    Ok(found)
}

/// 1 where the bytes are read as a record, which is another than this one.
fn is_another(alloc: Global, bytes: &[u8], own: &str) -> Result<u32, Fail> {
    let other = told(alloc, bytes)?;
    if other.as_str() == own {
        return Err("two spellings of one record")?;
    }
    if other.as_str() == NONE {
        return Ok(0);
    }
    Ok(1)
}

#[test]
fn a_cut_or_a_changed_byte_never_gives_the_same_record(rt: HostRuntime) -> Result<(), Fail> {
    let mut swapped = Vec::from_slice(rt.alloc(), &PASSED[..17])?;
    swapped.extend_from_slice(SWAPPED)?;
    assert_eq!(rt; swapped.len(), 40);
    let calibrated = found_nearby(rt.alloc(), CALIBRATED)?;
    let passed = found_nearby(rt.alloc(), PASSED)?;
    let swapped = found_nearby(rt.alloc(), swapped.as_slice())?;
    let staffed = found_nearby(rt.alloc(), STAFFED)?;
    assert_eq!(rt;
        (calibrated, passed, swapped, staffed),
        (1756, 1397, 2746, 1771)
    );
    Ok(())
}
