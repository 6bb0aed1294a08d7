//! Reports of lists of records, typed from the forms of their lines.

ghost use Rattle.std.specs.Prelude.{All, IfOk, OnOk};
ghost use Rattle.records.specs.RecordRanges.{IsRecord};

use crate::{lot_report, results_csv, unit_report};
use base::Text;
use partition::Name;
use records::{DecodeStop, RecordList, decode};
use std::alloc::Global;
use std::test::Fail;

// Records of 2024-05-01, byte by byte. The outcomes of the tests name nets, components and clusters that the program has, and
// ones that it does not have.

const ADOPT: &[u8] =
    b"\x01\0\0\0\0\x66\x31\x86\0\x02A1\0\0\0\x63part,P1,1\npoints,6\nnet,A,0,1\nnet,B,2,3\nresistor,R1,0,4,20000,30000\ndiode,D1,2,5,500,800\nattempts,9\n";

const OTHER: &[u8] =
    b"\x01\0\0\0\0\x66\x31\x86\0\x02A2\0\0\0\x28part,P2,7\npoints,4\nnet,X,0,1\nattempts,3\n";

const ENROL: &[u8] = b"\x02\0\0\0\0\x66\x31\x86\0\x02N1\x03SN1";

const REWORK: &[u8] = b"\x05\0\0\0\0\x66\x31\x86\0\x02R1\x03SN1";

const RELEASE: &[u8] = b"\x06\0\0\0\0\x66\x31\x86\0\x02L1\x03SN1";

const SCRAP: &[u8] = b"\x07\0\0\0\0\x66\x31\x86\0\x02X1\x03SN1";

const MARK: &[u8] = b"\x08\0\0\0\0\x66\x31\x86\0\x02M1";

const PASS: &[u8] = b"\x04\0\0\0\0\x66\x31\x86\0\x02T1\x03SN1\x01\0";

/// By OP7 on FX2.
const STAFFED: &[u8] = b"\x09\0\0\0\0\x66\x31\x86\0\x02T2\x03SN1\x02\x03OP7\x03FX2\0";

/// Two opens, one short and two miswires.
const WIRING: &[u8] = b"\x04\0\0\0\0\x66\x31\x86\0\x02T3\x03SN1\x01\x01\
    \0\x02\0\x01\0\x03\0\x01\0\x03\0\x02\0\x04\0\x02\0\x04\0\x05\0\x01\0\0\0\x03\0\0\0\x01\0\x03\0\x02\0\0\0\x02\0\x01\0\x01\0\x09\0\0\0\x01\0\x01";

/// Five components, in the five ways.
const PARTS: &[u8] = b"\x04\0\0\0\0\x66\x31\x86\0\x02T4\x03SN1\x02\x02\
    \0\x05\0\0\0\0\0\0\0\0\0\x4e\x1f\0\x01\x03\0\0\0\0\0\0\x02\x8a\0\x02\x02\0\0\0\0\0\0\0\0\0\x03\x01\0\0\0\0\0\0\x75\x31\0\x04\x04\0\0\0\0\0\0\x02\x58";

/// Three clusters, one with an arc.
const INSULATION: &[u8] =
    b"\x04\0\0\0\0\x66\x31\x86\0\x02T5\x03SN1\x03\x03\0\x03\0\0\0\0\0\0\0\0\0\0\0\0\x01\x01\0\0\0\0\0\0\x27\x11\0\x02\x01\0\0\0\0\0\0\0\x07";

const ARC: &[u8] = b"\x04\0\0\0\0\x66\x31\x86\0\x02T6\x03SN1\x04\x04\0\x02\xee\0\0\0\0\0\0\0\0\0";

const LEAK: &[u8] =
    b"\x04\0\0\0\0\x66\x31\x86\0\x02T7\x03SN1\x05\x04\x01\x05\xdc\x01\0\0\0\0\0\0\x07\xd0";

/// The records of these bytes.
fn records_of(alloc: Global, entries: &[&[u8]]) -> Result<RecordList, Fail>
    ensures { IfOk result (All IsRecord) }
{
    let mut records = RecordList::new(alloc);
    for entry in entries {
        add_record(alloc, &mut records, entry)?;
    }
    Ok(records)
}

/// Appends the record of these bytes.
fn add_record(alloc: Global, records: &mut RecordList, entry: &[u8]) -> Result<(), Fail>
    requires { All IsRecord records.old }
    ensures { OnOk result (All IsRecord records.new) }
{
    match decode(alloc, entry) {
        Ok(record) => {
            records.push(record)?;
            Ok(())
        }
        Err(DecodeStop::NotARecord) => Err("no record")?,
        Err(DecodeStop::Memory) => Err("out of memory")?,
    }
}

/// The report of SN1.
fn unit_text(alloc: Global, entries: &[&[u8]]) -> Result<Text, Fail> {
    let records = records_of(alloc, entries)?;
    if records.len() > 100 {
        return Err("more records than a test has")?;
    }
    let serial = Name::read(b"SN1").ok_or("no name")?;
    match unit_report(alloc, &records, serial)? {
        Some(text) => Ok(text),
        None => Ok(Text::from_text(alloc, "not enrolled\n")?),
    }
}

/// The status in the report of SN1.
fn has_status(alloc: Global, entries: &[&[u8]], status: &str) -> Result<bool, Fail> {
    let text = unit_text(alloc, entries)?;
    let line = format!(in alloc; "UNIT SN1\nstatus {status}\n")?;
    Ok(text.as_str().starts_with(line.as_str()))
}

/// The report of the lot.
fn lot_text(alloc: Global, entries: &[&[u8]]) -> Result<Text, Fail> {
    let records = records_of(alloc, entries)?;
    if records.len() > 100 {
        return Err("more records than a test has")?;
    }
    Ok(lot_report(alloc, &records)?)
}

#[test]
fn a_unit_has_every_line(rt: HostRuntime) -> Result<(), Fail> {
    let text = unit_text(
        rt.alloc(),
        &[
            WIRING, ADOPT, ENROL, WIRING, REWORK, PARTS, INSULATION, OTHER, ARC, LEAK, MARK,
            STAFFED, RELEASE, SCRAP,
        ],
    )?;
    assert_eq!(rt;
        text.as_str(),
        "\
UNIT SN1
status scrapped
test record 1 2024-05-01 attempt 1 WIRING opens=2 shorts=1 miswires=2
  open #1: 3
  open #2: 4 5
  short #0 #1 #3
  miswire #0 with 2: 1
  miswire #9 with 0: 1
enrolled record 3 2024-05-01
test record 4 2024-05-01 attempt 1 WIRING opens=2 shorts=1 miswires=2
  open B: 3
  open pt4: 4 5
  short A B pt5
  miswire A with 2: 1
  miswire #9 with 0: 1
rework record 5 2024-05-01
test record 6 2024-05-01 attempt 2 PARTS 5
  part R1 low 19999
  part D1 wrong way 650
  part #2 open
  part #3 high 30001
  part #4 leaky 600
test record 7 2024-05-01 attempt 3 INSULATION 3
  leak A arc
  leak B 10001 pS
  leak #2 7 pS
test record 9 2024-05-01 attempt 4 WITHSTAND bit=0 volts=750
  withstand bit 0 at 750 V arc
test record 10 2024-05-01 attempt 5 WITHSTAND bit=1 volts=1500
  withstand bit 1 at 1500 V 2000 pS
test record 12 2024-05-01 attempt 2 by OP7 on FX2 PASS
released record 13 2024-05-01
scrapped record 14 2024-05-01
"
    );
    Ok(())
}

#[test]
fn a_unit_has_each_status(rt: HostRuntime) -> Result<(), Fail> {
    let alloc = rt.alloc();
    assert!(rt; has_status(alloc, &[ENROL], "enrolled")?);
    assert!(rt; has_status(alloc, &[ENROL, REWORK], "enrolled")?);
    assert!(rt; has_status(alloc, &[ENROL, ARC], "rework due")?);
    assert!(rt; has_status(alloc, &[ENROL, ARC, REWORK], "reworked")?);
    assert!(rt; has_status(alloc, &[ENROL, ARC, REWORK, LEAK], "rework due")?);
    assert!(rt; has_status(alloc, &[ENROL, ARC, REWORK, PASS], "passed")?);
    assert!(rt; has_status(alloc, &[ENROL, PASS, RELEASE], "released")?);
    assert!(rt; has_status(alloc, &[SCRAP, ENROL, RELEASE], "scrapped")?);
    assert_eq!(rt;
        unit_text(alloc, &[ADOPT, PASS, SCRAP])?.as_str(),
        "not enrolled\n"
    );
    Ok(())
}

#[test]
fn a_lot_counts_serials(rt: HostRuntime) -> Result<(), Fail> {
    let alloc = rt.alloc();
    assert_eq!(rt;
        lot_text(alloc, &[])?.as_str(),
        "\
LOT REPORT
part -
enrolled 0
tested 0
first pass 0
yield -
results 0 pass 0 wiring 0 parts 0 insulation 0 withstand 0
released 0
scrapped 0
"
    );
    let second = b"\x02\0\0\0\0\x66\x31\x86\0\x02N2\x03SN2";
    let third = b"\x02\0\0\0\0\x66\x31\x86\0\x02N3\x03SN3";
    let idle = b"\x02\0\0\0\0\x66\x31\x86\0\x02N4\x03SN4";
    let second_pass = b"\x04\0\0\0\0\x66\x31\x86\0\x02T8\x03SN2\x01\0";
    let third_arc = b"\x04\0\0\0\0\x66\x31\x86\0\x02T9\x03SN3\x01\x04\0\x02\xee\0\0\0\0\0\0\0\0\0";
    let stray = b"\x04\0\0\0\0\x66\x31\x86\0\x02U1\x03SN9\x01\0";
    let released = b"\x06\0\0\0\0\x66\x31\x86\0\x02L2\x03SN9";
    assert_eq!(rt;
        lot_text(
            alloc,
            &[
                ADOPT,
                OTHER,
                PASS,
                ENROL,
                ENROL,
                WIRING,
                second,
                second_pass,
                idle,
                third_arc,
                third,
                PARTS,
                INSULATION,
                stray,
                RELEASE,
                RELEASE,
                released,
                SCRAP,
                SCRAP,
            ],
        )?
        .as_str(),
        "\
LOT REPORT
part P2 revision 7
enrolled 4
tested 3
first pass 2
yield 66.7%
results 7 pass 3 wiring 1 parts 1 insulation 1 withstand 1
released 2
scrapped 1
"
    );
    assert!(rt;
        lot_text(alloc, &[ENROL, PASS])?
            .as_str()
            .find("yield 100.0%\n")
            .is_some()
    );
    assert!(rt;
        lot_text(alloc, &[ENROL, ARC, PASS])?
            .as_str()
            .find("yield 0.0%\n")
            .is_some()
    );
    Ok(())
}

#[test]
fn results_name_staff_once_there_is_a_mark(rt: HostRuntime) -> Result<(), Fail> {
    let alloc = rt.alloc();
    let plain = records_of(alloc, &[ADOPT, ENROL, WIRING, PARTS, STAFFED])?;
    assert!(rt; plain.len() < 100);
    assert!(rt;
        results_csv(alloc, &plain)?.as_slice()
            == "\
record,date,serial,attempt,verdict,opens,shorts,miswires
3,2024-05-01,SN1,1,wiring,2,1,2
4,2024-05-01,SN1,2,parts,0,0,0
5,2024-05-01,SN1,2,pass,0,0,0
"
                .as_bytes()
    );
    let marked = records_of(alloc, &[INSULATION, ARC, STAFFED, MARK])?;
    assert!(rt; marked.len() < 100);
    assert!(rt;
        results_csv(alloc, &marked)?.as_slice()
            == "\
record,date,serial,attempt,verdict,opens,shorts,miswires,operator,fixture
1,2024-05-01,SN1,3,insulation,0,0,0,,
2,2024-05-01,SN1,4,withstand,0,0,0,,
3,2024-05-01,SN1,2,pass,0,0,0,OP7,FX2
"
                .as_bytes()
    );
    Ok(())
}
