//! Reports of files of known bytes.

use crate::{Report, run_report};
use base::{Bytes, Counts};
use bench_edge::MemSink;
use disk_edge::MemDisk;
use partition::Name;
use std::alloc::Global;
use std::test::Fail;

/// SN1 is enrolled on 2024-05-01, and the gate behind that is not wholly open.
const ENROLLED: &[u8] =
    b"WHTSJRN1\x01\0\0\0\x10\x02\0\0\0\0\x66\x31\x86\0\x02N1\x03SN1\x37\0\0\0\x10\x06\0\0\0\0\x66\x31\x86\0\x02L1\x03SN1\0";

const LOT: &[u8] =
    b"LOT REPORT\npart -\nenrolled 1\ntested 0\nfirst pass 0\nyield -\nresults 0 pass 0 wiring 0 parts 0 insulation 0 withstand 0\n\
released 0\nscrapped 0\n";

/// The status, and what was written, of a report of a file. The calls with these numbers fail.
fn ended(
    alloc: Global,
    report: &Report,
    file: &[u8],
    disk_fails: &[u64],
    write_fails: &[u64],
) -> Result<(u8, Bytes), Fail> {
    let failing = Counts::from_slice(alloc, disk_fails)?;
    let disk = MemDisk::new(alloc, Bytes::from_slice(alloc, file)?, failing)?;
    let mut out = MemSink::new(alloc, Counts::from_slice(alloc, write_fails)?);
    let end = run_report(alloc, report, &mut out, disk);
    Ok((end.status, Bytes::from_slice(alloc, out.bytes())?))
}

#[test]
fn reports_are_printed(rt: HostRuntime) -> Result<(), Fail> {
    let alloc = rt.alloc();
    let enrolled = Report::Unit(Name::read(b"SN1").ok_or("no name")?);
    let unknown = Report::Unit(Name::read(b"SN2").ok_or("no name")?);
    let (status, got) = ended(alloc, &Report::Lot, ENROLLED, &[], &[])?;
    assert_eq!(rt; got.as_slice(), LOT);
    assert_eq!(rt; status, 0);
    let (status, got) = ended(alloc, &Report::Results, ENROLLED, &[], &[])?;
    assert_eq!(rt;
        got.as_slice(),
        b"record,date,serial,attempt,verdict,opens,shorts,miswires\n".as_slice()
    );
    assert_eq!(rt; status, 0);
    let (status, got) = ended(alloc, &enrolled, ENROLLED, &[], &[])?;
    assert_eq!(rt;
        got.as_slice(),
        b"UNIT SN1\nstatus enrolled\nenrolled record 1 2024-05-01\n".as_slice()
    );
    assert_eq!(rt; status, 0);
    let (status, got) = ended(alloc, &unknown, ENROLLED, &[], &[])?;
    assert_eq!(rt; got.as_slice(), b"unit SN2: not enrolled\n".as_slice());
    assert_eq!(rt; status, 0);
    let (status, got) = ended(alloc, &Report::Lot, ENROLLED, &[], &[1])?;
    assert_eq!(rt; got.as_slice(), b"".as_slice());
    assert_eq!(rt; status, 7);
    Ok(())
}

#[test]
fn a_journal_that_is_not_opened_has_a_line(rt: HostRuntime) -> Result<(), Fail> {
    let alloc = rt.alloc();
    let rows = [
        (
            b"\x00\x09\x0a\xff12345678".as_slice(),
            b"journal refused 1 00090aff31323334\n".as_slice(),
        ),
        (
            b"WHTSJRN1\x01\xff\xff\xff\xff".as_slice(),
            b"journal refused 2 record 1 at 8\n".as_slice(),
        ),
        (
            b"WHTSJRN1\x01\0\0\0\x03abc\0".as_slice(),
            b"journal refused 4 record 1 at 8\n".as_slice(),
        ),
    ];
    for (file, line) in rows {
        let (status, got) = ended(alloc, &Report::Lot, file, &[], &[])?;
        assert_eq!(rt; got.as_slice(), line);
        assert_eq!(rt; status, 5);
        let (status, got) = ended(alloc, &Report::Lot, file, &[], &[1])?;
        assert_eq!(rt; got.as_slice(), b"".as_slice());
        assert_eq!(rt; status, 5);
    }
    let (status, got) = ended(alloc, &Report::Lot, ENROLLED, &[1], &[])?;
    assert_eq!(rt; got.as_slice(), b"disk fault\n".as_slice());
    assert_eq!(rt; status, 8);
    Ok(())
}
