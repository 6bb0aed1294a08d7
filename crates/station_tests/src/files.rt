//! The bytes of journals, and damaged files.

use crate::bench::{MAY, disk_of, harness, loaded, run, wires};
use std::test::Fail;

/// One calibration until the end of June 2024.
const CALIBRATED: [u8; 30] =
    *b"WHTSJRN1\x01\0\0\0\x10\x03\0\0\0\0\x66\x31\x86\0\x02C1\0\0\x4d\xc0\0";

#[test]
fn one_calibration_has_thirty_bytes(rt: HostRuntime) -> Result<(), Fail> {
    let alloc = rt.alloc();
    let came = run(
        alloc,
        harness(alloc, "", "")?.as_str(),
        wires(alloc, "")?.as_str(),
        disk_of(alloc, b"", &[])?,
        MAY,
        "calibrate C1 2024-06-30\ncalibrate C2 2024-06-30\n",
    )?;
    assert_eq!(rt; came.said.as_str(), "OK 1 C1\nNO E19 C2 2024-06-30\n");
    assert_eq!(rt; came.disk.bytes(), CALIBRATED.as_slice());
    Ok(())
}

#[test]
fn the_first_script_has_its_bytes(rt: HostRuntime) -> Result<(), Fail> {
    let alloc = rt.alloc();
    let came = run(
        alloc,
        harness(alloc, "", "")?.as_str(),
        wires(alloc, "")?.as_str(),
        disk_of(alloc, b"", &[])?,
        MAY,
        "adopt A1\nenrol N1 SN1\ntest S1 SN1\ntest S1 SN1\ntest S1 SN2\n",
    )?;
    let file = b"WHTSJRN1\
        \x01\0\0\0\x42\x01\0\0\0\0\x66\x31\x86\0\x02A1\0\0\0\x32part,P1,1\npoints,5\nnet,A,0,1\nnet,B,2,3\nattempts,3\n\
        \x01\0\0\0\x10\x02\0\0\0\0\x66\x31\x86\0\x02N1\x03SN1\
        \x01\0\0\0\x12\x04\0\0\0\0\x66\x31\x86\0\x02S1\x03SN1\x01\0\0";
    assert_eq!(rt;
        came.said.as_str(),
        "OK 1 A1\nOK 2 N1\nOK 3 S1 PASS\nSAME 3 S1 PASS\nNO E13 S1 3\n"
    );
    assert_eq!(rt; came.disk.bytes(), file.as_slice());
    assert_eq!(rt; came.disk.bytes().len(), 124);
    Ok(())
}

#[test]
fn a_damaged_file_is_opened_or_refused_by_what_it_holds(rt: HostRuntime) -> Result<(), Fail> {
    let alloc = rt.alloc();
    let kind_nine =
        b"WHTSJRN1\x01\0\0\0\x10\x09\0\0\0\0\x66\x31\x86\0\x02C1\0\0\x4d\xc0\0".as_slice();
    let half_open =
        b"WHTSJRN1\x37\0\0\0\x10\x03\0\0\0\0\x66\x31\x86\0\x02C1\0\0\x4d\xc0\0".as_slice();
    let second_wrong =
        b"WHTSJRN1\x01\0\0\0\x10\x03\0\0\0\0\x66\x31\x86\0\x02C1\0\0\x4d\xc0\x01\0\0\0\0\0".as_slice();
    let rows = [
        (b"".as_slice(), "records 0"),
        (b"WHTSJRN1\x01".as_slice(), "records 0"),
        (&[0; 10], "not a journal 0"),
        (&CALIBRATED, "records 1"),
        (&CALIBRATED[..29], "records 1"),
        (&CALIBRATED[..28], "cut 1 at 8"),
        (&CALIBRATED[..20], "cut 1 at 8"),
        (kind_nine, "no record 1 at 8"),
        (half_open, "records 0"),
        (second_wrong, "no record 2 at 29"),
        (b"WHTSJRN1\x01\0\0\0\0\0".as_slice(), "no record 1 at 8"),
        (b"WHTSJRN1\x01\xff\xff\xff\xff".as_slice(), "cut 1 at 8"),
    ];
    for (file, found) in rows {
        let came = loaded(alloc, disk_of(alloc, file, &[])?)?;
        assert_eq!(rt; came.said.as_str(), found, "{file:?}");
        assert!(rt; came.disk.longest_read() <= 16, "{file:?}");
    }
    Ok(())
}
