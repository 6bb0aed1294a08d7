//! Scripts and their answers.

use crate::bench::{MAY, disk_of, harness, run, wires};
use std::test::Fail;

/// A program is adopted, and a unit enrolled.
const ADDED: &str = "adopt A1\nenrol N1 SN1\n";

#[test]
fn a_unit_is_answered_by_its_outcome(rt: HostRuntime) -> Result<(), Fail> {
    let alloc = rt.alloc();
    let rows = [
        ("", "", "test S1 SN1\n", "OK 3 S1 PASS\n"),
        (
            "",
            "resistor 0 2 10000\n",
            "test S1 SN1\n",
            "OK 3 S1 WIRING opens=0 shorts=1 miswires=0\n",
        ),
        (
            "",
            "resistor 0 2 10001\n",
            "test S1 SN1\n",
            "OK 3 S1 PASS\n",
        ),
        (
            "insulation,500,1,100\n",
            "resistor 0 2 10001\n",
            "test S1 SN1\n",
            "OK 3 S1 INSULATION 2\n",
        ),
        (
            "diode,D1,0,2,500,800\n",
            "diode 2 0 650\n",
            "test S1 SN1\n",
            "OK 3 S1 PARTS 1\n",
        ),
        (
            "diode,D1,0,2,500,800\n",
            "diode 0 2 650\n",
            "test S1 SN1\n",
            "OK 3 S1 PASS\n",
        ),
        (
            "withstand,1500,10,2000\n",
            "arc 0 2 750\n",
            "test S1 SN1\n",
            "OK 3 S1 WITHSTAND bit=0 volts=750\n",
        ),
        (
            "withstand,50,1,1000\n",
            "charge 45 100\n",
            "test S1 SN1\n",
            "OK 3 S1 PASS\n",
        ),
        (
            "withstand,50,1,1000\n",
            "charge 45 101\n",
            "test S1 SN1\n",
            "NO E17 S1 45\n",
        ),
    ];
    for (program, unit, script, answer) in rows {
        let lines = format!(in alloc; "{ADDED}{script}")?;
        let came = run(
            alloc,
            harness(alloc, "", unit)?.as_str(),
            wires(alloc, program)?.as_str(),
            disk_of(alloc, b"", &[])?,
            MAY,
            lines.as_str(),
        )?;
        let said = format!(in alloc; "OK 1 A1\nOK 2 N1\n{answer}")?;
        assert_eq!(rt; came.said.as_str(), said.as_str());
    }
    Ok(())
}

#[test]
fn one_point_passes_and_a_swap_is_two_miswires(rt: HostRuntime) -> Result<(), Fail> {
    let alloc = rt.alloc();
    let swap = b"\x01\0\0\0\0\0\x02\0\0\0\x02\0\x01\0\x01\0\x01\0\0\0\x01\0\x03\0".as_slice();
    let rows = [
        (
            "points 1\nunit SN1 1\nend\n",
            "part,P1,1\npoints,1\n",
            "PASS",
            b"\0\0".as_slice(),
        ),
        (
            "points 5\nunit SN1 1\nwire 0 3\nwire 1 2\nend\n",
            "part,P1,1\npoints,5\nnet,A,0,1\nnet,B,2,3\n",
            "WIRING opens=0 shorts=0 miswires=2",
            swap,
        ),
    ];
    for (harness, wires, verdict, last) in rows {
        let lines = format!(in alloc; "{ADDED}test S1 SN1\n")?;
        let came = run(
            alloc,
            harness,
            wires,
            disk_of(alloc, b"", &[])?,
            MAY,
            lines.as_str(),
        )?;
        let said = format!(in alloc; "OK 1 A1\nOK 2 N1\nOK 3 S1 {verdict}\n")?;
        assert_eq!(rt; came.said.as_str(), said.as_str());
        assert!(rt; came.disk.bytes().ends_with(last), "{verdict}");
    }
    Ok(())
}

#[test]
fn doors_and_faults_are_told(rt: HostRuntime) -> Result<(), Fail> {
    let alloc = rt.alloc();
    let rows = [
        (
            "insulation,500,1,100\n",
            "door 3\n",
            "NO E16 S1\nOK 3 S1 PASS\n",
        ),
        (
            "withstand,50,1,1000\n",
            "fault 9\n",
            "NO E20 S1\nOK 3 S1 PASS\n",
        ),
        (
            "withstand,50,1,1000\n",
            "fault 9\nfault 10\nfault 11\nfault 12\n",
            "source not at zero\n",
        ),
        ("", "fault 1\n", "NO E20 S1\nOK 3 S1 PASS\n"),
    ];
    for (program, above, answers) in rows {
        let lines = format!(in alloc; "{ADDED}test S1 SN1\ntest S1 SN1\n")?;
        let came = run(
            alloc,
            harness(alloc, above, "")?.as_str(),
            wires(alloc, program)?.as_str(),
            disk_of(alloc, b"", &[])?,
            MAY,
            lines.as_str(),
        )?;
        let said = format!(in alloc; "OK 1 A1\nOK 2 N1\n{answers}")?;
        assert_eq!(rt; came.said.as_str(), said.as_str());
    }
    Ok(())
}

#[test]
fn commands_are_refused_by_the_rules(rt: HostRuntime) -> Result<(), Fail> {
    let alloc = rt.alloc();
    let came = run(
        alloc,
        harness(alloc, "", "")?.as_str(),
        wires(alloc, "")?.as_str(),
        disk_of(alloc, b"", &[])?,
        MAY,
        "enrol N1 SN1\nadopt A1\nadopt A2\nenrol N1 SN1\nenrol N2 SN1\ntest S1 SN7\nrelease L1 SN1\nrework R1 SN1\nscrap X1 SN1\ntest S1 SN1\n",
    )?;
    assert_eq!(rt;
        came.said.as_str(),
        "NO E02 N1\nOK 1 A1\nNO E18 A2 P1 1\nOK 2 N1\nNO E22 N2 2\nNO E05 S1\nNO E12 L1\nNO E11 R1\nOK 3 X1\nNO E07 S1\n"
    );
    let again = run(
        alloc,
        harness(alloc, "", "")?.as_str(),
        "part,P1,2\npoints,5\nnet,A,0,1\nnet,B,2,3\n",
        came.disk,
        MAY,
        "test S2 SN1\nadopt A1\nadopt A2\n",
    )?;
    assert_eq!(rt; again.said.as_str(), "NO E03 S2\nNO E13 A1 1\nOK 4 A2\n");
    Ok(())
}

#[test]
fn a_marked_journal_names_operator_and_fixture(rt: HostRuntime) -> Result<(), Fail> {
    let alloc = rt.alloc();
    let lines = format!(in alloc;
        "{ADDED}test S0 SN1 OP7 FX2\nmark M1\nmark M2\ntest S1 SN1\ntest S1 SN1 OP7 FX2\ntest S1 SN1 OP7 FX2\ntest S1 SN1 OP8 FX2\n"
    )?;
    let came = run(
        alloc,
        harness(alloc, "", "")?.as_str(),
        wires(alloc, "")?.as_str(),
        disk_of(alloc, b"", &[])?,
        MAY,
        lines.as_str(),
    )?;
    assert_eq!(rt;
        came.said.as_str(),
        "OK 1 A1\nOK 2 N1\nNO E24 S0\nOK 3 M1\nNO E25 M2 3\nNO E23 S1\nOK 4 S1 PASS\nSAME 4 S1 PASS\nNO E13 S1 4\n"
    );
    assert_eq!(rt; came.disk.bytes().len(), 149);
    let last = b"\x09\0\0\0\0\x66\x31\x86\0\x02S1\x03SN1\x01\x03OP7\x03FX2\0".as_slice();
    assert_eq!(rt; &came.disk.bytes()[148 - last.len()..148], last);
    Ok(())
}

#[test]
fn a_unit_is_tested_again_after_rework(rt: HostRuntime) -> Result<(), Fail> {
    let alloc = rt.alloc();
    let open = "wire 0 1\n";
    let file = format!(in alloc;
        "points 5\nunit SN1 1\n{open}unit SN1 2\n{open}wire 2 3\nunit SN2 1\n{open}unit SN2 2\n{open}unit SN2 3\n{open}end\n"
    )?;
    let first = format!(in alloc;
        "{ADDED}test S1 SN1\ntest S2 SN1\nrework R1 SN1\ntest S2 SN1\ntest S3 SN1\nrelease L1 SN1\nscrap X1 SN1\n"
    )?;
    let came = run(
        alloc,
        file.as_str(),
        wires(alloc, "")?.as_str(),
        disk_of(alloc, b"", &[])?,
        MAY,
        first.as_str(),
    )?;
    assert_eq!(rt;
        came.said.as_str(),
        "OK 1 A1\nOK 2 N1\nOK 3 S1 WIRING opens=1 shorts=0 miswires=0\nNO E09 S2\nOK 4 R1\nOK 5 S2 PASS\nNO E08 S3\nOK 6 L1\nNO E06 X1\n"
    );
    let again = run(
        alloc,
        file.as_str(),
        wires(alloc, "")?.as_str(),
        came.disk,
        MAY,
        "enrol N2 SN2\ntest T1 SN2\nrework R2 SN2\ntest T2 SN2\nrework R3 SN2\ntest T3 SN2\ntest T4 SN2\nrework R4 SN2\ntest T4 SN2\ntest S1 SN1\n",
    )?;
    let wiring = "WIRING opens=1 shorts=0 miswires=0";
    let said = format!(in alloc;
        "OK 7 N2\nOK 8 T1 {wiring}\nOK 9 R2\nOK 10 T2 {wiring}\nOK 11 R3\nOK 12 T3 {wiring}\nNO E09 T4\nOK 13 R4\nNO E10 T4 3\nSAME 3 S1 {wiring}\n"
    )?;
    assert_eq!(rt; again.said.as_str(), said.as_str());
    Ok(())
}

#[test]
fn a_calibration_ends_with_its_day(rt: HostRuntime) -> Result<(), Fail> {
    let alloc = rt.alloc();
    let june = 1_719_705_600;
    let rows = [
        (june + 86_399, "OK 4 S9 PASS\n"),
        (june + 86_400, "NO E04 S9 2024-06-30 2024-07-01\n"),
    ];
    for (now, answer) in rows {
        let lines = format!(in alloc; "calibrate C1 2024-06-30\n{ADDED}test S9 SN1\n")?;
        let came = run(
            alloc,
            harness(alloc, "", "")?.as_str(),
            wires(alloc, "")?.as_str(),
            disk_of(alloc, b"", &[])?,
            now,
            lines.as_str(),
        )?;
        let said = format!(in alloc; "OK 1 C1\nOK 2 A1\nOK 3 N1\n{answer}")?;
        assert_eq!(rt; came.said.as_str(), said.as_str());
    }
    Ok(())
}
