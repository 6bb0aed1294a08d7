//! The commands one after another on one disk.

use crate::desk::{AS_IT_READS, Came, NONE, THREE, ran};
use base::Bytes;
use std::test::Fail;

/// Words, input, status and text.
type Row = (&'static str, &'static str, u8, &'static str);

const DAY: [Row; 12] = [
    (
        "report",
        "",
        0,
        "LOT REPORT\npart -\nenrolled 0\ntested 0\nfirst pass 0\nyield -\nresults 0 pass 0 wiring 0 parts 0 insulation 0 withstand 0\nreleased 0\nscrapped 0\n",
    ),
    ("unit --serial SN1", "", 0, "unit SN1: not enrolled\n"),
    ("run", "adopt A1\n", 0, "OK 1 A1\n"),
    (
        "import",
        "id,serial\nN1,SN1\nN2,SN2\nN3,SN3,,\n",
        0,
        "OK 2 N1\nOK 3 N2\nOK 4 N3\n",
    ),
    (
        "import",
        "N1,SN1\nN4\nN2,SN2",
        0,
        "SAME 2 N1\nNO E01 line 2\nSAME 3 N2\n",
    ),
    ("import", "", 0, ""),
    (
        "run",
        "test S1 SN1\ntest S2 SN1\nrework R1 SN1\ntest S2 SN1\nrelease L1 SN1\ntest T2 SN2\ntest T3 SN3\n",
        0,
        "OK 5 S1 WIRING opens=1 shorts=0 miswires=0\nNO E09 S2\nOK 6 R1\nOK 7 S2 PASS\nOK 8 L1\nOK 9 T2 PASS\nOK 10 T3 PASS\n",
    ),
    (
        "--serial=SN1 unit",
        "",
        0,
        "UNIT SN1\nstatus released\nenrolled record 2 2024-05-01\n\
         test record 5 2024-05-01 attempt 1 WIRING opens=1 shorts=0 miswires=0\n  open B: 3\nrework record 6 2024-05-01\n\
         test record 7 2024-05-01 attempt 2 PASS\nreleased record 8 2024-05-01\n",
    ),
    (
        "report",
        "",
        0,
        "LOT REPORT\npart P1 revision 1\nenrolled 3\ntested 3\nfirst pass 2\nyield 66.7%\n\
         results 4 pass 3 wiring 1 parts 0 insulation 0 withstand 0\nreleased 1\nscrapped 0\n",
    ),
    (
        "export",
        "",
        0,
        "record,date,serial,attempt,verdict,opens,shorts,miswires\n5,2024-05-01,SN1,1,wiring,1,0,0\n\
         7,2024-05-01,SN1,2,pass,0,0,0\n9,2024-05-01,SN2,1,pass,0,0,0\n10,2024-05-01,SN3,1,pass,0,0,0\n",
    ),
    ("serve --port 8080 --count 1", "", 11, "network fault\n"),
    ("soak --size 8", "", 0, "soak 8 good PASS bad PASS\n"),
];

#[test]
fn each_command_answers_on_one_disk(rt: HostRuntime) -> Result<(), Fail> {
    let mut journal = Bytes::new(rt.alloc());
    for (line, input, wanted, answers) in DAY {
        let Came {
            status,
            text,
            end: _end,
            image,
        } = ran(
            rt.alloc(),
            THREE,
            line,
            input,
            journal.as_slice(),
            NONE,
            AS_IT_READS,
        )?;
        assert_eq!(rt; status, wanted, "{line}");
        assert_eq!(rt; text.as_slice(), answers.as_bytes(), "{line}");
        journal = image;
    }
    Ok(())
}

/// A journal that is none, for each command that opens it.
const REFUSED: [&str; 5] = ["run", "import", "report", "export", "unit --serial SN1"];

#[test]
fn a_file_that_is_no_journal_is_refused(rt: HostRuntime) -> Result<(), Fail> {
    let refused = b"journal refused 1 0000000000000000\n".as_slice();
    for line in REFUSED {
        let came = ran(
            rt.alloc(),
            THREE,
            line,
            "N1,SN1\n",
            &[0; 10],
            NONE,
            AS_IT_READS,
        )?;
        assert_eq!(rt; came.status, 5, "{line}");
        assert_eq!(rt; came.text.as_slice(), refused, "{line}");
    }
    Ok(())
}
