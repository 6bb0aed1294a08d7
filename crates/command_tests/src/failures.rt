//! A disk, an input and an output that fail at each of their calls in turn.

use crate::desk::{AS_IT_READS, Came, Failing, NONE, ONE, answered, ran};
use std::alloc::Global;
use std::test::Fail;

/// Three lines that store a record each, and two that store none.
const SCRIPT: &str = "adopt A1\nenrol N1 SN1\ntest S1 SN1\ntest S1 SN1\ntest S1 SN2\n";

/// The answers to the script's first lines.
const ANSWERS: [&str; 6] = [
    "",
    "OK 1 A1\n",
    "OK 1 A1\nOK 2 N1\n",
    "OK 1 A1\nOK 2 N1\nOK 3 S1 PASS\n",
    "OK 1 A1\nOK 2 N1\nOK 3 S1 PASS\nSAME 3 S1 PASS\n",
    "OK 1 A1\nOK 2 N1\nOK 3 S1 PASS\nSAME 3 S1 PASS\nNO E13 S1 3\n",
];

/// The lines that store a record each.
const STORING: &str = "adopt A1\nenrol N1 SN1\ntest S1 SN1\n";

/// What they answer where so many of the records are there.
const AGAIN: [&str; 4] = [
    "OK 1 A1\nOK 2 N1\nOK 3 S1 PASS\n",
    "SAME 1 A1\nOK 2 N1\nOK 3 S1 PASS\n",
    "SAME 1 A1\nSAME 2 N1\nOK 3 S1 PASS\n",
    "SAME 1 A1\nSAME 2 N1\nSAME 3 S1 PASS\n",
];

/// The journal of the three records.
const RECORDS: &[u8] = b"WHTSJRN1\
        \x01\0\0\0\x42\x01\0\0\0\0\x66\x31\x86\0\x02A1\0\0\0\x32part,P1,1\npoints,5\nnet,A,0,1\nnet,B,2,3\nattempts,3\n\
        \x01\0\0\0\x10\x02\0\0\0\0\x66\x31\x86\0\x02N1\x03SN1\
        \x01\0\0\0\x12\x04\0\0\0\0\x66\x31\x86\0\x02S1\x03SN1\x01\0\0";

/// The calls of the disk: mounting, and three records.
const CALLS: u64 = 18;

/// The writes of the output: one for each answer.
const WRITES: u64 = 5;

/// How many lines were answered whole before this last line; none where anything else was printed.
fn said(came: &Came, last: &str) -> Option<usize> {
    let text = came.text.as_slice();
    for (number, lines) in ANSWERS.iter().enumerate() {
        if text.len() == lines.len() + last.len()
            && text.starts_with(lines.as_bytes())
            && text.ends_with(last.as_bytes())
        {
            return Some(number);
        }
    }
    None
}

/// How many of the records a journal has, as the storing lines find them, which then leave all three; none where they do not.
fn found(alloc: Global, journal: &[u8]) -> Result<Option<usize>, Fail> {
    let again = answered(alloc, ONE, STORING, journal)?;
    let is_whole = again.status == 0 && again.image.as_slice() == RECORDS;
    for (number, lines) in AGAIN.iter().enumerate() {
        if is_whole && again.text.as_slice() == lines.as_bytes() {
            return Ok(Some(number));
        }
    }
    Ok(None)
}

/// What a run on an empty disk came to whose call fails: its status, the lines that were answered, and the records in the journal.
#[derive(Clone, Copy)]
struct Stopped {
    status: u8,
    lines: Option<usize>,
    records: Option<usize>,
}

/// Runs a script that ends with this last line, and takes the journal of this pick.
fn stop_of(
    alloc: Global,
    script: &str,
    failing: Failing,
    last: &str,
    pick: u8,
) -> Result<Stopped, Fail> {
    let came = ran(alloc, ONE, "run", script, b"", failing, pick)?;
    Ok(Stopped {
        status: came.status,
        lines: said(&came, last),
        records: found(alloc, came.image.as_slice())?,
    })
}

/// Whether the journal has the records of the lines that were answered, and of so many more at most.
fn follows(stopped: &Stopped, more: usize) -> bool {
    match (stopped.lines, stopped.records) {
        (Some(lines), Some(records)) => {
            records >= lines.min(3) && records <= lines.saturating_add(more).min(3)
        }
        _ => false,
    }
}

#[test]
fn a_disk_that_fails_leaves_what_was_answered_or_one_more(rt: HostRuntime) -> Result<(), Fail> {
    for call in 1..CALLS + 1 {
        for pick in 0..4u8 {
            let failing = Failing { disk: call, ..NONE };
            let came = stop_of(rt.alloc(), STORING, failing, "disk fault\n", pick)?;
            assert_eq!(rt; came.status, 8, "{call}");
            assert!(rt; follows(&came, 1), "{call} {pick}");
        }
    }
    Ok(())
}

#[test]
fn no_more_calls_of_the_disk_are_made(rt: HostRuntime) -> Result<(), Fail> {
    let failing = Failing {
        disk: CALLS + 1,
        ..NONE
    };
    let came = ran(rt.alloc(), ONE, "run", STORING, b"", failing, AS_IT_READS)?;
    assert_eq!(rt; came.status, 0);
    assert_eq!(rt; came.text.as_slice(), ANSWERS[3].as_bytes());
    assert_eq!(rt; came.image.as_slice(), RECORDS);
    Ok(())
}

#[test]
fn an_output_that_fails_leaves_what_was_written_or_one_more(rt: HostRuntime) -> Result<(), Fail> {
    for call in 1..WRITES + 2 {
        for pick in 0..4u8 {
            let failing = Failing { out: call, ..NONE };
            let came = stop_of(rt.alloc(), SCRIPT, failing, "", pick)?;
            let status = if call > WRITES { 0 } else { 7 };
            assert_eq!(rt; came.status, status, "{call}");
            assert!(rt; follows(&came, 1), "{call} {pick}");
        }
    }
    Ok(())
}

/// The script with comments of 256 bytes, as many as one read takes, above each line.
fn space_out(alloc: Global) -> Result<String, Fail> {
    let comment = "# a note of an operator, which the station passes over as it is\n";
    let mut text = String::new(alloc);
    for line in SCRIPT.lines() {
        let more = format!(in alloc; "{comment}{comment}{comment}{comment}{line}\n")?;
        text.push_str(more.as_str())?;
    }
    Ok(text)
}

#[test]
fn an_input_that_fails_leaves_what_was_answered(rt: HostRuntime) -> Result<(), Fail> {
    let spaced = space_out(rt.alloc())?;
    for (script, reads) in [(SCRIPT, 2u64), (spaced.as_str(), 7)] {
        for call in 1..reads.saturating_add(2) {
            let failing = Failing {
                input: call,
                ..NONE
            };
            let (status, last) = if call > reads {
                (0, "")
            } else {
                (6, "read fault\n")
            };
            for pick in 0..4u8 {
                let came = stop_of(rt.alloc(), script, failing, last, pick)?;
                assert_eq!(rt; came.status, status, "{call} of {reads}");
                assert!(rt; follows(&came, 0), "{call} of {reads}, {pick}");
            }
        }
    }
    Ok(())
}

#[test]
fn an_import_whose_input_fails_ends_with_6(rt: HostRuntime) -> Result<(), Fail> {
    let failing = Failing { input: 1, ..NONE };
    let came = ran(rt.alloc(), ONE, "import", "", b"", failing, AS_IT_READS)?;
    assert_eq!(rt; came.status, 6);
    assert_eq!(rt; came.text.as_slice(), b"read fault\n".as_slice());
    Ok(())
}
