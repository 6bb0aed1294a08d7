//! Calls of the rig that fail and readings of the interlock that are open, each in turn, while a unit is tested at high voltage.

use crate::desk::{Files, answered};
use crate::ending::End;
use std::alloc::Global;
use std::process::Abort;
use std::test::Fail;

/// The answers to the unit's tests, made one after another in one run, the status of a run that ends after any of them, and how it
/// leaves the source.
#[derive(Clone, Copy)]
struct Outcome {
    answers: &'static [&'static str],
    status: u8,
    end: End,
}

const PASSES: Outcome = Outcome {
    answers: &["OK 3 S1 PASS\n"],
    status: 0,
    end: End::Zero,
};

/// A call of the test fails.
const FAILS: Outcome = Outcome {
    answers: &["NO E20 S1\n", "OK 3 S1 PASS\n"],
    status: 0,
    end: End::Zero,
};

/// The interlock is open.
const OPENS: Outcome = Outcome {
    answers: &["NO E16 S1\n", "OK 3 S1 PASS\n"],
    status: 0,
    end: End::Zero,
};

/// The source does not go to zero in three calls, and the run ends.
const STICKS: Outcome = Outcome {
    answers: &["NO E21 S1\nsource not at zero\n"],
    status: 10,
    end: End::Stuck,
};

/// The first of four calls is the route of a test, and the others are the seats of the next three.
const UNSEATS: Outcome = Outcome {
    answers: &[
        "NO E20 S1\n",
        "NO E20 S1\n",
        "NO E20 S1\n",
        "NO E20 S1\n",
        "OK 3 S1 PASS\n",
    ],
    status: 0,
    end: End::Zero,
};

/// The kind of the rows above the unit, the first and the last number that the first of these rows has in turn, the numbers left out,
/// how many rows there are, each with the next number, and what comes of it.
type Table = (&'static str, (u64, u64), &'static [u64], u64, Outcome);

const WITHSTOOD: [Table; 10] = [
    ("fault", (1, 25), &[14, 24], 1, FAILS),
    ("fault", (14, 14), &[], 1, PASSES),
    ("fault", (24, 24), &[], 1, PASSES),
    ("fault", (26, 26), &[], 1, PASSES),
    ("fault", (14, 14), &[], 2, PASSES),
    ("fault", (7, 13), &[], 4, STICKS),
    ("fault", (14, 14), &[], 3, STICKS),
    ("fault", (6, 6), &[], 4, UNSEATS),
    ("door", (1, 4), &[], 1, OPENS),
    ("door", (5, 5), &[], 1, PASSES),
];

const INSULATED: [Table; 7] = [
    ("fault", (1, 32), &[13, 22, 31], 1, FAILS),
    ("fault", (13, 13), &[], 1, PASSES),
    ("fault", (22, 22), &[], 1, PASSES),
    ("fault", (31, 31), &[], 1, PASSES),
    ("fault", (33, 33), &[], 1, PASSES),
    ("door", (7, 7), &[], 1, PASSES),
    ("door", (1, 6), &[], 1, OPENS),
];

/// The bytes of a journal that holds the program and the unit, and of one that holds a test that passed too.
const ADDED: usize = 121;

const TESTED: usize = 144;

/// The harness file with so many rows of a kind above its unit, numbered from this number on.
fn harness_of(alloc: Global, kind: &str, first: u64, rows: u64) -> Result<String, Fail> {
    let mut text = String::from_str(alloc, "points 5\n")?;
    for number in first..first.saturating_add(rows) {
        let row = format!(in alloc; "{kind} {number}\n")?;
        text.push_str(row.as_str())?;
    }
    text.push_str("unit SN1 1\nwire 0 1\nwire 2 3\nend\n")?;
    Ok(text)
}

/// A script that tests the unit so often, and its answers.
fn script_of(alloc: Global, answers: &[&str]) -> Result<(String, String), Fail> {
    let mut script = String::from_str(alloc, "adopt A1\nenrol N1 SN1\n")?;
    let mut text = String::from_str(alloc, "OK 1 A1\nOK 2 N1\n")?;
    for answer in answers {
        script.push_str("test S1 SN1\n")?;
        text.push_str(answer)?;
    }
    Ok((script, text))
}

/// Asserts that a run that ends after any of the unit's tests answers them, ends and leaves the source so, and that the journal then
/// has a record of the test that passed alone.
fn each_test_ends(
    rt: &(impl AllocGlobal + Abort),
    files: Files,
    outcome: Outcome,
) -> Result<(), Fail> {
    for tests in 0..outcome.answers.len() {
        let answers = &outcome.answers[..tests + 1];
        let (script, text) = script_of(rt.alloc(), answers)?;
        let came = answered(rt.alloc(), files, script.as_str(), b"")?;
        let harness = files.harness;
        assert_eq!(rt; came.text.as_slice(), text.as_bytes(), "{harness}");
        assert_eq!(rt; came.status, outcome.status, "{harness}");
        assert_eq!(rt; came.end, outcome.end, "{harness}");
        let kept = if text.as_str().ends_with("PASS\n") {
            TESTED
        } else {
            ADDED
        };
        assert_eq!(rt; came.image.len(), kept, "{harness}");
    }
    Ok(())
}

/// Asserts that each row of the tables comes to its outcome, where the wirelist asks for this test at high voltage.
fn each_row_ends(
    rt: &(impl AllocGlobal + Abort),
    test: &str,
    tables: &[Table],
) -> Result<(), Fail> {
    let wires = format!(in rt.alloc(); "part,P1,1\npoints,5\nnet,A,0,1\nnet,B,2,3\n{test}\n")?;
    for (kind, (first, last), left_out, rows, outcome) in tables {
        for number in *first..last.saturating_add(1) {
            if left_out.contains(&number) {
                continue;
            }
            let harness = harness_of(rt.alloc(), kind, number, *rows)?;
            let files = Files {
                harness: harness.as_str(),
                wires: wires.as_str(),
            };
            each_test_ends(rt, files, *outcome)?;
        }
    }
    Ok(())
}

#[test]
fn a_refused_call_of_a_withstand_has_its_answer_and_its_end(rt: HostRuntime) -> Result<(), Fail> {
    each_row_ends(&rt, "withstand,50,1,1000", &WITHSTOOD)
}

#[test]
fn a_refused_call_of_an_insulation_has_its_answer_and_its_end(rt: HostRuntime) -> Result<(), Fail> {
    each_row_ends(&rt, "insulation,50,1,100", &INSULATED)
}
