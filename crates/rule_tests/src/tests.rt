//! Days of a station: what the book decides of each line, and that a scan of the plain list decides the same.

ghost use Rattle.std.specs.Prelude.{◌≤◌};
ghost use Rattle.records.specs.RecordRanges.{last_moment};

mod hostile;
mod plain;
mod script;

use base::Text;
use difference::{Difference, Pieces, Shorts};
use partition::{Name, NetLists, Nets};
use records::{Body, RecordList, StationRecord};
use serials::{Book, Command, Decision, Rule, date_text, read_command};
use std::alloc::Global;
use std::test::Fail;
use wirelist::{Diodes, Names, Outcome, Program, Resistors};

/// 2024-05-01, at noon of no time zone in particular.
const MAY_FIRST: u64 = 1_714_521_600;

/// 2024-07-01.
const JULY_FIRST: u64 = 1_719_792_000;

fn name(bytes: &[u8]) -> Result<Name, Fail> {
    match Name::read(bytes) {
        Some(name) => Ok(name),
        None => Err("no name")?,
    }
}

/// A program of part P1 with no nets of more than a point, and three attempts.
fn program(alloc: Global, revision: u32) -> Result<Program, Fail> {
    let nets = match Nets::new(alloc, 5, NetLists::new(alloc)) {
        Ok(nets) => nets,
        Err(_) => return Err("no nets")?,
    };
    Ok(Program {
        part: name(b"P1")?,
        revision,
        nets,
        names: Names::new(alloc),
        resistors: Resistors::new(alloc),
        diodes: Diodes::new(alloc),
        insulation: None,
        withstand: None,
        attempts: 3,
    })
}

/// A unit that is wired otherwise, in no list.
fn failed(alloc: Global) -> Outcome {
    Outcome::Wiring(Difference {
        opens: Pieces::from_vec(Vec::new(alloc)),
        shorts: Shorts::from_vec(Vec::new(alloc)),
        miswires: Pieces::from_vec(Vec::new(alloc)),
    })
}

fn day_said(alloc: Global, day: u32) -> Result<Text, Fail> {
    if day > 2_932_896 {
        return Err("no day")?;
    }
    Ok(date_text(alloc, day)?)
}

fn rule_said(alloc: Global, rule: &Rule) -> Result<String, Fail> {
    Ok(match rule {
        Rule::IdTaken(number) => format!(in alloc; "E13 {number}")?,
        Rule::NotNewer(part, revision) => format!(in alloc; "E18 {} {revision}", part.text())?,
        Rule::NotLater(day) => format!(in alloc; "E19 {}", day_said(alloc, *day)?.as_str())?,
        Rule::MarkedAlready(number) => format!(in alloc; "E25 {number}")?,
        Rule::NoWirelist => format!(in alloc; "E02")?,
        Rule::Differs => format!(in alloc; "E03")?,
        Rule::CalibrationOver(last, today) => format!(in alloc;
            "E04 {} {}",
            day_said(alloc, *last)?.as_str(),
            day_said(alloc, *today)?.as_str()
        )?,
        Rule::NotMarked => format!(in alloc; "E24")?,
        Rule::StaffMissing => format!(in alloc; "E23")?,
        Rule::EnrolledAlready(number) => format!(in alloc; "E22 {number}")?,
        Rule::NotEnrolled => format!(in alloc; "E05")?,
        Rule::Released => format!(in alloc; "E06")?,
        Rule::Scrapped => format!(in alloc; "E07")?,
        Rule::PassedAlready => format!(in alloc; "E08")?,
        Rule::ReworkOwed => format!(in alloc; "E09")?,
        Rule::AttemptsUsed(attempts) => format!(in alloc; "E10 {attempts}")?,
        Rule::NoReworkDue => format!(in alloc; "E11")?,
        Rule::NotPassed => format!(in alloc; "E12")?,
    })
}

fn said(alloc: Global, decision: &Decision) -> Result<String, Fail> {
    match decision {
        Decision::Keep => Ok(format!(in alloc; "keep")?),
        Decision::Test { attempt } => Ok(format!(in alloc; "test {attempt}")?),
        Decision::Same(number) => Ok(format!(in alloc; "same {number}")?),
        Decision::No(rule) => rule_said(alloc, rule),
    }
}

/// Whether the book and a scan of its list decide a command alike.
fn is_alike(alloc: Global, book: &Book, c: &Command, moment: u64, p: &Program) -> Result<bool, Fail>
    requires { moment ≤ last_moment }
{
    let decided = said(alloc, &book.decide(c, moment, p))?;
    let scanned = plain::decide(book.records().as_slice(), c, moment, p);
    Ok(decided.as_str() == said(alloc, &scanned)?.as_str())
}

fn add(book: &mut Book, id: Name, moment: u64, body: Body) -> Result<(), Fail> {
    if book.records().len() > 1_000_000 {
        return Err("too many records")?;
    }
    book.add(StationRecord { id, moment, body })?;
    Ok(())
}

/// Keeps the record of a command that no rule is against.
fn keep(
    alloc: Global,
    book: &mut Book,
    c: &Command,
    attempt: u8,
    passes: bool,
    revision: u32,
) -> Result<(), Fail> {
    let body = match c {
        Command::Adopt { .. } => Body::Adopt(program(alloc, revision)?),
        Command::Enrol { serial, .. } => Body::Enrol(*serial),
        Command::Calibrate { day, .. } => Body::Calibrate(*day),
        Command::Mark { .. } => Body::Mark,
        Command::Test { serial, staff, .. } => Body::Tested {
            serial: *serial,
            attempt,
            staff: *staff,
            outcome: if passes { Outcome::Pass } else { failed(alloc) },
        },
        Command::Rework { serial, .. } => Body::Rework(*serial),
        Command::Release { serial, .. } => Body::Release(*serial),
        Command::Scrap { serial, .. } => Body::Scrap(*serial),
    };
    add(book, c.id(), MAY_FIRST, body)
}

/// What is decided of each line, with a bar between. A test whose line ends with `!` finds a fault.
fn day(
    alloc: Global,
    book: &mut Book,
    moment: u64,
    revision: u32,
    lines: &[&str],
) -> Result<Text, Fail>
    requires { moment ≤ last_moment }
{
    let p = program(alloc, revision)?;
    let mut text = Text::new(alloc);
    for line in lines {
        let bytes = line.as_bytes();
        let (bytes, passes) = match bytes.split_last() {
            Some((b'!', front)) => (front, false),
            _ => (bytes, true),
        };
        text.push_str("|")?;
        let Some(c) = read_command(bytes) else {
            text.push_str("E01")?;
            continue;
        };
        if !is_alike(alloc, book, &c, moment, &p)? {
            return Err("the scan decides otherwise")?;
        }
        let decision = book.decide(&c, moment, &p);
        text.push_str(said(alloc, &decision)?.as_str())?;
        match decision {
            Decision::Keep => keep(alloc, book, &c, 0, true, revision)?,
            Decision::Test { attempt } => keep(alloc, book, &c, attempt, passes, revision)?,
            _ => {}
        }
    }
    Ok(text)
}

fn empty_book(alloc: Global) -> Result<Book, Fail> {
    Ok(Book::of(alloc, RecordList::new(alloc))?)
}

/// A unit that fails, is reworked, passes and is released.
const ONE_UNIT: [&str; 9] = [
    "adopt A1",
    "enrol N1 SN1",
    "test S1 SN1!",
    "test S2 SN1",
    "rework R1 SN1",
    "test S2 SN1",
    "test S3 SN1",
    "release L1 SN1",
    "scrap X1 SN1",
];

#[test]
fn a_unit_is_reworked_until_its_attempts_are_used(rt: HostRuntime) -> Result<(), Fail> {
    let mut book = empty_book(rt.alloc())?;
    let first = day(rt.alloc(), &mut book, MAY_FIRST, 1, &ONE_UNIT)?;
    assert_eq!(rt;
        first.as_str(),
        "|keep|keep|test 1|E09|keep|test 2|E08|keep|E06"
    );
    let second = day(
        rt.alloc(),
        &mut book,
        MAY_FIRST,
        1,
        &[
            "enrol N2 SN2",
            "test T1 SN2!",
            "rework R2 SN2",
            "test T2 SN2!",
            "rework R3 SN2",
            "test T3 SN2!",
            "test T4 SN2",
            "rework R4 SN2",
            "test T4 SN2",
        ],
    )?;
    assert_eq!(rt;
        second.as_str(),
        "|keep|test 1|keep|test 2|keep|test 3|E09|keep|E10 3"
    );
    assert_eq!(rt; book.records().len(), 13);
    Ok(())
}

#[test]
fn the_facts_of_a_unit_and_the_number_of_an_id(rt: HostRuntime) -> Result<(), Fail> {
    let mut book = empty_book(rt.alloc())?;
    day(rt.alloc(), &mut book, MAY_FIRST, 1, &ONE_UNIT)?;
    let Some(facts) = book.facts(name(b"SN1")?) else {
        return Err("no facts")?;
    };
    assert_eq!(rt; facts.enrol, Some(2));
    assert_eq!(rt; facts.tests, 2);
    assert_eq!(rt; facts.last_test, Some(5));
    assert!(rt; facts.last_passed && !facts.reworked && facts.released && !facts.scrapped);
    assert!(rt; book.facts(name(b"SN2")?).is_none());
    assert_eq!(rt; book.by_id(name(b"S3")?), None);
    assert_eq!(rt; book.by_id(name(b"S2")?), Some(5));
    Ok(())
}

#[test]
fn a_calibration_is_over_after_its_day(rt: HostRuntime) -> Result<(), Fail> {
    let mut book = empty_book(rt.alloc())?;
    let lines = ["calibrate C1 2024-06-30", "calibrate C2 2024-06-30"];
    let said = day(rt.alloc(), &mut book, MAY_FIRST, 1, &lines)?;
    assert_eq!(rt; said.as_str(), "|keep|E19 2024-06-30");
    let lines = ["adopt A1", "enrol N1 SN1", "test S9 SN1"];
    let said = day(rt.alloc(), &mut book, JULY_FIRST, 1, &lines)?;
    assert_eq!(rt; said.as_str(), "|keep|keep|E04 2024-06-30 2024-07-01");
    let said = day(rt.alloc(), &mut book, JULY_FIRST - 1, 1, &["test S9 SN1"])?;
    assert_eq!(rt; said.as_str(), "|test 1");
    Ok(())
}

#[test]
fn each_rule_refuses_in_its_place(rt: HostRuntime) -> Result<(), Fail> {
    let mut book = empty_book(rt.alloc())?;
    let said = day(
        rt.alloc(),
        &mut book,
        MAY_FIRST,
        1,
        &[
            "enrol N1 SN1",
            "adopt A1",
            "adopt A2",
            "enrol N1 SN1",
            "enrol N2 SN1",
            "test S1 SN7",
            "release L1 SN1",
            "rework R1 SN1",
            "scrap X1 SN1",
            "test S1 SN1",
            "tset S1 SN1",
        ],
    )?;
    assert_eq!(rt;
        said.as_str(),
        "|E02|keep|E18 P1 1|keep|E22 2|E05|E12|E11|keep|E07|E01"
    );
    let said = day(
        rt.alloc(),
        &mut book,
        MAY_FIRST,
        2,
        &["test S2 SN1", "adopt A1", "adopt A2"],
    )?;
    assert_eq!(rt; said.as_str(), "|E03|E13 1|keep");
    Ok(())
}

#[test]
fn a_command_that_comes_again_is_the_same(rt: HostRuntime) -> Result<(), Fail> {
    let mut book = empty_book(rt.alloc())?;
    let lines = [
        "adopt A1",
        "enrol N1 SN1",
        "test S1 SN1",
        "test S1 SN1",
        "test S1 SN2",
    ];
    let said = day(rt.alloc(), &mut book, MAY_FIRST, 1, &lines)?;
    assert_eq!(rt; said.as_str(), "|keep|keep|test 1|same 3|E13 3");
    let lines = [
        "mark M1",
        "test S1 SN1",
        "mark M1",
        "adopt A1",
        "enrol N1 SN1",
        "rework S1 SN1",
    ];
    let said = day(rt.alloc(), &mut book, MAY_FIRST, 1, &lines)?;
    assert_eq!(rt; said.as_str(), "|keep|same 3|same 4|same 1|same 2|E13 3");
    Ok(())
}

#[test]
fn after_a_mark_a_test_names_who_made_it(rt: HostRuntime) -> Result<(), Fail> {
    let mut book = empty_book(rt.alloc())?;
    let said = day(
        rt.alloc(),
        &mut book,
        MAY_FIRST,
        1,
        &[
            "adopt A1",
            "enrol N1 SN1",
            "test S0 SN1 OP7 FX2",
            "mark M1",
            "mark M2",
            "test S1 SN1",
            "test S1 SN1 OP7 FX2",
            "test S1 SN1 OP7 FX2",
            "test S1 SN1 OP8 FX2",
            "test S1 SN1",
        ],
    )?;
    assert_eq!(rt;
        said.as_str(),
        "|keep|keep|E24|keep|E25 3|E23|test 1|same 4|E13 4|E13 4"
    );
    Ok(())
}

#[test]
fn a_rework_of_another_unit_settles_nothing(rt: HostRuntime) -> Result<(), Fail> {
    let mut book = empty_book(rt.alloc())?;
    let said = day(
        rt.alloc(),
        &mut book,
        MAY_FIRST,
        1,
        &[
            "adopt A1",
            "enrol N1 SN1",
            "enrol N2 SN2",
            "test S1 SN1!",
            "test T1 SN2!",
            "rework R2 SN2",
            "test S2 SN1",
            "test T2 SN2",
        ],
    )?;
    assert_eq!(rt;
        said.as_str(),
        "|keep|keep|keep|test 1|test 1|keep|E09|test 2"
    );
    Ok(())
}

#[test]
fn twenty_thousand_units_are_decided_at_once(rt: HostRuntime) -> Result<(), Fail> {
    let mut book = empty_book(rt.alloc())?;
    day(rt.alloc(), &mut book, MAY_FIRST, 1, &["adopt A1"])?;
    let p = program(rt.alloc(), 1)?;
    for i in 1..=20_000u32 {
        let line = format!(in rt.alloc(); "enrol N{i} SN{i}")?;
        let Some(c) = read_command(line.as_bytes()) else {
            return Err("no command")?;
        };
        assert!(rt; matches!(book.decide(&c, MAY_FIRST, &p), Decision::Keep));
        keep(rt.alloc(), &mut book, &c, 0, true, 1)?;
    }
    for i in 1..=20_000u32 {
        let line = format!(in rt.alloc(); "enrol N{i} SN{i}")?;
        let Some(c) = read_command(line.as_bytes()) else {
            return Err("no command")?;
        };
        match book.decide(&c, MAY_FIRST, &p) {
            Decision::Same(number) => assert_eq!(rt; number, i.saturating_add(1)),
            _ => return Err("another decision")?,
        }
    }
    Ok(())
}
