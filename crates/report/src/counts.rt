//! How many serials there are.

ghost use Rattle.std.specs.Prelude.{◌≡◌, ◌++◌, ℕ, List, option_to_list, filter, filter_map, bytes_eq, if◌then◌else◌, false};
ghost use Rattle.std.specs.Prelude.{is_some, option_map, unwrap_or, IfOk, OnOk, OnErr, Some, None};
ghost use Rattle.std.specs.Option.{option_or};
ghost use Rattle.std.specs.Ordering.{nat_cmp};
ghost use Rattle.std.specs.Cmp.Lexicographic.{slice_cmp};
ghost use Rattle.std.specs.BTreeSet.{IsFromIterResult};
ghost use Rattle.serials.specs.NameMaps.{at_name};
ghost use Rattle.serials.specs.Scan.{is_pass};
ghost use Rattle.report.specs.LotText.{different, first_test};
ghost use Rattle.report.specs.Counting.{outcome_by, serial_at, serial_by, serials_counted};

use base::Memory;
use partition::Name;
use records::{Body, StationRecord};
use std::alloc::{AllocError, Global};
use std::collections::{BTreeMap, BTreeSet};
use wirelist::Outcome;

/// How many serials there are of each kind.
#[derive(Clone, Copy, Debug)]
pub(crate) struct SerialCounts {
    /// With an enrolment.
    pub(crate) enrolled: u64,
    /// Of these, with a test.
    pub(crate) tested: u64,
    /// Of these, with a first test that is a pass.
    pub(crate) passed: u64,
    /// With a release.
    pub(crate) released: u64,
    /// With a scrap.
    pub(crate) scrapped: u64,
}

/// What may befall a serial.
#[derive(Clone, Copy, Debug)]
enum Event {
    Enrolment,
    Release,
    Scrap,
}

/// How many serials of the records there are of each kind.
pub(crate) fn count_serials(
    alloc: Global,
    records: &[StationRecord],
) -> Result<SerialCounts, Memory>
    ensures { IfOk result (λ counts. counts ≡ serials_counted records.now) }
{
    let firsts = first_tests(alloc, records)?;
    let enrolled = serials_of(alloc, records, Event::Enrolment)?;
    let tested = tested_of(alloc, enrolled.as_slice(), &firsts)?;
    let passed = passed_of(alloc, enrolled.as_slice(), &firsts)?;
    let released = serials_of(alloc, records, Event::Release)?;
    let scrapped = serials_of(alloc, records, Event::Scrap)?;
    Ok(SerialCounts {
        enrolled: count_different(alloc, enrolled.as_slice())?,
        tested: count_different(alloc, tested.as_slice())?,
        passed: count_different(alloc, passed.as_slice())?,
        released: count_different(alloc, released.as_slice())?,
        scrapped: count_different(alloc, scrapped.as_slice())?,
    })
}

/// The serials of all records of a kind.
fn serials_of(alloc: Global, records: &[StationRecord], event: Event) -> Result<Vec<Name>, Memory>
    ensures { IfOk result (λ names. names.items ≡ filter_map (serial_at event) records.now) }
{
    let mut names = Vec::new(alloc);
    for noted in records {
        keep_serial(&mut names, event, &noted.body)?;
    }
    Ok(names)
}

/// Appends the serial of a record, where it is of the kind.
fn keep_serial(names: &mut Vec<Name>, event: Event, body: &Body) -> Result<(), Memory>
    ensures { OnOk result (names.new.items ≡ names.old.items ++ option_to_list (serial_by event body.now)) }
{
    if let Some(serial) = serial_at(event, body) {
        names.push(serial)?;
    }
    Ok(())
}

/// The serial of a record of a kind.
fn serial_at(event: Event, body: &Body) -> Option<Name>
    ensures { result ≡ serial_by event body.now }
{
    match (event, body) {
        (Event::Enrolment, Body::Enrol(serial)) => Some(*serial),
        (Event::Release, Body::Release(serial)) => Some(*serial),
        (Event::Scrap, Body::Scrap(serial)) => Some(*serial),
        _ => None,
    }
}

/// How many different names there are.
fn count_different(alloc: Global, names: &[Name]) -> Result<u64, Memory>
    ensures { IfOk result (λ count. count ≡ different names.now) }
{
    let set = set_of(alloc, names)?;
    Ok(set.len() as u64)
}

/// The names as a set.
fn set_of(alloc: Global, names: &[Name]) -> Result<BTreeSet<Name>, AllocError>
    ensures { IfOk result (IsFromIterResult (slice_cmp nat_cmp) names.now) }
{
    names.iter().copied().collect(alloc)
}

/// Whether the first test of each serial is a pass, for the serials that have a test.
fn first_tests(alloc: Global, records: &[StationRecord]) -> Result<BTreeMap<Name, bool>, Memory>
    ensures { IfOk result (λ firsts. (serial : List ℕ) → at_name firsts serial ≡ option_map is_pass (first_test records.now serial)) }
{
    let mut firsts = BTreeMap::new(alloc);
    for noted in records {
        note_record(&mut firsts, &noted.body)?;
    }
    Ok(firsts)
}

/// Keeps whether a record's test is a pass, unless an earlier test of the serial is kept, or the record is no test.
fn note_record(firsts: &mut BTreeMap<Name, bool>, body: &Body) -> Result<(), Memory>
    ensures { OnOk result ((q : List ℕ) → at_name firsts.new q ≡ option_or (at_name firsts.old q) (option_map is_pass (outcome_by q body.now))) }
{
    match body {
        Body::Tested {
            serial,
            outcome,
            ..
        } => note_test(firsts, *serial, is_pass(outcome)),
        _ => Ok(()),
    }
}

/// Keeps whether a test is a pass, unless an earlier one of the serial is kept.
fn note_test(firsts: &mut BTreeMap<Name, bool>, serial: Name, passed: bool) -> Result<(), Memory>
    ensures { OnOk result ((q : List ℕ) → at_name firsts.new q ≡ option_or (at_name firsts.old q) (if bytes_eq serial q then Some passed else None)) }
{
    if firsts.contains_key(&serial) {
        return Ok(());
    }
    firsts.insert(serial, passed)?;
    Ok(())
}

/// Whether an outcome is a pass.
fn is_pass(outcome: &Outcome) -> bool
    ensures { result ≡ is_pass outcome.now }
{
    match outcome {
        Outcome::Pass => true,
        _ => false,
    }
}

/// Those of the serials that have a test.
fn tested_of(
    alloc: Global,
    serials: &[Name],
    firsts: &BTreeMap<Name, bool>,
) -> Result<Vec<Name>, AllocError>
    ensures { IfOk result (λ names. names.items ≡ filter (λ q. is_some (at_name firsts.now q)) serials.now) }
{
    serials
        .iter()
        .copied()
        .filter(|serial| firsts.contains_key(serial))
        .collect(alloc)
}

/// Those of the serials whose first test is a pass.
fn passed_of(
    alloc: Global,
    serials: &[Name],
    firsts: &BTreeMap<Name, bool>,
) -> Result<Vec<Name>, AllocError>
    ensures { IfOk result (λ names. names.items ≡ filter (λ q. unwrap_or (at_name firsts.now q) false) serials.now) }
{
    serials
        .iter()
        .copied()
        .filter(|serial| has_passed(firsts, serial))
        .collect(alloc)
}

/// Whether the first test of a serial is a pass.
fn has_passed(firsts: &BTreeMap<Name, bool>, serial: &Name) -> bool
    ensures { result ≡ unwrap_or (at_name firsts.now serial.now) false }
{
    match firsts.get(serial) {
        Some(passed) => *passed,
        None => false,
    }
}
