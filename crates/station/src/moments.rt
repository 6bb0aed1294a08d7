//! The moment of the next record, and what the records say of one.

ghost use Rattle.std.specs.Prelude.{◌≡◌, ◌≤◌, length};
ghost use Rattle.records.specs.RecordRanges.{IsBody, last_moment};
ghost use Rattle.ledger.specs.Kept.{AreRecords};
ghost use Rattle.station.specs.Step.{moment_at, verdict_in, verdict_at};

use records::{Body, StationRecord};
use wirelist::Verdict;

/// The last moment of a record, the last second of 9999-12-31.
const LAST_MOMENT: u64 = 253_402_300_799;

/// The moment of the next record: the clock's, but not before the last record's.
pub fn next_moment(records: &[StationRecord], now: u64) -> u64
    requires { AreRecords records.now }
    ensures moment { result ≡ moment_at records.now now }
    ensures bound { result ≤ last_moment }
{
    let last = match records.last() {
        Some(r) => r.moment,
        None => 0,
    };
    last.max(now.min(LAST_MOMENT))
}

/// The verdict that a record keeps, of a test alone.
pub fn verdict_in(body: &Body) -> Option<Verdict>
    requires { IsBody body.now }
    ensures { result ≡ verdict_in body.now }
{
    match body {
        Body::Tested { outcome, .. } => Some(outcome.verdict()),
        _ => None,
    }
}

/// The verdict of the record with this number.
pub fn verdict_of(records: &[StationRecord], number: u32) -> Option<Verdict>
    requires in_range { AreRecords records.now }
    requires from_one { 1 ≤ number }
    requires within { number ≤ length records.now }
    ensures { result ≡ verdict_at records.now number }
{
    verdict_in(&records[number as usize - 1].body)
}
