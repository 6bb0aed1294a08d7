//! The dates of records.

ghost use Rattle.std.specs.Prelude.{◌≡◌, ◌++◌, ◌≤◌, IfOk};
ghost use Rattle.records.specs.RecordRanges.{last_moment};
ghost use Rattle.report.specs.UnitText.{record_date};

use base::{Memory, Text};
use records::StationRecord;
use serials::date_text;
use std::alloc::Global;

/// The seconds of a day.
const DAY_SECONDS: u64 = 86_400;

/// The date of a record.
pub(crate) fn date_of(alloc: Global, noted: &StationRecord) -> Result<Text, Memory>
    requires { noted.now.moment ≤ last_moment }
    ensures { IfOk result (λ text. text ≡ record_date noted.now) }
{
    date_text(alloc, (noted.moment / DAY_SECONDS) as u32)
}
