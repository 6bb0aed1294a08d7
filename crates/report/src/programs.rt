//! The adopted program.

ghost use Rattle.std.specs.Prelude.{◌≡◌, option_copied};
ghost use Rattle.serials.specs.Scan.{last_program};
ghost use Rattle.report.specs.Programs.{program_after};

use records::{Body, StationRecord};
use wirelist::Program;

/// The program that was adopted last.
pub(crate) fn last_program(records: &[StationRecord]) -> Option<&Program>
    ensures { option_copied result ≡ last_program records.now }
{
    let mut program = None;
    for noted in records {
        program = adopted_after(program, &noted.body);
    }
    program
}

/// The program that is adopted once a record stands behind those that adopted this one.
pub(crate) fn adopted_after<'a>(adopted: Option<&'a Program>, body: &'a Body) -> Option<&'a Program>
    ensures { option_copied result ≡ program_after (option_copied adopted.entry) body.now }
{
    match body {
        Body::Adopt(program) => Some(program),
        _ => adopted,
    }
}
