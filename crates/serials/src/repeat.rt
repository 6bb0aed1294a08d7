//! Whether a record is of a command that comes again.

ghost use Rattle.std.specs.Prelude.{◌≡◌};
ghost use Rattle.serials.specs.Decide.{repeats, same_staff};
ghost use Rattle.serials.specs.SamePrograms.{same_program};

use crate::Command;
use records::{Body, Staff};
use wirelist::Program;

/// Whether the record is of this command, under the program.
pub(crate) fn repeats(body: &Body, c: &Command, p: &Program) -> bool
    ensures { result ≡ repeats body.now c.now p.now }
{
    match (body, c) {
        (Body::Adopt(adopted), Command::Adopt { .. }) => are_same(adopted, p),
        (Body::Enrol(kept), Command::Enrol { serial, .. }) => kept == serial,
        (Body::Calibrate(kept), Command::Calibrate { day, .. }) => kept == day,
        (
            Body::Tested {
                serial: kept,
                staff: by,
                ..
            },
            Command::Test { serial, staff, .. },
        ) => kept == serial && is_same_staff(by, staff),
        (Body::Rework(kept), Command::Rework { serial, .. }) => kept == serial,
        (Body::Release(kept), Command::Release { serial, .. }) => kept == serial,
        (Body::Scrap(kept), Command::Scrap { serial, .. }) => kept == serial,
        (Body::Mark, Command::Mark { .. }) => true,
        _ => false,
    }
}

/// Whether both name nobody, or the same operator and fixture.
fn is_same_staff(kept: &Option<Staff>, staff: &Option<Staff>) -> bool
    ensures { result ≡ same_staff kept.now staff.now }
{
    match (kept, staff) {
        (None, None) => true,
        (Some(a), Some(b)) => a.operator == b.operator && a.fixture == b.fixture,
        _ => false,
    }
}

/// Whether two programs are equal in all parts.
pub(crate) fn are_same(adopted: &Program, p: &Program) -> bool
    ensures { result ≡ same_program adopted.now p.now }
{
    adopted.equal(p)
}
