//! The record of a command.

ghost use Rattle.std.specs.Prelude.{◌≡◌, ◌≤◌, IfOk, IfSome};
ghost use Rattle.partition.specs.Names.{IsName};
ghost use Rattle.wirelist.specs.Programs.{IsProgram};
ghost use Rattle.wirelist.specs.declared.outcome.Outcome.TheVariants.{Pass};
ghost use Rattle.records.specs.RecordRanges.{IsRecord, IsStaff, last_moment};
ghost use Rattle.serials.specs.Decided.{IsNoTest};
ghost use Rattle.station.specs.Step.{record_of};
ghost use Rattle.station.specs.Commands.{IsAsked};

use base::Memory;
use partition::Name;
use records::{Body, Staff, StationRecord};
use serials::Command;
use std::alloc::Global;
use wirelist::Program;

/// The record of a command that is kept.
pub fn record_for(
    alloc: Global,
    p: &Program,
    moment: u64,
    c: &Command,
) -> Result<StationRecord, Memory>
    requires program { IsProgram p.now }
    requires moment { moment ≤ last_moment }
    requires asked { IsAsked c.now }
    requires no_test { IsNoTest c.now }
    ensures record { IfOk result (λ r. r ≡ record_of p.now moment 0 Pass c.now) }
    ensures in_range { IfOk result IsRecord }
{
    let id = named(&c.id());
    let body = match c {
        Command::Adopt { .. } => Body::Adopt(p.copy(alloc)?),
        Command::Enrol { serial, .. } => Body::Enrol(named(serial)),
        Command::Calibrate { day, .. } => Body::Calibrate(*day),
        Command::Mark { .. } => Body::Mark,
        Command::Test { .. } => unreachable!(),
        Command::Rework { serial, .. } => Body::Rework(named(serial)),
        Command::Release { serial, .. } => Body::Release(named(serial)),
        Command::Scrap { serial, .. } => Body::Scrap(named(serial)),
    };
    Ok(StationRecord { id, moment, body })
}

/// A name, which is in range.
pub fn named(name: &Name) -> Name
    ensures same { result ≡ name.now }
    ensures name { IsName result }
{
    let _bytes = name.bytes();
    *name
}

/// Who makes a test and where, if that is named, in range.
pub fn named_staff(staff: &Option<Staff>) -> Option<Staff>
    ensures same { result ≡ staff.now }
    ensures in_range { IfSome result IsStaff }
{
    match staff {
        Some(staff) => Some(Staff {
            operator: named(&staff.operator),
            fixture: named(&staff.fixture),
        }),
        None => None,
    }
}
