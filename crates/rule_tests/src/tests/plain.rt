//! The decision by a scan of the plain list: slow, and the reference for the book.

use partition::Name;
use records::{Body, Staff, StationRecord};
use serials::{Command, Decision, Rule};
use wirelist::{Outcome, Program};

/// What the records say, of the station and of one serial.
#[derive(Drop)]
struct Said<'a> {
    adopted: Option<&'a Program>,
    calibrated: Option<u32>,
    marked: Option<u32>,
    enrolled: Option<u32>,
    tests: u32,
    passed: bool,
    reworked: bool,
    released: bool,
    scrapped: bool,
}

fn scan<'a>(records: &'a [StationRecord], of: Option<Name>) -> Said<'a> {
    let mut said = Said {
        adopted: None,
        calibrated: None,
        marked: None,
        enrolled: None,
        tests: 0,
        passed: false,
        reworked: false,
        released: false,
        scrapped: false,
    };
    let mut number: u32 = 0;
    for record in records {
        number = number.saturating_add(1);
        match &record.body {
            Body::Adopt(program) => said.adopted = Some(program),
            Body::Calibrate(day) => said.calibrated = Some(*day),
            Body::Mark if said.marked.is_none() => said.marked = Some(number),
            Body::Mark => {}
            Body::Enrol(serial) if Some(*serial) == of && said.enrolled.is_none() => {
                said.enrolled = Some(number)
            }
            Body::Tested {
                serial,
                outcome,
                ..
            } if Some(*serial) == of => {
                said.tests = said.tests.saturating_add(1);
                said.passed = matches!(outcome, Outcome::Pass);
                said.reworked = false;
            }
            Body::Rework(serial) if Some(*serial) == of => said.reworked = true,
            Body::Release(serial) if Some(*serial) == of => said.released = true,
            Body::Scrap(serial) if Some(*serial) == of => said.scrapped = true,
            _ => {}
        }
    }
    said
}

/// The decision.
pub(super) fn decide(records: &[StationRecord], c: &Command, moment: u64, p: &Program) -> Decision {
    let mut number: u32 = 0;
    for record in records {
        number = number.saturating_add(1);
        if record.id == c.id() {
            return match is_again(&record.body, c, p) {
                true => Decision::Same(number),
                false => Decision::No(Rule::IdTaken(number)),
            };
        }
    }
    let said = scan(records, serial_of(c));
    match rule(&said, c, moment, p) {
        Some(rule) => Decision::No(rule),
        None => match c {
            Command::Test { .. } => Decision::Test {
                attempt: u8::try_from(said.tests.saturating_add(1)).unwrap_or(0),
            },
            _ => Decision::Keep,
        },
    }
}

fn serial_of(c: &Command) -> Option<Name> {
    match c {
        Command::Enrol { serial, .. }
        | Command::Rework { serial, .. }
        | Command::Release { serial, .. }
        | Command::Scrap { serial, .. } => Some(*serial),
        Command::Test { serial, .. } => Some(*serial),
        _ => None,
    }
}

fn is_again(body: &Body, c: &Command, p: &Program) -> bool {
    match c {
        Command::Adopt { .. } => matches!(body, Body::Adopt(kept) if kept.equal(p)),
        Command::Enrol { serial, .. } => matches!(body, Body::Enrol(kept) if kept == serial),
        Command::Calibrate { day, .. } => matches!(body, Body::Calibrate(kept) if kept == day),
        Command::Mark { .. } => matches!(body, Body::Mark),
        Command::Test { serial, staff, .. } => match body {
            Body::Tested {
                serial: kept,
                staff: by,
                ..
            } => kept == serial && names(by) == names(staff),
            _ => false,
        },
        Command::Rework { serial, .. } => matches!(body, Body::Rework(kept) if kept == serial),
        Command::Release { serial, .. } => matches!(body, Body::Release(kept) if kept == serial),
        Command::Scrap { serial, .. } => matches!(body, Body::Scrap(kept) if kept == serial),
    }
}

fn names(staff: &Option<Staff>) -> Option<(Name, Name)> {
    match staff {
        Some(staff) => Some((staff.operator, staff.fixture)),
        None => None,
    }
}

fn rule(said: &Said, c: &Command, moment: u64, p: &Program) -> Option<Rule> {
    match c {
        Command::Adopt { .. } => match said.adopted {
            Some(q) if q.part != p.part || q.revision >= p.revision => {
                Some(Rule::NotNewer(q.part, q.revision))
            }
            _ => None,
        },
        Command::Calibrate { day, .. } => match said.calibrated {
            Some(last) if last >= *day => Some(Rule::NotLater(last)),
            _ => None,
        },
        Command::Mark { .. } => said.marked.map(Rule::MarkedAlready),
        Command::Enrol { .. } => match said.adopted {
            None => Some(Rule::NoWirelist),
            Some(_) => said.enrolled.map(Rule::EnrolledAlready),
        },
        Command::Test { staff, .. } => match rule_of_station(said, staff, moment, p) {
            Some(rule) => Some(rule),
            None => rule_of_test(said, p),
        },
        Command::Rework { .. } => match rule_of_unit(said) {
            Some(rule) => Some(rule),
            None if said.tests == 0 || said.passed || said.reworked => Some(Rule::NoReworkDue),
            None => None,
        },
        Command::Release { .. } => match rule_of_unit(said) {
            Some(rule) => Some(rule),
            None if said.tests == 0 || !said.passed => Some(Rule::NotPassed),
            None => None,
        },
        Command::Scrap { .. } => rule_of_unit(said),
    }
}

fn rule_of_station(said: &Said, staff: &Option<Staff>, moment: u64, p: &Program) -> Option<Rule> {
    let Some(adopted) = said.adopted else {
        return Some(Rule::NoWirelist);
    };
    if !adopted.equal(p) {
        return Some(Rule::Differs);
    }
    let today = u32::try_from(moment / 86_400).unwrap_or(u32::MAX);
    match said.calibrated {
        Some(last) if last < today => return Some(Rule::CalibrationOver(last, today)),
        _ => {}
    }
    match (said.marked, staff) {
        (None, Some(_)) => Some(Rule::NotMarked),
        (Some(_), None) => Some(Rule::StaffMissing),
        _ => None,
    }
}

fn rule_of_unit(said: &Said) -> Option<Rule> {
    if said.enrolled.is_none() {
        Some(Rule::NotEnrolled)
    } else if said.released {
        Some(Rule::Released)
    } else if said.scrapped {
        Some(Rule::Scrapped)
    } else {
        None
    }
}

fn rule_of_test(said: &Said, p: &Program) -> Option<Rule> {
    if let Some(rule) = rule_of_unit(said) {
        return Some(rule);
    }
    if said.tests > 0 && said.passed {
        Some(Rule::PassedAlready)
    } else if said.tests > 0 && !said.reworked {
        Some(Rule::ReworkOwed)
    } else if said.tests >= u32::from(p.attempts) {
        Some(Rule::AttemptsUsed(p.attempts))
    } else {
        None
    }
}
