//! What the records say of one serial.

ghost use Rattle.std.specs.Prelude.{◌≡◌};
ghost use Rattle.serials.specs.Scan.{is_pass};

use records::Body;
use wirelist::Outcome;

/// What the records say of one serial. Records are numbered from 1.
#[derive(Clone, Copy, Debug, PartialEq, Eq)]
pub struct SerialFacts {
    /// The number of its first enrolment.
    pub enrol: Option<u32>,
    /// How many tests it has.
    pub tests: u32,
    /// The number of its last test.
    pub last_test: Option<u32>,
    /// Whether that test is a pass.
    pub last_passed: bool,
    /// Whether a rework stands after that test.
    pub reworked: bool,
    /// Whether it has a release.
    pub released: bool,
    /// Whether it has a scrap.
    pub scrapped: bool,
}

impl SerialFacts {
    ghost use Rattle.std.specs.Prelude.{◌≡◌, ◌+◌, ◌^◌, ◌<◌, ◌&&◌, not, nat_lt};
    ghost use Rattle.serials.specs.FactsAfter.{no_facts, facts_after};

    /// Nothing is said.
    pub(crate) fn none() -> Self
        ensures { result ≡ no_facts }
    {
        SerialFacts {
            enrol: None,
            tests: 0,
            last_test: None,
            last_passed: false,
            reworked: false,
            released: false,
            scrapped: false,
        }
    }

    /// What is said once one more record names the serial, which has this number.
    pub(crate) fn after(self, body: &Body, number: u32) -> Self
        requires { self.tests + 1 < 2 ^ 32 }
        ensures { result ≡ facts_after self body.now number }
    {
        match body {
            Body::Enrol(_) => SerialFacts {
                enrol: self.enrol.or(Some(number)),
                ..self
            },
            Body::Tested { outcome, .. } => SerialFacts {
                tests: self.tests + 1,
                last_test: Some(number),
                last_passed: is_pass(outcome),
                reworked: false,
                ..self
            },
            Body::Rework(_) => SerialFacts {
                reworked: self.reworked || self.last_test.is_some(),
                ..self
            },
            Body::Release(_) => SerialFacts {
                released: true,
                ..self
            },
            Body::Scrap(_) => SerialFacts {
                scrapped: true,
                ..self
            },
            Body::Adopt(_) | Body::Calibrate(_) | Body::Mark => self,
        }
    }

    /// Whether it has a test, the last is no pass, and no rework stands after it.
    pub(crate) fn is_rework_due(&self) -> bool
        ensures { result ≡ (nat_lt 0 self.now.tests && (not self.now.last_passed && not self.now.reworked)) }
    {
        self.tests > 0 && !self.last_passed && !self.reworked
    }
}

/// What the records say of the station. Places in the list count from 0, records from 1.
#[derive(Clone, Copy, Debug)]
pub(crate) struct StationFacts {
    /// The place of the last adoption.
    pub(crate) adopted: Option<usize>,
    /// The day of the last calibration, from 1970-01-01.
    pub(crate) calibrated: Option<u32>,
    /// The number of the first mark.
    pub(crate) marked: Option<u32>,
}

impl StationFacts {
    ghost use Rattle.std.specs.Prelude.{◌≡◌, ◌+◌, ◌^◌, ◌<◌};
    ghost use Rattle.serials.specs.FactsAfter.{no_station_facts, station_after};

    /// Nothing is said.
    pub(crate) fn none() -> Self
        ensures { result ≡ no_station_facts }
    {
        StationFacts {
            adopted: None,
            calibrated: None,
            marked: None,
        }
    }

    /// What is said once one more record stands at this place.
    pub(crate) fn after(self, body: &Body, place: usize) -> Self
        requires { place + 1 < 2 ^ 32 }
        ensures { result ≡ station_after self body.now place }
    {
        match body {
            Body::Adopt(_) => StationFacts {
                adopted: Some(place),
                ..self
            },
            Body::Calibrate(day) => StationFacts {
                calibrated: Some(*day),
                ..self
            },
            Body::Mark => StationFacts {
                marked: self.marked.or(Some(place as u32 + 1)),
                ..self
            },
            _ => self,
        }
    }
}

/// Whether an outcome is a pass.
fn is_pass(outcome: &Outcome) -> bool
    ensures { result ≡ is_pass outcome.now }
{
    match outcome {
        Outcome::Pass => true,
        _ => false,
    }
}
