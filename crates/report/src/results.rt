//! How many tests there are of each verdict.

ghost use Rattle.std.specs.Prelude.{◌≡◌, ◌<◌, ◌≤◌, ◌+◌, ◌^◌, length};
ghost use Rattle.report.specs.LotText.{results};
ghost use Rattle.report.specs.Counting.{counted, counted_after, total_of};

use records::{Body, StationRecord};
use wirelist::Outcome;

/// How many tests there are of each verdict.
#[derive(Clone, Copy, Debug)]
pub(crate) struct Results {
    pub(crate) pass: u64,
    pub(crate) wiring: u64,
    pub(crate) parts: u64,
    pub(crate) insulation: u64,
    pub(crate) withstand: u64,
}

impl Results {
    ghost use Rattle.report.specs.Few.{AreFew};
    ghost use Rattle.report.specs.Counting.{counted_with};

    /// How many tests there are.
    pub(crate) fn total(&self) -> u64
        requires { AreFew self.now.pass self.now.wiring self.now.parts self.now.insulation self.now.withstand }
        ensures { result ≡ total_of self.now }
    {
        self.pass + self.wiring + self.parts + self.insulation + self.withstand
    }

    /// With the test of a record, where it is one.
    fn after_record(self, body: &Body) -> Self
        requires { AreFew self.pass self.wiring self.parts self.insulation self.withstand }
        ensures { result ≡ counted_with self body.now }
    {
        match body {
            Body::Tested { outcome, .. } => self.after(outcome),
            _ => self,
        }
    }

    /// With one test more.
    fn after(self, outcome: &Outcome) -> Self
        requires { AreFew self.pass self.wiring self.parts self.insulation self.withstand }
        ensures { result ≡ counted_after self outcome.now }
    {
        match outcome {
            Outcome::Pass => Results {
                pass: self.pass + 1,
                ..self
            },
            Outcome::Wiring(_) => Results {
                wiring: self.wiring + 1,
                ..self
            },
            Outcome::Parts(_) => Results {
                parts: self.parts + 1,
                ..self
            },
            Outcome::Insulation(_) => Results {
                insulation: self.insulation + 1,
                ..self
            },
            Outcome::Withstand { .. } => Results {
                withstand: self.withstand + 1,
                ..self
            },
        }
    }
}

/// How many tests of the records there are of each verdict.
pub(crate) fn count_results(records: &[StationRecord]) -> Results
    requires { length records.now < 2 ^ 32 }
    ensures counted { result ≡ counted (results records.now) }
    ensures few { total_of result ≤ length records.now }
{
    let mut found = Results {
        pass: 0,
        wiring: 0,
        parts: 0,
        insulation: 0,
        withstand: 0,
    };
    for noted in records {
        found = found.after_record(&noted.body);
    }
    found
}
