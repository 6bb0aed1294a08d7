//! The decision: the record with the command's id, and else the rules in their order.

ghost use Rattle.std.specs.Prelude.{◌≡◌, not};
ghost use Rattle.std.specs.Option.{option_or};
ghost use Rattle.serials.specs.declared.decision.Rule.TheVariants as rule;
ghost use Rattle.serials.specs.Decide.{when};
ghost use Rattle.serials.specs.RuleParts.{rework_due, unit_rule, test_rule};

use crate::repeat::{are_same, repeats};
use crate::{Book, Command, Decision, Rule, SerialFacts};
use partition::Name;
use records::Staff;
use wirelist::Program;

/// The seconds of a day.
const DAY_SECONDS: u64 = 86_400;

impl Book {
    ghost use Rattle.std.specs.Prelude.{◌≤◌, ◌<◌, ℕ, List, Option, length};
    ghost use Rattle.records.specs.RecordRanges.{last_moment};
    ghost use Rattle.records.specs.declared.record.Staff.{Staff};
    ghost use Rattle.serials.specs.declared.command.Command.TheVariants as command;
    ghost use Rattle.serials.specs.Decide.{again, allowed, decide, table, first_rule};
    ghost use Rattle.serials.specs.Decide.{not_newer, not_later, no_wirelist, enrolled_already, calibration_over, not_marked, staff_missing};
    ghost use Rattle.serials.specs.RuleParts.{testing_rule, IsFewTests};
    ghost use Rattle.serials.specs.Decided.{IsDecided};

    /// What is to be done with a command at a moment, in seconds from the beginning of 1970, under the program that the
    /// station was started with. Takes no memory.
    pub fn decide(&self, c: &Command, moment: u64, p: &Program) -> Decision
        requires { moment ≤ last_moment }
        ensures by_the_rules { result ≡ decide self.now c.now moment p.now }
        ensures decided { IsDecided self.now c.now p.now result }
    {
        if let Some(number) = self.by_id(c.id()) {
            return self.again(number, c, p);
        }
        match self.rule_against(c, moment, p) {
            Some(rule) => Decision::No(rule),
            None => self.allowed(c, p.attempts),
        }
    }

    /// What is to be done where the record with this number has the command's id.
    fn again(&self, number: u32, c: &Command, p: &Program) -> Decision
        requires { 1 ≤ number }
        ensures { result ≡ again self.now number c.now p.now }
    {
        match self.records().get(number as usize - 1) {
            Some(first) if repeats(&first.body, c, p) => Decision::Same(number),
            _ => Decision::No(Rule::IdTaken(number)),
        }
    }

    /// What is to be done where no rule is against it, and a test has so many attempts.
    fn allowed(&self, c: &Command, attempts: u8) -> Decision
        requires { IsFewTests self.now c.now attempts }
        ensures { result ≡ allowed self.now c.now }
    {
        match c {
            Command::Test { serial, .. } => Decision::Test {
                attempt: self.history(serial).tests as u8 + 1,
            },
            _ => Decision::Keep,
        }
    }

    /// The first rule that is against a command.
    fn rule_against(&self, c: &Command, moment: u64, p: &Program) -> Option<Rule>
        requires { moment ≤ last_moment }
        ensures { result ≡ first_rule (table self.now c.now moment p.now) }
    {
        match c {
            Command::Adopt { .. } => self.not_newer(p),
            Command::Calibrate { day, .. } => self.not_later(*day),
            Command::Mark { .. } => self.first_mark().map(Rule::MarkedAlready),
            Command::Enrol { serial, .. } => self.against_enrolment(serial),
            Command::Test { serial, staff, .. } => match self.against_testing(staff, moment, p) {
                Some(rule) => Some(rule),
                None => against_test(&self.history(serial), p.attempts),
            },
            Command::Rework { serial, .. } => against_rework(&self.history(serial)),
            Command::Release { serial, .. } => against_release(&self.history(serial)),
            Command::Scrap { serial, .. } => against_unit(&self.history(serial)),
        }
    }

    /// Whether the program is no newer revision of the adopted one's part.
    fn not_newer(&self, p: &Program) -> Option<Rule>
        ensures { (id : List ℕ) → result ≡ not_newer self.now p.now (command.Adopt id) }
    {
        let adopted = self.last_program()?;
        if adopted.part == p.part && adopted.revision < p.revision {
            return None;
        }
        Some(Rule::NotNewer(adopted.part, adopted.revision))
    }

    /// Whether the last calibration is not before this day.
    fn not_later(&self, day: u32) -> Option<Rule>
        ensures { (id : List ℕ) → result ≡ not_later self.now (command.Calibrate id day) }
    {
        let last = self.last_calibration()?;
        if last < day {
            return None;
        }
        Some(Rule::NotLater(last))
    }

    /// The first rule against enrolling a serial.
    fn against_enrolment(&self, serial: &Name) -> Option<Rule>
        ensures { (id : List ℕ) → let c = command.Enrol id serial.now in result ≡ option_or (no_wirelist self.now c) (enrolled_already self.now c) }
    {
        if self.last_program().is_none() {
            return Some(Rule::NoWirelist);
        }
        self.history(serial).enrol.map(Rule::EnrolledAlready)
    }

    /// The first rule against testing any unit, by what holds for the station.
    fn against_testing(&self, staff: &Option<Staff>, moment: u64, p: &Program) -> Option<Rule>
        requires { moment ≤ last_moment }
        ensures { result ≡ testing_rule self.now staff.now moment p.now }
    {
        let Some(adopted) = self.last_program() else {
            return Some(Rule::NoWirelist);
        };
        if !are_same(adopted, p) {
            return Some(Rule::Differs);
        }
        if let Some(rule) = self.calibration_over(moment) {
            return Some(rule);
        }
        self.against_staff(staff)
    }

    /// Whether the last calibration is before the day of the moment.
    fn calibration_over(&self, moment: u64) -> Option<Rule>
        requires { moment ≤ last_moment }
        ensures { (id serial : List ℕ) (staff : Option Staff) → result ≡ calibration_over self.now moment (command.Test id serial staff) }
    {
        let last = self.last_calibration()?;
        let today = (moment / DAY_SECONDS) as u32;
        if last < today {
            return Some(Rule::CalibrationOver(last, today));
        }
        None
    }

    /// Whether a test names who makes it exactly where there is no mark.
    fn against_staff(&self, staff: &Option<Staff>) -> Option<Rule>
        ensures { (id serial : List ℕ) → let c = command.Test id serial staff.now in result ≡ option_or (not_marked self.now c) (staff_missing self.now c) }
    {
        match (self.first_mark(), staff) {
            (None, Some(_)) => Some(Rule::NotMarked),
            (Some(_), None) => Some(Rule::StaffMissing),
            _ => None,
        }
    }
}

/// The first rule against a unit that is tested, reworked, released or scrapped.
fn against_unit(facts: &SerialFacts) -> Option<Rule>
    ensures { result ≡ unit_rule facts.now }
{
    if facts.enrol.is_none() {
        return Some(Rule::NotEnrolled);
    }
    if facts.released {
        return Some(Rule::Released);
    }
    if facts.scrapped {
        return Some(Rule::Scrapped);
    }
    None
}

/// The first rule against testing a unit.
fn against_test(facts: &SerialFacts, attempts: u8) -> Option<Rule>
    ensures { result ≡ option_or (unit_rule facts.now) (test_rule facts.now attempts) }
{
    if let Some(rule) = against_unit(facts) {
        return Some(rule);
    }
    if facts.last_passed {
        return Some(Rule::PassedAlready);
    }
    if facts.is_rework_due() {
        return Some(Rule::ReworkOwed);
    }
    if facts.tests >= attempts as u32 {
        return Some(Rule::AttemptsUsed(attempts));
    }
    None
}

/// The first rule against reworking a unit.
fn against_rework(facts: &SerialFacts) -> Option<Rule>
    ensures { result ≡ option_or (unit_rule facts.now) (when (not (rework_due facts.now)) rule.NoReworkDue) }
{
    if let Some(rule) = against_unit(facts) {
        return Some(rule);
    }
    if facts.is_rework_due() {
        return None;
    }
    Some(Rule::NoReworkDue)
}

/// The first rule against releasing a unit.
fn against_release(facts: &SerialFacts) -> Option<Rule>
    ensures { result ≡ option_or (unit_rule facts.now) (when (not facts.now.last_passed) rule.NotPassed) }
{
    if let Some(rule) = against_unit(facts) {
        return Some(rule);
    }
    if facts.last_passed {
        return None;
    }
    Some(Rule::NotPassed)
}
