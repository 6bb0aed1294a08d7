//! The lines that answers print.

ghost use Rattle.std.specs.Prelude.{◌≡◌, ◌++◌, ◌≤◌, IfOk, OnOk, decimal};
ghost use Rattle.records.specs.RecordRanges.{last_day};
ghost use Rattle.serials.specs.Dates.{day_text};
ghost use Rattle.station.specs.AnswerText.{HasDays, RuleHasDays, RefusedHasDays};
ghost use Rattle.station.specs.AnswerText.{rule_code, rule_facts, refused_code, refused_facts, word_after, verdict_part, record_line, answer_line};

use crate::{Answer, Refused};
use base::{Memory, Text};
use outcome_lines::{write_decimal, write_verdict};
use partition::Name;
use serials::{Rule, date_text};
use std::alloc::Global;
use wirelist::Verdict;

/// The line of an answer to the command with this id, without its line feed.
#[tactic(auto, unfolding(crate::specs::AnswerText::answer_line))]
pub fn answer_line(alloc: Global, answer: &Answer, id: Name) -> Result<Text, Memory>
    requires { HasDays answer.now }
    ensures { IfOk result (λ text. text ≡ answer_line answer.now id) }
{
    let mut line = Text::new(alloc);
    match answer {
        Answer::Stored { number, verdict } => {
            write_record(alloc, "OK", *number, &id, &mut line)?;
            write_verdict_part(alloc, verdict, &mut line)?;
        }
        Answer::Same { number, verdict } => {
            write_record(alloc, "SAME", *number, &id, &mut line)?;
            write_verdict_part(alloc, verdict, &mut line)?;
        }
        Answer::No(why) => {
            line.push_str("NO")?;
            write_word(refused_code(why), &mut line)?;
            write_word(id.text(), &mut line)?;
            write_refused_facts(alloc, why, &mut line)?;
        }
    }
    Ok(line)
}

// Appends a word, the number of a record and an id.
fn write_record(
    alloc: Global,
    word: &str,
    number: u32,
    id: &Name,
    line: &mut Text,
) -> Result<(), Memory>
    ensures { OnOk result (line.new ≡ line.old ++ record_line word.now number id.now) }
{
    line.push_str(word)?;
    write_number(alloc, number as u64, line)?;
    write_word(id.text(), line)
}

// Appends the verdict, of a test alone.
fn write_verdict_part(
    alloc: Global,
    verdict: &Option<Verdict>,
    line: &mut Text,
) -> Result<(), Memory>
    ensures { OnOk result (line.new ≡ line.old ++ verdict_part verdict.now) }
{
    match verdict {
        Some(verdict) => {
            line.push_str(" ")?;
            write_verdict(alloc, verdict, line)
        }
        None => Ok(()),
    }
}

// Appends a word behind others.
fn write_word(word: &str, line: &mut Text) -> Result<(), Memory>
    ensures { OnOk result (line.new ≡ line.old ++ word_after word.now) }
{
    line.push_str(" ")?;
    line.push_str(word)
}

// Appends a number behind others.
fn write_number(alloc: Global, number: u64, line: &mut Text) -> Result<(), Memory>
    ensures { OnOk result (line.new ≡ line.old ++ word_after (decimal number)) }
{
    line.push_str(" ")?;
    write_decimal(alloc, number, line)
}

// Appends the date of a day behind others.
fn write_day(alloc: Global, day: u32, line: &mut Text) -> Result<(), Memory>
    requires { day ≤ last_day }
    ensures { OnOk result (line.new ≡ line.old ++ word_after (day_text day)) }
{
    let date = date_text(alloc, day)?;
    write_word(date.as_str(), line)
}

// Appends what is printed of a refusal behind the id.
fn write_refused_facts(alloc: Global, why: &Refused, line: &mut Text) -> Result<(), Memory>
    requires { RefusedHasDays why.now }
    ensures { OnOk result (line.new ≡ line.old ++ refused_facts why.now) }
{
    match why {
        Refused::Rule(rule) => write_rule_facts(alloc, rule, line),
        Refused::Charged(volts) => write_number(alloc, *volts as u64, line),
        _ => Ok(()),
    }
}

// Appends what is printed of a rule.
fn write_rule_facts(alloc: Global, rule: &Rule, line: &mut Text) -> Result<(), Memory>
    requires { RuleHasDays rule.now }
    ensures { OnOk result (line.new ≡ line.old ++ rule_facts rule.now) }
{
    match rule {
        Rule::IdTaken(number) => write_number(alloc, *number as u64, line),
        Rule::MarkedAlready(number) => write_number(alloc, *number as u64, line),
        Rule::EnrolledAlready(number) => write_number(alloc, *number as u64, line),
        Rule::AttemptsUsed(attempts) => write_number(alloc, *attempts as u64, line),
        Rule::NotNewer(part, revision) => {
            write_word(part.text(), line)?;
            write_number(alloc, *revision as u64, line)
        }
        Rule::NotLater(day) => write_day(alloc, *day, line),
        Rule::CalibrationOver(last, day) => {
            write_day(alloc, *last, line)?;
            write_day(alloc, *day, line)
        }
        _ => Ok(()),
    }
}

// The number of a refusal.
fn refused_code(why: &Refused) -> &'static str
    ensures { result.now ≡ refused_code why.now }
{
    match why {
        Refused::Rule(rule) => rule_code(rule),
        Refused::Full => "E15",
        Refused::Empty => "E14",
        Refused::Door => "E16",
        Refused::Charged(_) => "E17",
        Refused::RigFault => "E20",
    }
}

// The number of a rule.
fn rule_code(rule: &Rule) -> &'static str
    ensures { result.now ≡ rule_code rule.now }
{
    match rule {
        Rule::IdTaken(_) => "E13",
        Rule::NotNewer(_, _) => "E18",
        Rule::NotLater(_) => "E19",
        Rule::MarkedAlready(_) => "E25",
        Rule::NoWirelist => "E02",
        Rule::Differs => "E03",
        Rule::CalibrationOver(_, _) => "E04",
        Rule::NotMarked => "E24",
        Rule::StaffMissing => "E23",
        Rule::EnrolledAlready(_) => "E22",
        Rule::NotEnrolled => "E05",
        Rule::Released => "E06",
        Rule::Scrapped => "E07",
        Rule::PassedAlready => "E08",
        Rule::ReworkOwed => "E09",
        Rule::AttemptsUsed(_) => "E10",
        Rule::NoReworkDue => "E11",
        Rule::NotPassed => "E12",
    }
}
