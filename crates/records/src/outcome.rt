//! The bytes of an outcome: a tag, and what belongs to it.

ghost use Rattle.std.specs.Prelude.{◌≡◌, ◌++◌, ◌↔◌, IsTrue, OnOk};
ghost use Rattle.records.specs.Reading.{Gives, tagged_at, withstand_at, outcome_at};
ghost use Rattle.records.specs.RecordBytes.{outcome_bytes};
ghost use Rattle.wirelist.specs.Ranges.{OutcomeInRange, IsTestVoltage};

use crate::DecodeStop;
use crate::faults::{are_leak_faults, are_part_faults, leak_at, reading_fits, write_leak};
use crate::item::{counted_of, write_counted};
use crate::numbers::{u8_at, u16_at};
use crate::wiring::{difference_of, is_difference, write_difference};
use base::{Bytes, Memory};
use std::alloc::Global;
use wirelist::{LeakFaults, Outcome, PartFaults};

// The first byte of each outcome.
const PASS: u8 = 0;

const WIRING: u8 = 1;

const PARTS: u8 = 2;

const INSULATION: u8 = 3;

const WITHSTAND: u8 = 4;

/// Bits of the numbers of clusters are counted below this.
const MOST_BITS: u8 = 12;

// A voltage is a multiple of the step, from one step to the last voltage.
const STEP_VOLTS: u16 = 50;

const MOST_VOLTS: u16 = 2000;

/// The outcome at the front, whatever its ranges, and what follows it.
#[tactic(auto, unfolding(crate::specs::Reading::outcome_at))]
pub(crate) fn outcome_of(alloc: Global, bytes: &[u8]) -> Result<(Outcome, &[u8]), DecodeStop>
    ensures { Gives (λ x. (x.0, x.1.now)) result (outcome_at bytes.now) }
{
    let (tag, rest) = u8_at(bytes)?;
    tagged_of(alloc, tag, rest)
}

/// What belongs to the tag, and what follows it.
#[tactic(auto, unfolding(crate::specs::Reading::tagged_at))]
fn tagged_of(alloc: Global, tag: u8, bytes: &[u8]) -> Result<(Outcome, &[u8]), DecodeStop>
    ensures { Gives (λ x. (x.0, x.1.now)) result (tagged_at tag bytes.now) }
{
    match tag {
        PASS => Ok((Outcome::Pass, bytes)),
        WIRING => {
            let (difference, rest) = difference_of(alloc, bytes)?;
            Ok((Outcome::Wiring(difference), rest))
        }
        PARTS => {
            let (faults, rest) = counted_of(alloc, bytes)?;
            Ok((Outcome::Parts(PartFaults::from_vec(faults)), rest))
        }
        INSULATION => {
            let (faults, rest) = counted_of(alloc, bytes)?;
            Ok((Outcome::Insulation(LeakFaults::from_vec(faults)), rest))
        }
        WITHSTAND => withstand_of(bytes),
        _ => Err(DecodeStop::NotARecord),
    }
}

/// The failure of a withstand test at the front, and what follows it.
#[tactic(auto, unfolding(crate::specs::Reading::withstand_at))]
fn withstand_of(bytes: &[u8]) -> Result<(Outcome, &[u8]), DecodeStop>
    ensures { Gives (λ x. (x.0, x.1.now)) result (withstand_at bytes.now) }
{
    let (bit, rest) = u8_at(bytes)?;
    let (volts, rest) = u16_at(rest)?;
    let (leak, rest) = leak_at(rest)?;
    Ok((Outcome::Withstand { bit, volts, leak }, rest))
}

/// Appends the spelling of an outcome.
pub(crate) fn write_outcome(outcome: &Outcome, out: &mut Bytes) -> Result<(), Memory>
    requires { OutcomeInRange outcome.now }
    ensures { OnOk result (out.new ≡ out.old ++ outcome_bytes outcome.now) }
{
    match outcome {
        Outcome::Pass => out.push(PASS),
        Outcome::Wiring(difference) => {
            out.push(WIRING)?;
            write_difference(difference, out)
        }
        Outcome::Parts(faults) => {
            out.push(PARTS)?;
            write_counted(faults.as_slice(), out)
        }
        Outcome::Insulation(faults) => {
            out.push(INSULATION)?;
            write_counted(faults.as_slice(), out)
        }
        Outcome::Withstand { bit, volts, leak } => {
            out.push(WITHSTAND)?;
            out.push(*bit)?;
            out.append(&volts.to_be_bytes())?;
            write_leak(*leak, out)
        }
    }
}

/// Whether an outcome is in the ranges of records.
pub(crate) fn is_in_range(outcome: &Outcome) -> bool
    ensures { IsTrue result ↔ OutcomeInRange outcome.now }
{
    match outcome {
        Outcome::Pass => true,
        Outcome::Wiring(difference) => is_difference(difference),
        Outcome::Parts(faults) => are_part_faults(faults.as_slice()),
        Outcome::Insulation(faults) => are_leak_faults(faults.as_slice()),
        Outcome::Withstand { bit, volts, leak } => {
            if let Some(leak) = *leak {
                reading_fits(leak);
            }
            *bit < MOST_BITS && is_test_voltage(*volts)
        }
    }
}

/// Whether a voltage is a multiple of 50 from 50 to 2,000.
fn is_test_voltage(volts: u16) -> bool
    ensures { IsTrue result ↔ IsTestVoltage volts }
{
    if volts < STEP_VOLTS || volts > MOST_VOLTS {
        return false;
    }
    volts % STEP_VOLTS == 0
}
