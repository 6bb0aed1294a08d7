//! What is wrong with components, and with the insulation of clusters.

ghost use Rattle.std.specs.Prelude.{◌≡◌, ◌++◌, ◌↔◌, IsTrue, OnOk};
ghost use Rattle.records.specs.Orders.{part_faults_before, leak_faults_before};
ghost use Rattle.records.specs.Reading.{Gives, part_fault_at, kind_from, leak_at, leak_from, leak_fault_at};
ghost use Rattle.records.specs.RecordBytes.{part_fault_bytes, kind_bytes, leak_bytes, leak_fault_bytes};
ghost use Rattle.wirelist.specs.Ranges.{PartFaultInRange, LeakFaultInRange, PartFaultBefore, LeakFaultBefore, PartFaultsInRange, LeakFaultsInRange};
ghost use Rattle.wirelist.specs.Ranges.{KindInRange, IsReading};

use crate::DecodeStop;
use crate::item::{Item, are_ordered};
use crate::numbers::{u8_at, u16_at, u64_at};
use crate::points::MOST_POINTS;
use base::{Bytes, Memory};
use std::alloc::Global;
use wirelist::{LeakFault, PartFault, PartFaultKind};

/// Components are numbered below this.
const MOST_PARTS: u32 = 512;

/// Clusters are numbered below this.
const MOST_CLUSTERS: u32 = 256;

/// A list of faults has at most so many.
const MOST_FAULTS: usize = MOST_POINTS as usize;

// How a component is at fault, as a byte.
const LOW: u8 = 0;

const HIGH: u8 = 1;

const OPEN_PART: u8 = 2;

const WRONG_WAY: u8 = 3;

const LEAKY: u8 = 4;

// Whether a leak was an arc, as a byte.
const ARC: u8 = 0;

const CURRENT: u8 = 1;

/// A faulty component: its number, a byte of kind, and the reading.
impl Item for PartFault {
    ghost spelling = { part_fault_bytes };

    ghost reading = { part_fault_at };

    ghost InRange = { PartFaultInRange };

    ghost Before = { PartFaultBefore };

    ghost before_is_transitive = { part_faults_before };

    #[tactic(auto, unfolding(crate::specs::Reading::part_fault_at))]
    fn read(_: Global, bytes: &[u8]) -> Result<(Self, &[u8]), DecodeStop> {
        let (part, rest) = u16_at(bytes)?;
        let (tag, rest) = u8_at(rest)?;
        let (reading, rest) = u64_at(rest)?;
        let kind = kind_from(tag, reading)?;
        let fault = PartFault {
            part: part as u32,
            kind,
        };
        Ok((fault, rest))
    }

    fn write(&self, out: &mut Bytes) -> Result<(), Memory> {
        out.append(&(self.part as u16).to_be_bytes())?;
        write_kind(self.kind, out)
    }

    fn in_range(&self) -> bool {
        kind_fits(self.kind);
        self.part < MOST_PARTS
    }

    fn before(&self, other: &Self) -> bool {
        self.part < other.part
    }
}

/// The reading of a kind has 64 bits, as its type says.
fn kind_fits(kind: PartFaultKind)
    ensures { KindInRange kind }
{
    match kind {
        PartFaultKind::OpenPart => {}
        PartFaultKind::Low(reading)
        | PartFaultKind::High(reading)
        | PartFaultKind::WrongWay(reading)
        | PartFaultKind::Leaky(reading) => reading_fits(reading),
    }
}

/// A reading has 64 bits, as its type says.
pub(crate) fn reading_fits(_reading: u64)
    ensures { IsReading _reading }
{}

/// The kind of a fault by its byte and its reading.
#[tactic(auto, unfolding(crate::specs::Reading::kind_from))]
fn kind_from(tag: u8, reading: u64) -> Result<PartFaultKind, DecodeStop>
    ensures { Gives (λ x. x) result (kind_from (tag, reading)) }
{
    match tag {
        LOW => Ok(PartFaultKind::Low(reading)),
        HIGH => Ok(PartFaultKind::High(reading)),
        OPEN_PART if reading == 0 => Ok(PartFaultKind::OpenPart),
        WRONG_WAY => Ok(PartFaultKind::WrongWay(reading)),
        LEAKY => Ok(PartFaultKind::Leaky(reading)),
        _ => Err(DecodeStop::NotARecord),
    }
}

/// Appends the byte of a kind and its reading.
fn write_kind(kind: PartFaultKind, out: &mut Bytes) -> Result<(), Memory>
    ensures { OnOk result (out.new ≡ out.old ++ kind_bytes kind) }
{
    let (tag, reading): (u8, u64) = match kind {
        PartFaultKind::Low(reading) => (LOW, reading),
        PartFaultKind::High(reading) => (HIGH, reading),
        PartFaultKind::OpenPart => (OPEN_PART, 0),
        PartFaultKind::WrongWay(reading) => (WRONG_WAY, reading),
        PartFaultKind::Leaky(reading) => (LEAKY, reading),
    };
    out.push(tag)?;
    out.append(&reading.to_be_bytes())
}

/// A cluster that leaks: its number, and the reading.
impl Item for LeakFault {
    ghost spelling = { leak_fault_bytes };

    ghost reading = { leak_fault_at };

    ghost InRange = { LeakFaultInRange };

    ghost Before = { LeakFaultBefore };

    ghost before_is_transitive = { leak_faults_before };

    #[tactic(auto, unfolding(crate::specs::Reading::leak_fault_at))]
    fn read(_: Global, bytes: &[u8]) -> Result<(Self, &[u8]), DecodeStop> {
        let (cluster, rest) = u16_at(bytes)?;
        let (reading, rest) = leak_at(rest)?;
        let fault = LeakFault {
            cluster: cluster as u32,
            reading,
        };
        Ok((fault, rest))
    }

    fn write(&self, out: &mut Bytes) -> Result<(), Memory> {
        out.append(&(self.cluster as u16).to_be_bytes())?;
        write_leak(self.reading, out)
    }

    fn in_range(&self) -> bool {
        if let Some(reading) = self.reading {
            reading_fits(reading);
        }
        self.cluster < MOST_CLUSTERS
    }

    fn before(&self, other: &Self) -> bool {
        self.cluster < other.cluster
    }
}

/// The reading of a leak at the front, and what follows it.
#[tactic(auto, unfolding(crate::specs::Reading::leak_at))]
pub(crate) fn leak_at(bytes: &[u8]) -> Result<(Option<u64>, &[u8]), DecodeStop>
    ensures { Gives (λ x. (x.0, x.1.now)) result (leak_at bytes.now) }
{
    let (tag, rest) = u8_at(bytes)?;
    let (reading, rest) = u64_at(rest)?;
    let leak = leak_from(tag, reading)?;
    Ok((leak, rest))
}

/// A reading of a leak by its flag; no reading is an arc.
#[tactic(auto, unfolding(crate::specs::Reading::leak_from))]
fn leak_from(tag: u8, reading: u64) -> Result<Option<u64>, DecodeStop>
    ensures { Gives (λ x. x) result (leak_from (tag, reading)) }
{
    match tag {
        ARC if reading == 0 => Ok(None),
        CURRENT => Ok(Some(reading)),
        _ => Err(DecodeStop::NotARecord),
    }
}

/// Appends the reading of a leak.
pub(crate) fn write_leak(leak: Option<u64>, out: &mut Bytes) -> Result<(), Memory>
    ensures { OnOk result (out.new ≡ out.old ++ leak_bytes leak) }
{
    match leak {
        None => {
            out.push(ARC)?;
            out.append(&0u64.to_be_bytes())
        }
        Some(reading) => {
            out.push(CURRENT)?;
            out.append(&reading.to_be_bytes())
        }
    }
}

/// Whether a list of faulty components is in the ranges of records.
pub(crate) fn are_part_faults(faults: &[PartFault]) -> bool
    ensures { IsTrue result ↔ PartFaultsInRange faults.now }
{
    if faults.is_empty() || faults.len() > MOST_FAULTS {
        return false;
    }
    are_ordered(faults)
}

/// Whether a list of leaking clusters is in the ranges of records.
pub(crate) fn are_leak_faults(faults: &[LeakFault]) -> bool
    ensures { IsTrue result ↔ LeakFaultsInRange faults.now }
{
    if faults.is_empty() || faults.len() > MOST_FAULTS {
        return false;
    }
    are_ordered(faults)
}
