//! A script on a station over the simulator and a disk in memory.

ghost use Rattle.std.specs.Prelude.{◌≡◌, ◌↔◌, IsTrue, IfOk};
ghost use Rattle.station.specs.AnswerText.{HasDays};
ghost use Rattle.station.specs.Commands.{IsAsked};
ghost use Rattle.wirelist.specs.Programs.{IsProgram};

use base::{Bytes, Counts};
use disk_edge::MemDisk;
use partition::Name;
use rig::Rig;
use rig_sim::SimRig;
use serials::{Command, read_command};
use station::{Answer, MountStop, Station, StepDone, StepStop, answer_line, load};
use std::alloc::Global;
use std::test::Fail;
use wirelist::Program;

/// The clock, on the first of May 2024.
pub const MAY: u64 = 1_714_521_600;

/// The harness whose unit has the program's joins, with further rows above the unit and in it.
pub fn harness(alloc: Global, above: &str, rows: &str) -> Result<String, Fail> {
    Ok(format!(in alloc; "points 5\n{above}unit SN1 1\nwire 0 1\nwire 2 3\n{rows}end\n")?)
}

/// The program of that harness, with further rows.
pub fn wires(alloc: Global, rows: &str) -> Result<String, Fail> {
    Ok(format!(in alloc; "part,P1,1\npoints,5\nnet,A,0,1\nnet,B,2,3\n{rows}")?)
}

/// A disk of these bytes, which fails at these calls.
pub fn disk_of(alloc: Global, bytes: &[u8], failing: &[u64]) -> Result<MemDisk, Fail> {
    Ok(MemDisk::new(
        alloc,
        Bytes::from_slice(alloc, bytes)?,
        Counts::from_slice(alloc, failing)?,
    )?)
}

fn program(alloc: Global, text: &str) -> Result<Program, Fail>
    ensures { IfOk result IsProgram }
{
    match wirelist_reader::read(alloc, text.as_bytes()) {
        Ok(p) => Ok(p),
        Err(_) => Err("no program")?,
    }
}

/// Whether the day of a command has a date.
fn is_asked(c: &Command) -> bool
    ensures { IsTrue result ↔ IsAsked c.now }
{
    match c {
        Command::Calibrate { day, .. } => *day <= 2_932_896,
        _ => true,
    }
}

/// What a script came to: its answers, each with a line feed, how many commands were answered, and the disk.
#[derive(Drop)]
pub struct Came {
    pub said: String,
    pub answered: u64,
    pub disk: MemDisk,
}

/// Why a mounting was refused, in words.
fn refused(alloc: Global, stop: MountStop<MemDisk>) -> Result<Came, Fail> {
    let (said, disk) = match stop {
        MountStop::NotJournal(disk, first) => (
            format!(in alloc; "not a journal {}", first[0])?,
            disk,
        ),
        MountStop::BadEntry(disk, number, place) => (
            format!(in alloc; "cut {number} at {place}")?,
            disk,
        ),
        MountStop::TooLong(disk, len) => (format!(in alloc; "too long {len}")?, disk),
        MountStop::BadRecord(disk, number, place) => (
            format!(in alloc; "no record {number} at {place}")?,
            disk,
        ),
        MountStop::Disk(disk) => (String::from_str(alloc, "disk")?, disk),
        MountStop::Memory(disk) => (String::from_str(alloc, "memory")?, disk),
    };
    Ok(Came {
        said,
        answered: 0,
        disk,
    })
}

/// What is found on a disk: the number of records and the longest read, or why none are.
pub fn loaded(alloc: Global, disk: MemDisk) -> Result<Came, Fail> {
    match load(alloc, disk) {
        Ok(found) => {
            let said = format!(in alloc; "records {}", found.records.len())?;
            Ok(Came {
                said,
                answered: found.records.len() as u64,
                disk: found.journal.into_disk(),
            })
        }
        Err(stop) => refused(alloc, stop),
    }
}

/// Says the line of an answer. False where memory ran out.
fn say(alloc: Global, said: &mut String, answer: &Answer, id: Name) -> bool
    requires { HasDays answer.now }
{
    match answer_line(alloc, answer, id) {
        Ok(line) => said.push_str(line.as_str()).is_ok() && said.push_str("\n").is_ok(),
        Err(_) => false,
    }
}

/// The commands of a script, one after the other, all at one moment.
pub fn run(
    alloc: Global,
    harness: &str,
    wires: &str,
    disk: MemDisk,
    now: u64,
    script: &str,
) -> Result<Came, Fail> {
    let rig = SimRig::read(alloc, harness.as_bytes())?;
    let p = program(alloc, wires)?;
    if rig.points() != p.nets.points() {
        Err("points differ")?;
    }
    let station = match Station::mount(alloc, rig, disk, p) {
        Ok(station) => station,
        Err(stop) => return refused(alloc, stop),
    };
    answers(alloc, station, now, script)
}

fn answers(
    alloc: Global,
    station: Station<SimRig, MemDisk>,
    now: u64,
    script: &str,
) -> Result<Came, Fail> {
    let mut station = station;
    let mut said = String::new(alloc);
    let mut answered = 0u64;
    for line in script.lines() {
        let c = match read_command(line.as_bytes()) {
            Some(c) if is_asked(&c) => c,
            _ => break,
        };
        match station.apply(&c, now) {
            Ok(done) => {
                let StepDone {
                    station: next,
                    answer,
                } = done;
                station = next;
                if !say(alloc, &mut said, &answer, c.id()) {
                    break;
                }
                answered = answered.saturating_add(1);
            }
            Err(StepStop::Disk { rig: _, disk }) => {
                said.push_str("disk fault\n")?;
                return Ok(Came {
                    said,
                    answered,
                    disk,
                });
            }
            Err(StepStop::NotZero { stuck, disk }) => {
                stuck.into_rig();
                said.push_str("source not at zero\n")?;
                return Ok(Came {
                    said,
                    answered,
                    disk,
                });
            }
            Err(StepStop::Memory { rig: _, disk }) => {
                said.push_str("out of memory\n")?;
                return Ok(Came {
                    said,
                    answered,
                    disk,
                });
            }
        }
    }
    let (_, disk) = station.into_parts();
    Ok(Came {
        said,
        answered,
        disk,
    })
}
