//! The program's files, disk, clock and door in memory.

use crate::ending::{End, end_of};
use base::{Bytes, Counts};
use bench_cli::{Ended, bench};
use bench_edge::{MemClock, MemSink, MemSource};
use disk_edge::MemDisk;
use door_edge::{ConnList, MemDoor};
use std::alloc::Global;
use std::test::Fail;

/// The two files that a command reads.
#[derive(Clone, Copy)]
pub struct Files<'a> {
    pub harness: &'a str,
    pub wires: &'a str,
}

const WIRES: &str = "part,P1,1\npoints,5\nnet,A,0,1\nnet,B,2,3\n";

/// One unit, SN1, which passes.
pub const ONE: Files<'static> = Files {
    harness: "points 5\nunit SN1 1\nwire 0 1\nwire 2 3\nend\n",
    wires: WIRES,
};

/// A harness of three units: SN1 fails its first test and passes its second, SN2 and SN3 pass.
pub const THREE: Files<'static> = Files {
    harness: "points 5\nunit SN1 1\nwire 0 1\nunit SN1 2\nwire 0 1\nwire 2 3\nunit SN2 1\nwire 0 1\nwire 2 3\nunit SN3 1\nwire 0 1\nwire 2 3\nend\n",
    wires: WIRES,
};

/// The first of May 2024.
const MAY: u64 = 1_714_521_600;

/// Which calls fail, counted from 1; 0: none.
#[derive(Clone, Copy)]
pub struct Failing {
    pub input: u64,
    pub out: u64,
    pub disk: u64,
}

pub const NONE: Failing = Failing {
    input: 0,
    out: 0,
    disk: 0,
};

/// The pick of an image that is the file as it reads.
pub const AS_IT_READS: u8 = 1;

/// All that a command is given but the disk and the door.
#[derive(Drop)]
struct Desk {
    words: Vec<String>,
    harness: MemSource,
    wires: MemSource,
    input: MemSource,
    out: MemSink,
    clock: MemClock,
}

/// What a command came to: its status, what it wrote, how its rig was left, and a file that a crash at its end may leave.
#[derive(Drop)]
pub struct Came {
    pub status: u8,
    pub text: Bytes,
    pub end: End,
    pub image: Bytes,
}

/// A disk of these bytes that fails at this call, counted from 1; 0: at none.
fn disk_of(alloc: Global, bytes: &[u8], failing: u64) -> Result<MemDisk, Fail> {
    let bytes = Bytes::from_slice(alloc, bytes)?;
    let failing = Counts::from_slice(alloc, &[failing])?;
    Ok(MemDisk::new(alloc, bytes, failing)?)
}

fn source_of(alloc: Global, text: &str, failing: u64) -> Result<MemSource, Fail> {
    let bytes = Bytes::from_slice(alloc, text.as_bytes())?;
    Ok(MemSource::new(bytes, Counts::from_slice(alloc, &[failing])?))
}

fn words_of(alloc: Global, line: &str) -> Result<Vec<String>, Fail> {
    let mut words = Vec::new(alloc);
    for word in line.split_whitespace() {
        words.push(String::from_str(alloc, word)?)?;
    }
    Ok(words)
}

fn desk_of(
    alloc: Global,
    files: Files,
    line: &str,
    input: &str,
    failing: Failing,
) -> Result<Desk, Fail> {
    Ok(Desk {
        words: words_of(alloc, line)?,
        harness: source_of(alloc, files.harness, 0)?,
        wires: source_of(alloc, files.wires, 0)?,
        input: source_of(alloc, input, failing.input)?,
        out: MemSink::new(alloc, Counts::from_slice(alloc, &[failing.out])?),
        clock: MemClock::new(Counts::from_slice(alloc, &[MAY])?),
    })
}

/// Does what the words ask, on a disk and at a door.
fn call(alloc: Global, desk: &mut Desk, disk: MemDisk, door: &mut MemDoor) -> (u8, End, MemDisk) {
    let Ended { status, disk, rig } = bench(
        alloc,
        desk.words.as_slice(),
        &mut desk.harness,
        &mut desk.wires,
        &mut desk.input,
        &mut desk.out,
        disk,
        &mut desk.clock,
        door,
    );
    (status, end_of(rig), disk)
}

/// What is left of a call, with the image of this pick.
fn left(
    alloc: Global,
    status: u8,
    end: End,
    disk: MemDisk,
    out: &MemSink,
    pick: u8,
) -> Result<Came, Fail> {
    let image = disk.image(pick)?;
    let text = Bytes::from_slice(alloc, out.bytes())?;
    Ok(Came {
        status,
        text,
        end,
        image,
    })
}

/// Runs a command on a journal of these bytes. No connection waits.
pub fn ran(
    alloc: Global,
    files: Files,
    line: &str,
    input: &str,
    journal: &[u8],
    failing: Failing,
    pick: u8,
) -> Result<Came, Fail> {
    let mut desk = desk_of(alloc, files, line, input, failing)?;
    let disk = disk_of(alloc, journal, failing.disk)?;
    let mut door = MemDoor::new(alloc, ConnList::new(alloc), Counts::new(alloc));
    let (status, end, disk) = call(alloc, &mut desk, disk, &mut door);
    left(alloc, status, end, disk, &desk.out, pick)
}

/// Runs a script on a journal of these bytes, where no call fails.
pub fn answered(alloc: Global, files: Files, script: &str, journal: &[u8]) -> Result<Came, Fail> {
    ran(alloc, files, "run", script, journal, NONE, AS_IT_READS)
}

/// Serves the connections that wait at a door, by a command of these words, on a journal of these bytes.
pub fn served(
    alloc: Global,
    files: Files,
    line: &str,
    journal: &[u8],
    door: &mut MemDoor,
) -> Result<Came, Fail> {
    let mut desk = desk_of(alloc, files, line, "", NONE)?;
    let disk = disk_of(alloc, journal, 0)?;
    let (status, end, disk) = call(alloc, &mut desk, disk, door);
    left(alloc, status, end, disk, &desk.out, AS_IT_READS)
}
