//! The program of the station.
//!
//! It calls [`bench_cli::bench`] over `harness.sim`, `wirelist.csv` and `station.journal` of the current folder, standard
//! input and output, the system's clock, a socket on 127.0.0.1 and the words that it was given, and ends with the status of that call.
#![tactic(auto)]

use base::{Memory, Text};
use bench_cli::Ended;
use bench_edge::{FileIn, RealClock, StdIn, StdOut};
use disk_edge::FileDisk;
use door_edge::TcpDoor;
use std::process::ExitCode;
use std::{env, io};

/// Want of memory before the call, as within it.
const NO_MEMORY: u8 = 9;

fn main(rt: HostRuntime) -> ExitCode {
    ExitCode::from(status(&rt).unwrap_or(NO_MEMORY))
}

/// Calls the station over the files of the current folder.
fn status(rt: &HostRuntime) -> Result<u8, Memory> {
    let words = words(rt)?;
    let mut harness = FileIn::new(rt, Text::from_text(rt.alloc(), "harness.sim")?);
    let mut wires = FileIn::new(rt, Text::from_text(rt.alloc(), "wirelist.csv")?);
    let mut input = StdIn::new(rt);
    let mut out = StdOut::new(rt);
    let disk = FileDisk::new(rt, Text::from_text(rt.alloc(), "station.journal")?);
    let mut clock = RealClock::new(rt);
    let mut door = TcpDoor::new(rt);
    let Ended {
        status,
        disk: _disk,
        rig: _rig,
    } = bench_cli::bench(
        rt.alloc(),
        words.as_slice(),
        &mut harness,
        &mut wires,
        &mut input,
        &mut out,
        disk,
        &mut clock,
        &mut door,
    );
    Ok(status)
}

/// The words after the program's name; none where one of them is no text, so that they are no command.
fn words(rt: &HostRuntime) -> Result<Vec<String>, Memory> {
    let mut words = match env::args(rt) {
        Ok(words) => words,
        Err(error) if error.kind() == io::ErrorKind::OutOfMemory => return Err(Memory),
        Err(_no_text) => return Ok(Vec::new(rt.alloc())),
    };
    let _program = words.next();
    Ok(words.collect(rt.alloc())?)
}
