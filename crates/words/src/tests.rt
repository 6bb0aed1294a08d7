//! The words that are a command, and some that are none.

use crate::{Command, read_words};
use std::test::Fail;

fn read(rt: &impl AllocGlobal, line: &str) -> Result<Option<Command>, Fail> {
    let mut words = Vec::new(rt.alloc());
    for word in line.split_whitespace() {
        words.push(String::from_str(rt.alloc(), word)?)?;
    }
    Ok(read_words(rt.alloc(), words.as_slice())?)
}

#[test]
fn options_stand_in_any_place(rt: HostRuntime) -> Result<(), Fail> {
    for line in [
        "continuity --serial SN1 --attempt 1",
        "--serial=SN1 continuity --attempt 1",
        "--attempt=1 --serial SN1 continuity",
    ] {
        assert!(rt; asks_for_sn1(read(&rt, line)?), "{line}");
    }
    assert!(rt; matches!(read(&rt, "soak --size=4096")?, Some(Command::Soak(4096))));
    assert!(rt; matches!(read(&rt, "run")?, Some(Command::Run)));
    Ok(())
}

#[test]
fn each_command_has_its_options(rt: HostRuntime) -> Result<(), Fail> {
    assert!(rt; matches!(read(&rt, "import")?, Some(Command::Import)));
    assert!(rt; matches!(read(&rt, "report")?, Some(Command::Report)));
    assert!(rt; matches!(read(&rt, "export")?, Some(Command::Export)));
    assert!(rt; matches!(read(&rt, "--serial SN1 unit")?, Some(Command::Unit(_))));
    assert!(rt; asks_to_serve(read(&rt, "serve --port 1 --count=1000000")?, 1, 1_000_000));
    assert!(rt; asks_to_serve(read(&rt, "--count 1 serve --port=65535")?, 65_535, 1));
    Ok(())
}

/// Whether the command is to serve so many connections at this port.
fn asks_to_serve(command: Option<Command>, port: u16, count: u32) -> bool {
    match command {
        Some(Command::Serve(service)) => service.port == port && service.count == count,
        _ => false,
    }
}

/// Whether the command is the check of the first attempt of SN1.
fn asks_for_sn1(command: Option<Command>) -> bool {
    match command {
        Some(Command::Continuity(unit)) => unit.serial.text() == "SN1" && unit.attempt == 1,
        _ => false,
    }
}

#[test]
fn other_words_are_no_command(rt: HostRuntime) -> Result<(), Fail> {
    for line in [
        "",
        "--help",
        "learn",
        "learn learn --serial SN1 --attempt 1",
        "learn --serial SN1 --attempt 1 --",
        "learn --serial SN1 --attempt 0",
        "learn --serial SN1 --attempt 01",
        "learn --serial SN1 --attempt 10",
        "learn --serial SN1 --serial SN1 --attempt 1",
        "learn --serial SN1 --attempt 1 --port 3",
        "learn --serial -a --attempt 1",
        "learn --serial= --attempt 1",
        "learn --attempt 1 --serial",
        "rnu",
        "run run",
        "run --size 4",
        "import --serial SN1",
        "report report",
        "export --size 4",
        "unit",
        "unit --serial -a",
        "unit --serial SN1 --attempt 1",
        "serve --port 1",
        "serve --port 0 --count 1",
        "serve --port 65536 --count 1",
        "serve --port 1 --count 0",
        "serve --port 1 --count 1000001",
        "serve --port 1 --count 1 --port 2",
        "soak --size 3",
        "soak --size 4097",
    ] {
        assert!(rt; read(&rt, line)?.is_none(), "{line}");
    }
    Ok(())
}
