//! Lines of a script, and dates.

use super::day_said;
use lines::{Lines, is_passed_over};
use serials::{Command, read_command};
use std::test::Fail;

#[test]
fn lines_are_read_by_their_words(rt: HostRuntime) -> Result<(), Fail> {
    let script =
        b"# note\n\n\tadopt  A1\t\r\nadopt A2 #\n  #adopt A3\nadopt A4\r\r\nmark M1\nadopt A5\r";
    let mut read: u32 = 0;
    let mut refused: u32 = 0;
    for line in Lines::new(script) {
        if is_passed_over(line) {
            assert!(rt; read_command(line).is_none());
            continue;
        }
        match read_command(line) {
            Some(_) => read = read.saturating_add(1),
            None => refused = refused.saturating_add(1),
        }
    }
    assert_eq!(rt; (read, refused), (3, 2));
    Ok(())
}

fn is_enrolment(c: &Command, of_id: &str, of_serial: &str) -> bool {
    match c {
        Command::Enrol { id, serial } => id.text() == of_id && serial.text() == of_serial,
        _ => false,
    }
}

#[test]
fn a_line_of_two_hundred_bytes_is_read(rt: HostRuntime) -> Result<(), Fail> {
    let mut line = Vec::from_slice(rt.alloc(), b"enrol N1")?;
    for _ in 0..168 {
        line.push(b' ')?;
    }
    line.extend_from_slice(b"A23456789012345678901234")?;
    assert_eq!(rt; line.len(), 200);
    let Some(c) = read_command(line.as_slice()) else {
        return Err("no command")?;
    };
    assert!(rt; is_enrolment(&c, "N1", "A23456789012345678901234"));
    line.push(b'5')?;
    assert!(rt; read_command(line.as_slice()).is_none());
    Ok(())
}

#[test]
fn other_lines_are_no_commands(rt: HostRuntime) -> Result<(), Fail> {
    let lines = [
        "",
        "adopt",
        "adopt -A1",
        "adopt A1 SN1",
        "Adopt A1",
        "enrol N1",
        "enrol N1 SN1 SN2",
        "enrol N1 S.1",
        "test S1 SN1 OP7",
        "test S1 SN1 OP7 FX2 X",
        "test S1 SN1 OP7 -",
        "rework R1 SN1 OP7 FX2",
        "mark M1 M2",
        "calibrate C1",
        "calibrate C1 today",
    ];
    for line in lines {
        assert!(rt; read_command(line.as_bytes()).is_none());
    }
    Ok(())
}

#[test]
fn dates_are_days_of_the_calendar(rt: HostRuntime) -> Result<(), Fail> {
    let days = [
        ("1970-01-01", 0),
        ("1970-12-31", 364),
        ("2000-02-29", 11_016),
        ("2024-02-29", 19_782),
        ("2024-05-01", 19_844),
        ("2024-06-30", 19_904),
        ("9999-12-31", 2_932_896),
    ];
    for (date, day) in days {
        let line = format!(in rt.alloc(); "calibrate C1 {date}")?;
        match read_command(line.as_bytes()) {
            Some(Command::Calibrate { day: read, .. }) => assert_eq!(rt; read, day),
            _ => return Err("no day")?,
        }
        assert_eq!(rt; day_said(rt.alloc(), day)?.as_str(), date);
    }
    let refused = [
        "2024-02-30",
        "2023-02-29",
        "1900-02-29",
        "1969-12-31",
        "10000-01-01",
        "2024-5-01",
        "2024-05-1",
        "2024-13-01",
        "2024-00-10",
        "2024-01-00",
        "2024/01/01",
        "+024-01-01",
    ];
    for date in refused {
        let line = format!(in rt.alloc(); "calibrate C1 {date}")?;
        assert!(rt; read_command(line.as_bytes()).is_none());
    }
    Ok(())
}
