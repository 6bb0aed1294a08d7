//! The commands of a script.

ghost use Rattle.std.specs.Prelude.{◌≡◌, ◌∷◌, [], Some, None};
ghost use Rattle.lines.specs.Words.{words_of};
ghost use Rattle.serials.specs.Commands.{read_command, read_alone, read_of_serial, read_with, read_staffed};

use crate::Command;
use crate::date::read_date;
use lines::Words;
use partition::Name;
use records::Staff;

/// The command that a line of a script is, or None where it is no command. The line has no LF and no CR at its end. Takes no
/// memory.
pub fn read_command(line: &[u8]) -> Option<Command>
    ensures { result ≡ read_command line.now }
{
    let mut words = Words::new(line);
    let word = words.next()?;
    let id = Name::read(words.next()?)?;
    let Some(serial) = words.next() else {
        return read_alone(word, id);
    };
    let Some(operator) = words.next() else {
        return read_with(word, id, serial);
    };
    let fixture = words.next()?;
    match words.next() {
        None => read_staffed(word, id, serial, operator, fixture),
        Some(_) => None,
    }
}

/// `adopt ID` and `mark ID`.
fn read_alone(word: &[u8], id: Name) -> Option<Command>
    ensures { result ≡ read_alone word.now id }
{
    if word == b"adopt".as_slice() {
        Some(Command::Adopt { id })
    } else if word == b"mark".as_slice() {
        Some(Command::Mark { id })
    } else {
        None
    }
}

/// `calibrate ID DATE`, and the commands of a serial.
fn read_with(word: &[u8], id: Name, last: &[u8]) -> Option<Command>
    ensures { result ≡ read_with word.now id last.now }
{
    if word == b"calibrate".as_slice() {
        let day = read_date(last)?;
        return Some(Command::Calibrate { id, day });
    }
    let serial = Name::read(last)?;
    read_of_serial(word, id, serial)
}

/// A command of a serial.
fn read_of_serial(word: &[u8], id: Name, serial: Name) -> Option<Command>
    ensures { result ≡ read_of_serial word.now id serial }
{
    if word == b"enrol".as_slice() {
        Some(Command::Enrol { id, serial })
    } else if word == b"test".as_slice() {
        Some(Command::Test {
            id,
            serial,
            staff: None,
        })
    } else if word == b"rework".as_slice() {
        Some(Command::Rework { id, serial })
    } else if word == b"release".as_slice() {
        Some(Command::Release { id, serial })
    } else if word == b"scrap".as_slice() {
        Some(Command::Scrap { id, serial })
    } else {
        None
    }
}

/// `test ID SERIAL OPERATOR FIXTURE`.
fn read_staffed(
    word: &[u8],
    id: Name,
    serial: &[u8],
    operator: &[u8],
    fixture: &[u8],
) -> Option<Command>
    ensures { result ≡ read_staffed word.now id serial.now operator.now fixture.now }
{
    if word != b"test".as_slice() {
        return None;
    }
    let serial = Name::read(serial)?;
    let operator = Name::read(operator)?;
    let fixture = Name::read(fixture)?;
    Some(Command::Test {
        id,
        serial,
        staff: Some(Staff { operator, fixture }),
    })
}
