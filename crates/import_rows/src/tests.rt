//! Rows of an import, and what they ask.

use crate::{ImportStop, read_import};
use base::Text;
use serials::Command;
use std::alloc::Global;
use std::test::Fail;

/// The number of each record and its command, or why there are none.
fn told(alloc: Global, bytes: &[u8]) -> Result<Text, Fail> {
    let asked = match read_import(alloc, bytes) {
        Ok(asked) => asked,
        Err(ImportStop::TooLong) => return Ok(Text::from_text(alloc, "too long")?),
        Err(ImportStop::Memory) => return Err("out of memory")?,
    };
    let mut text = Text::new(alloc);
    for (number, command) in asked.as_slice() {
        text.push_str(format!(in alloc; "{number}")?.as_str())?;
        match command {
            Some(enrolment) => match enrolment.command() {
                Command::Enrol { id, serial } => {
                    text.push_str(format!(in alloc; " {} {}", id.text(), serial.text())?.as_str())?
                }
                _ => text.push_str(" another command")?,
            },
            None => text.push_str(" none")?,
        }
        text.push_str("\n")?;
    }
    Ok(text)
}

#[test]
fn rows_enrol(rt: HostRuntime) -> Result<(), Fail> {
    let alloc = rt.alloc();
    assert_eq!(rt;
        told(alloc, b"id,serial\nN1,SN1\nN2,SN2\nN3,SN3,,\n")?.as_str(),
        "2 N1 SN1\n3 N2 SN2\n4 N3 SN3\n"
    );
    assert_eq!(rt; told(alloc, b"")?.as_str(), "");
    assert_eq!(rt; told(alloc, b"N4\n")?.as_str(), "1 none\n");
    assert_eq!(rt;
        told(alloc, b"N1,SN1\nid,serial\n,,\nN2,,SN2\n\n-a,SN3\n")?.as_str(),
        "1 N1 SN1\n2 id serial\n4 none\n5 none\n"
    );
    assert_eq!(rt;
        told(alloc, b"N4, SN4\n\"N5\",SN5")?.as_str(),
        "1 none\n2 N5 SN5\n"
    );
    assert_eq!(rt;
        told(alloc, b"\xef\xbb\xbfid,serial,\r\nN1,SN1\r\n")?.as_str(),
        "2 N1 SN1\n"
    );
    Ok(())
}

#[test]
fn too_many_records_ask_nothing(rt: HostRuntime) -> Result<(), Fail> {
    let alloc = rt.alloc();
    let mut bytes = Vec::new(alloc);
    for _ in 0..100_000 {
        bytes.extend_from_slice(b",\n")?;
    }
    assert_eq!(rt; told(alloc, bytes.as_slice())?.as_str(), "");
    bytes.extend_from_slice(b",\n")?;
    assert_eq!(rt; told(alloc, bytes.as_slice())?.as_str(), "too long");
    Ok(())
}

#[test]
fn too_many_bytes_ask_nothing(rt: HostRuntime) -> Result<(), Fail> {
    let alloc = rt.alloc();
    let mut bytes = Vec::new(alloc);
    for _ in 0..524_288 {
        bytes.extend_from_slice(b"a,0123456789abc\n")?;
    }
    bytes.extend_from_slice(b"a")?;
    assert_eq!(rt; told(alloc, bytes.as_slice())?.as_str(), "too long");
    Ok(())
}
