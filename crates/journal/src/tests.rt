//! Files typed byte by byte, a disk that fails at each call, many entries, and a file of the system.

use crate::{AppendStop, Journal, OpenStop};
use base::{Bytes, Counts, Memory, Text};
use disk_edge::{FileDisk, MemDisk};
use std::alloc::Global;
use std::test::Fail;
use std::{env, fs};

// What a mounting answered.
#[derive(Clone, Copy, Debug, PartialEq, Eq)]
enum Answer {
    Holds(u32),
    NotJournal([u8; 8]),
    BadEntry(u32, u64),
    TooLong(u64),
    Disk,
    Memory,
}

// The answer of a mounting, and the disk that it hands back.
fn mounted(alloc: Global, disk: MemDisk) -> (Answer, MemDisk) {
    match Journal::mount(alloc, disk) {
        Ok(journal) => (Answer::Holds(journal.count()), journal.into_disk()),
        Err(OpenStop::NotJournal(disk, first)) => (Answer::NotJournal(first), disk),
        Err(OpenStop::BadEntry(disk, number, place)) => (Answer::BadEntry(number, place), disk),
        Err(OpenStop::TooLong(disk, len)) => (Answer::TooLong(len), disk),
        Err(OpenStop::Disk(disk)) => (Answer::Disk, disk),
        Err(OpenStop::Memory(disk)) => (Answer::Memory, disk),
    }
}

// The disk after a mounting and an append of three bytes, wherever they stop.
fn appended(alloc: Global, disk: MemDisk) -> MemDisk {
    let journal = match Journal::mount(alloc, disk) {
        Ok(journal) => journal,
        Err(OpenStop::NotJournal(disk, _)) => return disk,
        Err(OpenStop::BadEntry(disk, _, _)) => return disk,
        Err(OpenStop::TooLong(disk, _)) => return disk,
        Err(OpenStop::Disk(disk)) => return disk,
        Err(OpenStop::Memory(disk)) => return disk,
    };
    match journal.append(b"abc") {
        Ok(journal) => journal.into_disk(),
        Err(AppendStop::Full(journal)) => journal.into_disk(),
        Err(AppendStop::Memory(journal)) => journal.into_disk(),
        Err(AppendStop::Disk(disk)) => disk,
        Err(AppendStop::DiskMemory(disk)) => disk,
    }
}

// A disk of these bytes that does not fail.
fn disk_of(alloc: Global, file: &[u8]) -> Result<MemDisk, Memory> {
    MemDisk::new(alloc, Bytes::from_slice(alloc, file)?, Counts::new(alloc))
}

#[test]
fn a_file_is_mounted_or_refused_by_what_it_holds(rt: HostRuntime) -> Result<(), Fail> {
    let whole = b"WHTSJRN1\x01\0\0\0\x03abc\0".as_slice();
    let cut_behind = b"WHTSJRN1\x01\0\0\0\x03abc\x01\0\0".as_slice();
    let half_open = b"WHTSJRN1\x37\0\0\0\x03abc\0".as_slice();
    let rows = [
        (b"".as_slice(), Answer::Holds(0), b"WHTSJRN1\0".as_slice()),
        (
            b"WHTSJRN1\x01".as_slice(),
            Answer::Holds(0),
            b"WHTSJRN1\0".as_slice(),
        ),
        (&[0; 10], Answer::NotJournal([0; 8]), &[0; 10]),
        (
            b"WHTSJRN1\x01\xff\xff\xff\xff".as_slice(),
            Answer::BadEntry(1, 8),
            b"WHTSJRN1\x01\xff\xff\xff\xff".as_slice(),
        ),
        (whole, Answer::Holds(1), whole),
        (&whole[..16], Answer::Holds(1), whole),
        (&whole[..15], Answer::BadEntry(1, 8), &whole[..15]),
        (
            half_open,
            Answer::Holds(0),
            b"WHTSJRN1\0\0\0\0\x03abc\0".as_slice(),
        ),
        (cut_behind, Answer::BadEntry(2, 16), cut_behind),
    ];
    for (file, answer, after) in rows {
        let (given, disk) = mounted(rt.alloc(), disk_of(rt.alloc(), file)?);
        assert_eq!(rt; given, answer, "{file:?}");
        assert_eq!(rt; disk.bytes(), after, "{file:?}");
    }
    Ok(())
}

#[test]
fn a_file_one_byte_too_long_is_refused(rt: HostRuntime) -> Result<(), Fail> {
    let mut zeros = Bytes::from_slice(rt.alloc(), &[0])?;
    let mebibyte = vec![in rt.alloc(); 0; 1_048_576]?;
    for _ in 0..256 {
        zeros.append(&mebibyte)?;
    }
    let disk = MemDisk::new(rt.alloc(), zeros, Counts::new(rt.alloc()))?;
    let (given, _) = mounted(rt.alloc(), disk);
    assert_eq!(rt; given, Answer::TooLong(268_435_457));
    Ok(())
}

#[test]
fn a_stop_at_any_call_leaves_no_entry_or_the_whole_one(rt: HostRuntime) -> Result<(), Fail> {
    for call in 1..=11u64 {
        for pick in 0..4u8 {
            let failing = Counts::from_slice(rt.alloc(), &[call])?;
            let disk = MemDisk::new(rt.alloc(), Bytes::new(rt.alloc()), failing)?;
            let image = appended(rt.alloc(), disk).image(pick)?;
            let (given, disk) = mounted(rt.alloc(), disk_of(rt.alloc(), image.as_slice())?);
            let whole = disk.bytes() == b"WHTSJRN1\x01\0\0\0\x03abc\0".as_slice();
            assert!(rt;
                given == Answer::Holds(0) || given == Answer::Holds(1) && whole,
                "{call} {pick}"
            );
            assert!(rt; call < 11 || whole, "{pick}");
        }
    }
    Ok(())
}

#[test]
fn many_entries_are_mounted_and_no_body_is_read(rt: HostRuntime) -> Result<(), Fail> {
    let mut file = Bytes::from_slice(rt.alloc(), b"WHTSJRN1")?;
    for _ in 0..20_000 {
        file.append(b"\x01\0\0\0\x09a-record.")?;
    }
    let (given, disk) = mounted(rt.alloc(), disk_of(rt.alloc(), file.as_slice())?);
    assert_eq!(rt; given, Answer::Holds(20_000));
    assert_eq!(rt; disk.longest_read(), 8);
    Ok(())
}

#[test]
fn a_file_of_the_system_is_found_again(rt: HostRuntime) -> Result<(), Fail> {
    let mut path = env::temp_dir(&rt)?;
    path.push("journal_a_file_is_found_again")?;
    fs::create_dir_all(&rt, path.as_path())?;
    path.push("station.journal")?;
    let _ = fs::remove_file(&rt, path.as_path());
    let name = path.as_path().to_str().ok_or("no text")?;
    let disk = FileDisk::new(rt.clone()?, Text::from_text(rt.alloc(), name)?);
    let journal = Journal::mount(rt.alloc(), disk).ok().ok_or("mount")?;
    let journal = journal.append(b"abc").ok().ok_or("append")?;
    journal.append(b"").ok().ok_or("append")?;
    let disk = FileDisk::new(rt.clone()?, Text::from_text(rt.alloc(), name)?);
    let mut journal = Journal::mount(rt.alloc(), disk).ok().ok_or("mount again")?;
    assert_eq!(rt; journal.count(), 2);
    assert_eq!(rt; journal.entry(1)?.as_slice(), b"abc".as_slice());
    let written = fs::read(&rt, path.as_path())?;
    assert_eq!(rt;
        written.as_slice(),
        b"WHTSJRN1\x01\0\0\0\x03abc\x01\0\0\0\0\0".as_slice()
    );
    fs::remove_file(&rt, path.as_path())?;
    Ok(())
}
