//! The images of a disk in memory, its failing calls, and a file of the system.

use crate::{Disk, DiskStop, FileDisk, MemDisk};
use base::{Bytes, Counts, Text};
use std::test::Fail;
use std::{env, fs};

#[test]
fn a_crash_leaves_any_bytes_where_a_write_reached_or_tried(rt: HostRuntime) -> Result<(), Fail> {
    let bytes = Bytes::from_slice(rt.alloc(), b"abcdef")?;
    let failing = Counts::from_slice(rt.alloc(), &[3, 6])?;
    let mut disk = MemDisk::new(rt.alloc(), bytes, failing)?;
    disk.write_at(1, b"XY")?;
    assert_eq!(rt; disk.len()?, 6);
    let refused = disk.write_at(5, b"ZZZ");
    assert!(rt; matches!(refused, Err(DiskStop::Failed)));
    let images = [b"abcdef", b"aXYdef", b"a\x01\x01de\x01", b"a\xff\xffde\xff"];
    for (pick, want) in images.iter().enumerate() {
        assert_eq!(rt;
            disk.image(pick as u8)?.as_slice(),
            want.as_slice(),
            "{pick}"
        );
    }
    assert_eq!(rt; disk.len()?, 6);
    let mut read = [0; 3];
    disk.read_at(3, &mut read)?;
    assert_eq!(rt; read, *b"def");
    assert!(rt; matches!(disk.sync(), Err(DiskStop::Failed)));
    assert_eq!(rt; disk.image(0)?.as_slice(), b"abcdef".as_slice());
    disk.sync()?;
    assert_eq!(rt; disk.image(0)?.as_slice(), b"aXYdef".as_slice());
    assert_eq!(rt; disk.image(3)?.as_slice(), b"aXYdef".as_slice());
    assert_eq!(rt; disk.len()?, 6);
    disk.write_at(6, b"gh")?;
    assert_eq!(rt; disk.bytes(), b"aXYdefgh".as_slice());
    assert_eq!(rt; disk.longest_read(), 3);
    Ok(())
}

#[test]
fn a_file_is_made_and_keeps_what_was_written(rt: HostRuntime) -> Result<(), Fail> {
    let mut folder = env::temp_dir(&rt)?;
    folder.push("disk_edge_a_file_is_made")?;
    fs::create_dir_all(&rt, folder.as_path())?;
    folder.push("file")?;
    let _ = fs::remove_file(&rt, folder.as_path());
    let path = Text::from_text(rt.alloc(), folder.as_path().to_str().ok_or("no text")?)?;
    let mut disk = FileDisk::new(rt.clone()?, path);
    assert_eq!(rt; disk.len()?, 0);
    disk.write_at(0, b"abcdef")?;
    disk.write_at(2, b"XY")?;
    disk.sync()?;
    let mut read = [0; 4];
    disk.read_at(1, &mut read)?;
    assert_eq!(rt; read, *b"bXYe");
    assert_eq!(rt; disk.len()?, 6);
    assert!(rt; matches!(disk.read_at(4, &mut read), Err(DiskStop::Failed)));
    fs::remove_file(&rt, folder.as_path())?;
    Ok(())
}
