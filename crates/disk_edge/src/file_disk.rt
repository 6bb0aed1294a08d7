//! A file of the system. It tells nothing of its bytes.
ghost use Rattle.std.specs.Prelude.{◌≡◌, ◌+◌, ◌≤◌, ◌^◌, ◌<◌, None, [], false};
ghost use Rattle.std.specs.Result.{result_err};
ghost use Rattle.base.specs.Causes.{HasCause};
ghost use Rattle.disk_edge.specs.FileDisk.{untold, untold_law};

use crate::{Disk, DiskStop};
use base::Text;
use std::fs::{File, OpenOptions};
use std::io;
use std::os::unix::fs::FileExt;
use std::path::Path;
use std::rt::Files;

/// A file at a path. Its first call opens the file, makes it where it is missing, and syncs the folder that it stands in.
///
/// After a sync that failed each further sync fails: the system may have dropped the bytes that it could not write, and would
/// answer that all is well.
#[derive(Drop)]
pub struct FileDisk<R: Files<File = File> + Drop> {
    rt: R,
    path: Text,
    file: Option<File>,
    sync_failed: bool,
    faults: u64,
}

impl<R: Files<File = File> + Drop> FileDisk<R> {
    ghost use Rattle.std.specs.Prelude.{◌≡◌};
    ghost use Rattle.std.specs.Result.{result_err};
    ghost use Rattle.base.specs.Causes.{HasCause};
    ghost use Rattle.disk_edge.specs.FileDisk.{untold};
    ghost use Rattle.disk_edge.specs.FileDiskState.{file_state};

    /// The disk of a path. It reaches the system only when it is called.
    pub fn new(rt: R, path: Text) -> Self
        ensures { file_state result ≡ untold 0 }
    {
        FileDisk {
            rt,
            path,
            file: None,
            sync_failed: false,
            faults: 0,
        }
    }

    // Opens the file where it is not open yet, and makes the call on it.
    fn with_file<T: Drop, F: FnOnce(&File) -> io::Result<T>>(
        &mut self,
        call: F,
    ) -> Result<T, DiskStop>
        requires { F.IsAlwaysCallable call }
        ensures { HasCause self.old.faults self.new.faults (result_err result) DiskStop.Failed }
    {
        let file = match self.file.take() {
            Some(file) => file,
            None => count_failure(&mut self.faults, open(&self.rt, &self.path))?,
        };
        let answer = count_failure(&mut self.faults, call(&file));
        self.file = Some(file);
        answer
    }
}

// A file that is made stands in its folder for good only once the folder is synced.
fn open<R: Files<File = File>>(rt: &R, path: &Text) -> io::Result<File> {
    let mut how = OpenOptions::new();
    how.read(true).write(true).create(true);
    let file = how.open(rt, path.as_str())?;
    File::open(rt, folder(path.as_str()))?.sync_all()?;
    Ok(file)
}

// The folder that a file at this path stands in.
fn folder(path: &str) -> &str {
    let folder = Path::new(path)
        .parent()
        .map_or("", |folder| folder.as_str());
    if folder.is_empty() { "." } else { folder }
}

// An answer of the system as one of the disk. Each failure is counted.
fn count_failure<T: Drop>(faults: &mut u64, answer: io::Result<T>) -> Result<T, DiskStop>
    ensures { HasCause faults.old faults.new (result_err result) DiskStop.Failed }
{
    match answer {
        Ok(value) => Ok(value),
        Err(_) => {
            *faults = faults.saturating_add(1);
            Err(DiskStop::Failed)
        }
    }
}

impl<R: Files<File = File> + Drop> Disk for FileDisk<R> {
    ghost state = { λ disk. untold disk.faults };

    ghost reads_an_image = { λ disk all. untold_law disk.faults all };

    fn len(&mut self) -> Result<u64, DiskStop> {
        self.with_file(|file| Ok(file.metadata()?.len()))
    }

    fn read_at(&mut self, at: u64, buf: &mut [u8]) -> Result<(), DiskStop> {
        self.with_file(|file| file.read_exact_at(buf, at))
    }

    fn write_at(&mut self, at: u64, bytes: &[u8]) -> Result<(), DiskStop> {
        self.with_file(|file| file.write_all_at(bytes, at))
    }

    fn sync(&mut self) -> Result<(), DiskStop> {
        if self.sync_failed {
            self.faults = self.faults.saturating_add(1);
            return Err(DiskStop::Failed);
        }
        let answer = self.with_file(|file| file.sync_all());
        self.sync_failed = answer.is_err();
        answer
    }
}
