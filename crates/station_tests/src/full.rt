//! A journal that is as long as one may be.

use disk_edge::{Disk, DiskStop};
use journal::{AppendStop, Journal, LONGEST_BODY, LONGEST_FILE};
use std::alloc::Global;
use std::test::Fail;

/// The bytes of a longest entry.
const ENTRY: u64 = 5 + LONGEST_BODY;

/// The last gate behind which a longest record still fits.
const LAST_GATE: u64 = LONGEST_FILE - 262_144;

/// A file that reads as a journal of longest entries, and one that is shorter, of zeros. It keeps nothing that is written to it.
#[derive(Drop)]
struct LongDisk {
    end: u64,
    faults: u64,
}

impl LongDisk {
    /// What stands there: the magic, the gate and the length of an entry, or a zero.
    fn byte(&self, place: u64) -> u8 {
        if place < 8 {
            return b"WHTSJRN1"[place as usize];
        }
        if place >= self.end {
            return 0;
        }
        let entry = place.saturating_sub((place - 8) % ENTRY);
        let size = self.end.saturating_sub(entry).min(ENTRY).saturating_sub(5);
        let [first, second, third, fourth] = (size as u32).to_be_bytes();
        match place.saturating_sub(entry) {
            0 => 1,
            1 => first,
            2 => second,
            3 => third,
            4 => fourth,
            _ => 0,
        }
    }
}

impl Disk for LongDisk {
    ghost use Rattle.disk_edge.specs.FileDisk.{untold, untold_law};

    ghost state = { λ disk. untold disk.faults };

    ghost reads_an_image = { λ disk all. untold_law disk.faults all };

    fn len(&mut self) -> Result<u64, DiskStop> {
        Ok(self.end.saturating_add(1))
    }

    fn read_at(&mut self, at: u64, buf: &mut [u8]) -> Result<(), DiskStop> {
        let mut place = at;
        for byte in buf.iter_mut() {
            *byte = self.byte(place);
            place = place.saturating_add(1);
        }
        Ok(())
    }

    fn write_at(&mut self, _at: u64, _bytes: &[u8]) -> Result<(), DiskStop> {
        Ok(())
    }

    fn sync(&mut self) -> Result<(), DiskStop> {
        Ok(())
    }
}

/// Whether a journal says that it is full, and answers one entry more so. None where it is not opened, or the two differ.
fn fullness(alloc: Global, disk: LongDisk) -> Option<bool> {
    let Ok(journal) = Journal::mount(alloc, disk) else {
        return None;
    };
    let full = journal.full();
    match journal.append(b"") {
        Ok(_) if !full => Some(false),
        Err(AppendStop::Full(_)) if full => Some(true),
        _ => None,
    }
}

#[test]
fn a_journal_is_full_behind_its_last_gate(rt: HostRuntime) -> Result<(), Fail> {
    for (end, full) in [(LAST_GATE, false), (LAST_GATE + 1, true)] {
        let disk = LongDisk { end, faults: 0 };
        assert_eq!(rt; fullness(rt.alloc(), disk), Some(full), "{end}");
    }
    Ok(())
}
