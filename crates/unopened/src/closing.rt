//! How a call ends whose journal is not opened.

ghost use Rattle.std.specs.Prelude.{◌≡◌, ◌≤◌, ℕ, List, IfOk};
ghost use Rattle.bench_edge.specs.Whole.{WroteFront};
ghost use Rattle.ledger.specs.Opening.{disk_of_stop, refused, no_journal, bad_record};
ghost use Rattle.journal.specs.declared.refusal.Refusal.TheVariants as why;
ghost use Rattle.unopened.specs.Refused.{refused_line, refused_status};

use crate::line::{cut_line, foreign_line, long_line, wrong_line};
use base::{Bytes, Memory};
use bench_edge::{Sink, write_all};
use ledger::MountStop;
use std::alloc::Global;

/// The exit status, and the disk.
#[derive(Drop)]
pub struct CallEnd<D> {
    pub status: u8,
    pub disk: D,
}

/// Writes the closing line, or a front of it, and gives the status and the disk.
pub fn close_unopened<D, O: Sink>(alloc: Global, stop: MountStop<D>, out: &mut O) -> CallEnd<D>
    ensures status { result.status ≡ refused_status (refused stop) }
    ensures disk { result.disk ≡ disk_of_stop stop }
    ensures line { WroteFront (O.got out.old) (O.got out.new) (refused_line (refused stop)) }
    ensures later { O.write_faults out.old ≤ O.write_faults out.new }
{
    match stop {
        MountStop::NotJournal(disk, first) => {
            close(out, foreign_line(alloc, &first));
            CallEnd { status: 5, disk }
        }
        MountStop::BadEntry(disk, number, place) => {
            close(out, cut_line(alloc, number, place));
            CallEnd { status: 5, disk }
        }
        MountStop::TooLong(disk, len) => {
            close(out, long_line(alloc, len));
            CallEnd { status: 5, disk }
        }
        MountStop::BadRecord(disk, number, place) => {
            close(out, wrong_line(alloc, number, place));
            CallEnd { status: 5, disk }
        }
        MountStop::Disk(disk) => {
            say(out, b"disk fault\n");
            CallEnd { status: 8, disk }
        }
        MountStop::Memory(disk) => {
            close(out, Ok(Bytes::new(alloc)));
            CallEnd { status: 9, disk }
        }
    }
}

/// Writes a closing line that was made, or a front of it: what fails here changes nothing.
fn close<O: Sink>(out: &mut O, line: Result<Bytes, Memory>)
    ensures line { (text : List ℕ) → IfOk line (λ l. l ≡ text) → WroteFront (O.got out.old) (O.got out.new) text }
    ensures later { O.write_faults out.old ≤ O.write_faults out.new }
{
    if let Ok(line) = line {
        say(out, line.as_slice());
    }
}

/// Writes a closing line, or a front of it: a failed write changes nothing.
fn say<O: Sink>(out: &mut O, line: &[u8])
    ensures line { WroteFront (O.got out.old) (O.got out.new) line.now }
    ensures later { O.write_faults out.old ≤ O.write_faults out.new }
{
    let _ = write_all(out, line);
}
