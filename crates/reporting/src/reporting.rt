//! A report of the records on a disk.

ghost use Rattle.reporting.specs.Reported.{Reported, WriteCause};

use crate::printing::print;
use bench_edge::Sink;
use disk_edge::Disk;
use ledger::{Loaded, load};
use partition::Name;
use std::alloc::Global;
use unopened::{CallEnd, close_unopened};

/// What is asked.
#[derive(Drop)]
pub enum Report {
    /// The lot report.
    Lot,
    /// The report of the unit with this serial.
    Unit(Name),
    /// The results file.
    Results,
}

/// Opens the journal on the disk and writes what is asked of its records. Gives the exit status, and the disk.
pub fn run_report<D: Disk, O: Sink>(
    alloc: Global,
    report: &Report,
    out: &mut O,
    disk: D,
) -> CallEnd<D>
    ensures disk { Reported report.now (D.state disk) (D.state result.disk) result.status (O.got out.old) (O.got out.new) }
    ensures cause { WriteCause (O.write_faults out.old) (O.write_faults out.new) result.status }
{
    match load(alloc, disk) {
        Ok(loaded) => {
            let Loaded { journal, records } = loaded;
            let status = print(alloc, report, &records, out);
            let disk = journal.into_disk();
            CallEnd { status, disk }
        }
        Err(stop) => close_unopened(alloc, stop, out),
    }
}
