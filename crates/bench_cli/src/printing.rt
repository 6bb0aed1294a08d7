//! The reports: the journal loaded, and what is asked written of its records.

ghost use Rattle.std.specs.Prelude.{◌≡◌};
ghost use Rattle.bench_cli.specs.Closing.{sunk_by};
ghost use Rattle.bench_cli.specs.Reporting.{Printed};

use crate::Ended;
use bench_edge::Sink;
use disk_edge::Disk;
use reporting::{CallEnd, Report, run_report};
use std::alloc::Global;

/// Loads the journal on the disk, and writes what is asked of its records.
pub fn print_report<O: Sink, D: Disk>(
    alloc: Global,
    report: &Report,
    out: &mut O,
    disk: D,
) -> Ended<D>
    ensures { Printed report.now (sunk_by O.got O.write_faults out.old out.new) (D.state disk) (D.state result.disk) result.status result.rig }
{
    let CallEnd { status, disk } = run_report(alloc, report, out, disk);
    Ended {
        status,
        disk,
        rig: None,
    }
}
