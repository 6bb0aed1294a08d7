//! What the work on a unit has in common, whatever the command: how it ends.

ghost use Rattle.std.specs.Prelude.{ℕ, List};
ghost use Rattle.rig.specs.RigState.{RigState};
ghost use Rattle.rig.specs.Seating.{Seats};
ghost use Rattle.rig.specs.Stops.{seat_stop_rig, seat_stop_answer};
ghost use Rattle.bench_cli.specs.UnitEnds.{UnseatedEnds};
ghost use Rattle.bench_cli.specs.Closing.{sunk_by};

use crate::closing::{end_with_line, status};
use bench_edge::Sink;
use rig::{Rig, SeatStop};

/// How the work on a unit ended: the exit status, and the rig.
pub struct UnitEnded<R> {
    pub status: u8,
    pub rig: R,
}

/// Writes why the unit was not seated.
pub fn end_unseated<R: Rig, O: Sink>(stop: SeatStop<R>, out: &mut O) -> UnitEnded<R>
    ensures { (old : RigState) (serial : List ℕ) (attempt : ℕ) → Seats old (R.state (seat_stop_rig stop)) serial attempt (seat_stop_answer stop)
        → UnseatedEnds old (R.state result.rig) serial attempt (sunk_by O.got O.write_faults out.old out.new) result.status }
{
    match stop {
        SeatStop::Absent(rig) => UnitEnded {
            status: end_with_line(out, b"fixture empty\n", status::FIXTURE_EMPTY),
            rig,
        },
        SeatStop::Rig(rig) => UnitEnded {
            status: end_with_line(out, b"rig fault\n", status::RIG_FAULT),
            rig,
        },
        SeatStop::Memory(rig) => UnitEnded {
            status: status::NO_MEMORY,
            rig,
        },
    }
}
