//! The components of a unit whose wiring is as programmed, and what follows them.

ghost use Rattle.std.specs.Prelude.{◌≡◌, IfErr, IfOk};
ghost use Rattle.partition.specs.NetTable.{programmed_of};
ghost use Rattle.wirelist.specs.Programs.{IsProgram};
ghost use Rattle.unit_outcome.specs.Defined.{proven_charge};
ghost use Rattle.sequence.specs.Halted.{parts_stop};
ghost use Rattle.sequence.specs.Stages.{FindsProven, StopsLate};

use crate::voltage::test_voltage;
use parts_check::{Checked, PartsStop, check_parts};
use rig::{Proven, Rig};
use std::alloc::Global;
use unit_outcome::{UnitRun, UnitStop};
use wirelist::{Outcome, Program};

/// Checks the components of a proven unit, and where none is faulty tests it at high voltage.
pub(crate) fn test_proven<R: Rig>(
    alloc: Global,
    proven: Proven<R>,
    p: &Program,
) -> Result<UnitRun<R>, UnitStop<R>>
    requires program { IsProgram p.now }
    requires partition { proven.partition ≡ programmed_of p.now.nets }
    ensures ok { IfOk result (λ run. FindsProven p.now (R.state proven.rig) (R.state run.rig) run.outcome) }
    ensures err { IfErr result (StopsLate R.state p.now (proven_charge p.now) (R.state proven.rig)) }
{
    let _point_count = proven.points();
    match check_parts(alloc, proven, p) {
        Ok(Checked { proven, faults }) => {
            if faults.is_empty() {
                test_voltage(alloc, proven, p)
            } else {
                Ok(UnitRun {
                    rig: proven.back().into_rig(),
                    outcome: Outcome::Parts(faults),
                })
            }
        }
        Err(stop) => Err(stopped(stop)),
    }
}

/// The stop of a unit's test that the stop of its check of components is.
fn stopped<R: Rig>(stop: PartsStop<R>) -> UnitStop<R>
    ensures { result ≡ parts_stop stop }
{
    match stop {
        PartsStop::Rig(proven) => UnitStop::RigFault(proven.back().into_rig()),
        PartsStop::Memory(proven) => UnitStop::Memory(proven.back().into_rig()),
    }
}
