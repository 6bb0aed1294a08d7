//! The test of dielectric withstand.

ghost use Rattle.std.specs.Prelude.{◌≡◌, ◌<◌, ◌≤◌, ◌^◌, IfErr, IfOk, IfSome, IsSome, MatchResult};
ghost use Rattle.partition.specs.NetTable.{programmed_of};
ghost use Rattle.rig.specs.States.{IsOfRig};
ghost use Rattle.wirelist.specs.Clusters.{cluster_classes, cluster_count};
ghost use Rattle.wirelist.specs.Programs.{IsProgram};
ghost use Rattle.wirelist.specs.Ranges.{IsReading};
ghost use Rattle.applications.specs.Measuring.{HvStopped, KeepsPartition};
ghost use Rattle.applications.specs.Ordered.{IsInOrder, StopsAtZero, StopsInOrder};
ghost use Rattle.hv.specs.Alone.{IsUntouched};
ghost use Rattle.hv.specs.Withstanding.{FaultInRange, StatesReading, Withstands, WithstandTallies, fault_of};

use crate::routes::bit_routes;
use crate::stated::stated;
use applications::{Endurance, HvStop, PairBreakdown, StoodEach, stand_each};
use rig::{Proven, Rig};
use std::alloc::Global;
use wirelist::Program;

/// The bit and the volts at which a unit did not withstand, with the picosiemens that were read. None is an arc.
#[derive(Clone, Copy, Debug, PartialEq, Eq)]
pub struct WithstandFault {
    pub bit: u8,
    pub volts: u16,
    pub leak: Option<u64>,
}

/// A proven unit after the test, and where it did not withstand, if it did not.
pub struct WithstandDone<R: Rig> {
    pub proven: Proven<R>,
    pub failed: Option<WithstandFault>,
}

/// Applies the voltage of the test between the two sides of each bit of the clusters' numbers, in order, up to the first
/// breakdown. The proven partition is the program's, and the program has a test of withstand.
///
/// # Errors
///
/// See [`HvStop`]; the source is at zero but in `NotZero`.
pub fn withstand<R: Rig>(
    alloc: Global,
    proven: Proven<R>,
    p: &Program,
) -> Result<WithstandDone<R>, HvStop<R>>
    requires program { IsProgram p.now }
    requires test { IsSome p.now.withstand }
    requires partition { proven.partition ≡ programmed_of p.now.nets }
    ensures ok { IfOk result (λ done. IfSome p.now.withstand (λ test.
        Withstands p.now test (R.state proven.rig) (R.state done.proven.rig) done.failed)) }
    ensures err { IfErr result (HvStopped R.state (cluster_classes p.now) (R.state proven.rig)) }
    ensures voltage { let classes = programmed_of p.now.nets in let bonds = cluster_classes p.now in
        IsInOrder classes bonds (R.state proven.rig) →
        MatchResult result (λ done. IsInOrder classes bonds (R.state done.proven.rig)) (StopsInOrder R.state classes bonds) }
    ensures zero { MatchResult result (λ done. (R.state done.proven.rig).volts ≡ 0) (StopsAtZero R.state) }
    ensures in_range { IfOk result (λ done. IfSome done.failed FaultInRange) }
    ensures tallies { IfOk result (λ done. IfSome p.now.withstand (λ test.
        WithstandTallies p.now test (R.state proven.rig) (R.state done.proven.rig) done.failed)) }
    ensures partition { MatchResult result (λ done. done.proven.partition ≡ proven.partition) (KeepsPartition proven.partition) }
    // with one cluster nothing is done
    ensures alone { cluster_count p.now ≤ 1 → MatchResult result (λ done. done.proven ≡ proven) (IsUntouched proven.rig) }
{
    let _point_count = proven.points();
    let _partition = proven.partition();
    let _net_count = p.nets.count();
    stand_bits(alloc, proven, p)
}

/// Makes the application of each bit in order, where there are two clusters at least.
fn stand_bits<R: Rig>(
    alloc: Global,
    proven: Proven<R>,
    p: &Program,
) -> Result<WithstandDone<R>, HvStop<R>>
    requires program { IsProgram p.now }
    requires test { IsSome p.now.withstand }
    requires partition { proven.partition ≡ programmed_of p.now.nets }
    requires unit { IsOfRig (R.state proven.rig) proven.partition }
    ensures ok { IfOk result (λ done. IfSome p.now.withstand (λ test.
        Withstands p.now test (R.state proven.rig) (R.state done.proven.rig) done.failed)) }
    ensures err { IfErr result (HvStopped R.state (cluster_classes p.now) (R.state proven.rig)) }
    ensures readings { IfOk result (λ done. IfSome done.failed StatesReading) }
    ensures partition { MatchResult result (λ done. done.proven.partition ≡ proven.partition) (KeepsPartition proven.partition) }
    ensures alone { cluster_count p.now ≤ 1 → MatchResult result (λ done. done.proven ≡ proven) (IsUntouched proven.rig) }
{
    let _net_count = p.nets.count();
    let test = p.withstand.unwrap();
    let routes = match bit_routes(alloc, p) {
        Ok(routes) => routes,
        Err(_) => return Err(HvStop::Memory(proven.back().into_rig())),
    };
    let pairs = routes.pairs.as_slice();
    if pairs.is_empty() {
        return Ok(WithstandDone {
            proven,
            failed: None,
        });
    }
    let endurance = Endurance {
        volts: test.volts,
        ticks: test.ticks,
        nanoamps: test.nanoamps,
    };
    let stood = stand_each(alloc, proven, &routes.bonds, pairs, endurance)?;
    let StoodEach { proven, failed } = stood;
    match failed {
        None => Ok(WithstandDone {
            proven,
            failed: None,
        }),
        Some(failed) => Ok(WithstandDone {
            proven,
            failed: Some(fault_at(failed)),
        }),
    }
}

/// The fault that a breakdown is.
fn fault_at(failed: PairBreakdown) -> WithstandFault
    requires { failed.pair < 2 ^ 8 }
    ensures fault { result ≡ fault_of failed }
    ensures reading { StatesReading result }
{
    WithstandFault {
        bit: failed.pair as u8,
        volts: failed.broken.volts,
        leak: stated(failed.broken.leak),
    }
}
