//! The test of insulation resistance.

ghost use Rattle.std.specs.Prelude.{◌≡◌, ◌<◌, ◌≤◌, ◌*◌, ◌/◌, ◌++◌, ◌^◌, length, All, IfErr, IfOk, IfSome, IsSome, MatchResult, OnErr, OnOk};
ghost use Rattle.partition.specs.NetTable.{programmed_of};
ghost use Rattle.rig.specs.States.{IsOfRig};
ghost use Rattle.wirelist.specs.Clusters.{cluster_classes, cluster_count};
ghost use Rattle.wirelist.specs.Programs.{IsProgram};
ghost use Rattle.wirelist.specs.Ranges.{LeakFaultsInRange};
ghost use Rattle.applications.specs.Counting.{TalliesMore};
ghost use Rattle.applications.specs.Measuring.{HvStopped, KeepsPartition};
ghost use Rattle.applications.specs.Ordered.{IsInOrder, StopsAtZero, StopsInOrder};
ghost use Rattle.hv.specs.Alone.{IsUntouched};
ghost use Rattle.hv.specs.Insulating.{AreStated, Insulates, faults_at, faults_from, too_leaky};
ghost use Rattle.hv.specs.Routes.{tested_clusters};

use crate::routes::cluster_routes;
use crate::stated::stated;
use applications::{HvStop, MeasuredEach, measure_each};
use base::Memory;
use rig::{Leak, Proven, Rig};
use std::alloc::Global;
use wirelist::{LeakFault, LeakFaults, Program};

/// A proven unit after the test, and the clusters whose insulation is too low, in order.
pub struct InsulationDone<R: Rig> {
    pub proven: Proven<R>,
    pub faults: LeakFaults,
}

/// Measures the leak of each cluster of a program against all other judged points, in order of first net. The proven partition
/// is the program's, and the program has a test of insulation.
///
/// # Errors
///
/// See [`HvStop`]; the source is at zero but in `NotZero`.
pub fn insulation<R: Rig>(
    alloc: Global,
    proven: Proven<R>,
    p: &Program,
) -> Result<InsulationDone<R>, HvStop<R>>
    requires program { IsProgram p.now }
    requires test { IsSome p.now.insulation }
    requires partition { proven.partition ≡ programmed_of p.now.nets }
    ensures ok { IfOk result (λ done. IfSome p.now.insulation (λ test.
        Insulates p.now test (R.state proven.rig) (R.state done.proven.rig) done.faults)) }
    ensures err { IfErr result (HvStopped R.state (cluster_classes p.now) (R.state proven.rig)) }
    ensures voltage { let classes = programmed_of p.now.nets in let bonds = cluster_classes p.now in
        IsInOrder classes bonds (R.state proven.rig) →
        MatchResult result (λ done. IsInOrder classes bonds (R.state done.proven.rig)) (StopsInOrder R.state classes bonds) }
    ensures zero { MatchResult result (λ done. (R.state done.proven.rig).volts ≡ 0) (StopsAtZero R.state) }
    ensures in_range { IfOk result (λ done. 0 < length done.faults → LeakFaultsInRange done.faults) }
    ensures tallies { let n = tested_clusters (cluster_count p.now) in
        IfOk result (λ done. IfSome p.now.insulation (λ test.
        TalliesMore n (n * (test.volts / 50)) (n * test.ticks) n (R.state proven.rig) (R.state done.proven.rig))) }
    ensures partition { MatchResult result (λ done. done.proven.partition ≡ proven.partition) (KeepsPartition proven.partition) }
    // with one cluster nothing is done
    ensures alone { cluster_count p.now ≤ 1 → MatchResult result (λ done. done.proven ≡ proven) (IsUntouched proven.rig) }
{
    let _point_count = proven.points();
    let _partition = proven.partition();
    measure_clusters(alloc, proven, p)
}

/// Measures each cluster in order, where there are two at least, and judges the leaks.
fn measure_clusters<R: Rig>(
    alloc: Global,
    proven: Proven<R>,
    p: &Program,
) -> Result<InsulationDone<R>, HvStop<R>>
    requires program { IsProgram p.now }
    requires test { IsSome p.now.insulation }
    requires partition { proven.partition ≡ programmed_of p.now.nets }
    requires unit { IsOfRig (R.state proven.rig) proven.partition }
    ensures ok { IfOk result (λ done. IfSome p.now.insulation (λ test.
        Insulates p.now test (R.state proven.rig) (R.state done.proven.rig) done.faults)) }
    ensures err { IfErr result (HvStopped R.state (cluster_classes p.now) (R.state proven.rig)) }
    ensures readings { IfOk result (λ done. AreStated done.faults) }
    ensures partition { MatchResult result (λ done. done.proven.partition ≡ proven.partition) (KeepsPartition proven.partition) }
    ensures alone { cluster_count p.now ≤ 1 → MatchResult result (λ done. done.proven ≡ proven) (IsUntouched proven.rig) }
{
    let test = p.insulation.unwrap();
    let routes = match cluster_routes(alloc, p) {
        Ok(routes) => routes,
        Err(_) => return Err(HvStop::Memory(proven.back().into_rig())),
    };
    let pairs = routes.pairs.as_slice();
    if pairs.is_empty() {
        return Ok(InsulationDone {
            proven,
            faults: LeakFaults::new(alloc),
        });
    }
    let measured = measure_each(alloc, proven, &routes.bonds, pairs, test.volts, test.ticks)?;
    let MeasuredEach { proven, leaks } = measured;
    match judge(alloc, leaks.as_slice(), test.megohms) {
        Ok(faults) => Ok(InsulationDone { proven, faults }),
        Err(_) => Err(HvStop::Memory(proven.back().into_rig())),
    }
}

/// The faults of the clusters with these leaks, in order.
fn judge(alloc: Global, leaks: &[Leak], megohms: u32) -> Result<LeakFaults, Memory>
    requires { length leaks.now < 2 ^ 32 }
    ensures faults { IfOk result (λ faults. faults ≡ faults_from megohms 0 leaks.now) }
    ensures readings { IfOk result AreStated }
{
    let mut faults = LeakFaults::new(alloc);
    for (i, leak) in leaks.iter().enumerate() {
        judge_cluster(&mut faults, i, *leak, megohms)?;
    }
    Ok(faults)
}

/// Adds the fault of a cluster, if its leak is one.
fn judge_cluster(faults: &mut LeakFaults, i: usize, leak: Leak, megohms: u32) -> Result<(), Memory>
    requires place { i < 2 ^ 32 }
    requires readings { AreStated faults.old }
    ensures ok { OnOk result (faults.new ≡ faults.old ++ faults_at megohms i leak) }
    ensures err { OnErr result (faults.new ≡ faults.old) }
    ensures readings { AreStated faults.new }
{
    if !is_too_leaky(leak, megohms) {
        return Ok(());
    }
    faults.push(LeakFault {
        cluster: i as u32,
        reading: stated(leak),
    })
}

/// Whether a leak is an arc, or a resistance below so many megohms.
fn is_too_leaky(leak: Leak, megohms: u32) -> bool
    ensures { result ≡ too_leaky megohms leak }
{
    match leak {
        Leak::Arc => true,
        Leak::PicoSiemens(g) => u128::from(g) * u128::from(megohms) > 1_000_000,
    }
}
