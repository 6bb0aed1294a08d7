//! The groups that the tests route.

ghost use Rattle.std.specs.Prelude.{◌≡◌, ◌<◌, ◌^◌, ◌-◌, map, IfOk};
ghost use Rattle.partition.specs.Classes.{points_below};
ghost use Rattle.wirelist.specs.Clusters.{cluster_classes};
ghost use Rattle.wirelist.specs.Programs.{IsProgram};
ghost use Rattle.cluster_groups.specs.Laws.{IsClusterable};
ghost use Rattle.hv.specs.Routes.{bit_pairs, cluster_pairs, numbered_pair, numbered_sides, tested_clusters, tested_bits};

use applications::Sides;
use base::Memory;
use cluster_groups::Clusters;
use partition::{Partition, digits};
use std::alloc::Global;
use wirelist::{Program, clusters};

/// The points' partition by cluster, no class of which a voltage may stand across, and the pairs of groups to route, in order.
#[derive(Drop)]
pub(crate) struct Routes {
    pub(crate) bonds: Partition,
    pub(crate) pairs: Vec<Sides>,
}

/// Each cluster against all other judged points; none where there is one cluster.
pub(crate) fn cluster_routes(alloc: Global, p: &Program) -> Result<Routes, Memory>
    requires { IsProgram p.now }
    ensures bonds { IfOk result (λ routes. routes.bonds ≡ cluster_classes p.now) }
    ensures pairs { IfOk result (λ routes. routes.pairs.items ≡ cluster_pairs p.now) }
    ensures clusters { IfOk result (λ _. IsClusterable p.now) }
{
    let bonds = clusters(alloc, p)?;
    let numbered = Clusters::of(alloc, p)?;
    let pairs = pair_clusters(alloc, &numbered)?;
    Ok(Routes { bonds, pairs })
}

/// For each bit of the clusters' numbers the clusters with 0 there against those with 1; none where there is one cluster.
pub(crate) fn bit_routes(alloc: Global, p: &Program) -> Result<Routes, Memory>
    requires { IsProgram p.now }
    ensures bonds { IfOk result (λ routes. routes.bonds ≡ cluster_classes p.now) }
    ensures pairs { IfOk result (λ routes. routes.pairs.items ≡ bit_pairs p.now) }
    ensures clusters { IfOk result (λ _. IsClusterable p.now) }
{
    let bonds = clusters(alloc, p)?;
    let numbered = Clusters::of(alloc, p)?;
    let pairs = pair_bits(alloc, &numbered)?;
    Ok(Routes { bonds, pairs })
}

/// Pairs each cluster with the others, where there are two at least.
fn pair_clusters(alloc: Global, clusters: &Clusters) -> Result<Vec<Sides>, Memory>
    ensures { IfOk result (λ pairs. pairs.items ≡ map (numbered_pair clusters.now.numbers) (points_below (tested_clusters clusters.now.count))) }
{
    let mut pairs = Vec::new(alloc);
    if clusters.count() < 2 {
        return Ok(pairs);
    }
    for k in 0..clusters.count() {
        let left = clusters.cluster(alloc, k)?;
        let right = clusters.others(alloc, k)?;
        pairs.push(Sides { left, right })?;
    }
    Ok(pairs)
}

/// Pairs the two sides of each bit that the clusters' numbers need.
fn pair_bits(alloc: Global, clusters: &Clusters) -> Result<Vec<Sides>, Memory>
    ensures { IfOk result (λ pairs. pairs.items ≡ map (numbered_sides clusters.now.numbers) (points_below (tested_bits clusters.now.count))) }
{
    let mut pairs = Vec::new(alloc);
    let last = u32::from(clusters.count()).saturating_sub(1);
    for bit in 0..digits(last) {
        let left = clusters.side(alloc, bit, false)?;
        let right = clusters.side(alloc, bit, true)?;
        pairs.push(Sides { left, right })?;
    }
    Ok(pairs)
}
