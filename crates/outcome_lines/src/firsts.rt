//! The label of a cluster: that of its first net.

ghost use Rattle.std.specs.Prelude.{◌≡◌, ◌≤◌, ◌<◌, ◌++◌, ℕ, IsTrue, OnOk, Some, Contains, length};
ghost use Rattle.partition.specs.Classes.{has};
ghost use Rattle.partition.specs.NetTable.{judged_points, net_at};
ghost use Rattle.cluster_groups.specs.Laws.{IsClusterable};
ghost use Rattle.cluster_groups.specs.Numbered.{clusters_by_number};
ghost use Rattle.outcome_lines.specs.Labels.{HasLabels, label_at, labels_of_clusters};
ghost use Rattle.outcome_lines.specs.FirstNets.{IsFirstNet};

use crate::labels::{write_net_of, write_number};
use base::{Memory, Text};
use cluster_groups::Clusters;
use partition::{Nets, Point};
use std::alloc::Global;
use wirelist::Program;

/// Appends the label of a cluster of the program: that of its first net, or `#` and the number.
pub(crate) fn write_cluster(
    alloc: Global,
    program: &Program,
    clusters: &Clusters,
    number: u32,
    out: &mut Text,
) -> Result<(), Memory>
    requires labels { HasLabels program.now }
    requires clusterable { IsClusterable program.now }
    requires clusters { clusters.now ≡ clusters_by_number program.now }
    ensures { OnOk result (out.new ≡ out.old ++ label_at (labels_of_clusters program.now) number) }
{
    if number >= u32::from(clusters.count()) {
        return write_number(alloc, number, out);
    }
    let group = clusters.cluster(alloc, number as u16)?;
    let first = first_net(&program.nets, group.as_slice());
    write_net_of(alloc, program, first, out)
}

/// The first net of which a group has a point.
fn first_net(nets: &Nets, group: &[Point]) -> u32
    requires some { 0 < length group.now }
    requires judged { (q : ℕ) → Contains group.now q → IsTrue (has (judged_points nets.now) q) }
    ensures { IsFirstNet nets.now group.now result }
{
    let mut first = nets.net_of(group[0]);
    for point in group {
        first = first.min(nets.net_of(*point));
    }
    first
}
