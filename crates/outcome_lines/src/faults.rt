//! The lines of faulty components, of clusters that leak, and of a withstand test that ended early.

ghost use Rattle.std.specs.Prelude.{◌≡◌, ◌++◌, Some, None, IfSome, OnOk, option_copied};
ghost use Rattle.cluster_groups.specs.Laws.{IsClusterable};
ghost use Rattle.cluster_groups.specs.Numbered.{clusters_by_number};
ghost use Rattle.std.specs.List.{flat_map};
ghost use Rattle.outcome_lines.specs.Labels.{HasLabels};
ghost use Rattle.outcome_lines.specs.OutcomeLines.{part_line, fault_text, leak_line, leak_text, withstand_line};

use crate::decimal::write_decimal;
use crate::firsts::write_cluster;
use crate::labels::{write_component, write_number};
use base::{Memory, Text};
use cluster_groups::Clusters;
use std::alloc::Global;
use wirelist::{LeakFault, PartFault, PartFaultKind, Program};

/// Appends a line for each faulty component.
pub(crate) fn write_parts(
    alloc: Global,
    faults: &[PartFault],
    program: Option<&Program>,
    out: &mut Text,
) -> Result<(), Memory>
    ensures { OnOk result (out.new ≡ out.old ++ flat_map (part_line (option_copied program.entry)) faults.now) }
{
    for fault in faults {
        write_part(alloc, fault, program, out)?;
    }
    Ok(())
}

/// Appends the line of a faulty component.
fn write_part(
    alloc: Global,
    fault: &PartFault,
    program: Option<&Program>,
    out: &mut Text,
) -> Result<(), Memory>
    ensures { OnOk result (out.new ≡ out.old ++ part_line (option_copied program.entry) fault.now) }
{
    out.push_str("  part ")?;
    write_component(alloc, program, fault.part, out)?;
    out.push_str(" ")?;
    write_fault(alloc, fault.kind, out)?;
    out.push_str("\n")
}

/// Appends how a component is at fault.
fn write_fault(alloc: Global, kind: PartFaultKind, out: &mut Text) -> Result<(), Memory>
    ensures { OnOk result (out.new ≡ out.old ++ fault_text kind) }
{
    let text = match kind {
        PartFaultKind::Low(reading) => format!(in alloc; "low {reading}")?,
        PartFaultKind::High(reading) => format!(in alloc; "high {reading}")?,
        PartFaultKind::OpenPart => return out.push_str("open"),
        PartFaultKind::WrongWay(reading) => format!(in alloc; "wrong way {reading}")?,
        PartFaultKind::Leaky(reading) => format!(in alloc; "leaky {reading}")?,
    };
    out.push_str(text.as_str())
}

/// Appends a line for each cluster that leaks.
pub(crate) fn write_leaks(
    alloc: Global,
    faults: &[LeakFault],
    program: Option<&Program>,
    out: &mut Text,
) -> Result<(), Memory>
    requires { IfSome program (λ p. HasLabels p.now) }
    ensures { OnOk result (out.new ≡ out.old ++ flat_map (leak_line (option_copied program.entry)) faults.now) }
{
    match program {
        Some(program) => write_leaks_of(alloc, faults, program, out),
        None => write_bare_leaks(alloc, faults, out),
    }
}

/// Appends a line for each cluster of the program that leaks.
fn write_leaks_of(
    alloc: Global,
    faults: &[LeakFault],
    program: &Program,
    out: &mut Text,
) -> Result<(), Memory>
    requires { HasLabels program.now }
    ensures { OnOk result (out.new ≡ out.old ++ flat_map (leak_line (Some program.now)) faults.now) }
{
    let clusters = Clusters::of(alloc, program)?;
    for fault in faults {
        write_leak(alloc, fault, program, &clusters, out)?;
    }
    Ok(())
}

/// Appends the line of a cluster of the program that leaks.
#[tactic(auto, unfolding(crate::specs::Labels::cluster_label))]
fn write_leak(
    alloc: Global,
    fault: &LeakFault,
    program: &Program,
    clusters: &Clusters,
    out: &mut Text,
) -> Result<(), Memory>
    requires labels { HasLabels program.now }
    requires clusterable { IsClusterable program.now }
    requires clusters { clusters.now ≡ clusters_by_number program.now }
    ensures { OnOk result (out.new ≡ out.old ++ leak_line (Some program.now) fault.now) }
{
    out.push_str("  leak ")?;
    write_cluster(alloc, program, clusters, fault.cluster, out)?;
    out.push_str(" ")?;
    write_reading(alloc, fault.reading, out)?;
    out.push_str("\n")
}

/// Appends a line for each cluster that leaks, where there is no program.
fn write_bare_leaks(alloc: Global, faults: &[LeakFault], out: &mut Text) -> Result<(), Memory>
    ensures { OnOk result (out.new ≡ out.old ++ flat_map (leak_line None) faults.now) }
{
    for fault in faults {
        write_bare_leak(alloc, fault, out)?;
    }
    Ok(())
}

/// Appends the line of a cluster that leaks, where there is no program.
#[tactic(auto, unfolding(crate::specs::Labels::cluster_label))]
fn write_bare_leak(alloc: Global, fault: &LeakFault, out: &mut Text) -> Result<(), Memory>
    ensures { OnOk result (out.new ≡ out.old ++ leak_line None fault.now) }
{
    out.push_str("  leak ")?;
    write_number(alloc, fault.cluster, out)?;
    out.push_str(" ")?;
    write_reading(alloc, fault.reading, out)?;
    out.push_str("\n")
}

/// Appends an arc, or the picosiemens.
fn write_reading(alloc: Global, leak: Option<u64>, out: &mut Text) -> Result<(), Memory>
    ensures { OnOk result (out.new ≡ out.old ++ leak_text leak) }
{
    match leak {
        None => out.push_str("arc"),
        Some(picosiemens) => {
            let text = format!(in alloc; "{picosiemens} pS")?;
            out.push_str(text.as_str())
        }
    }
}

/// Appends the line of a withstand test that ended at a bit and a voltage.
pub(crate) fn write_withstand(
    alloc: Global,
    bit: u8,
    volts: u16,
    leak: Option<u64>,
    out: &mut Text,
) -> Result<(), Memory>
    ensures { OnOk result (out.new ≡ out.old ++ withstand_line bit volts leak) }
{
    out.push_str("  withstand bit ")?;
    write_decimal(alloc, bit as u64, out)?;
    out.push_str(" at ")?;
    write_decimal(alloc, volts as u64, out)?;
    out.push_str(" V ")?;
    write_reading(alloc, leak, out)?;
    out.push_str("\n")
}
