//! What nets, components and clusters are called.

ghost use Rattle.std.specs.Prelude.{◌≡◌, ◌++◌, IfSome, OnOk, option_copied, slice_get};
ghost use Rattle.outcome_lines.specs.Labels.{net_label, component_label, cluster_label, label_at, labels_of_nets, labels_of_components, unlabelled, HasLabels};

use crate::decimal::write_decimal;
use base::{Memory, Text};
use partition::Name;
use std::alloc::Global;
use wirelist::Program;

/// Appends the label of a net: its name, `pt` and the point where it is a point of no named net, or `#` and the number.
#[tactic(auto, unfolding(crate::specs::Labels::net_label))]
pub(crate) fn write_net(
    alloc: Global,
    program: Option<&Program>,
    number: u32,
    out: &mut Text,
) -> Result<(), Memory>
    requires { IfSome program (λ p. HasLabels p.now) }
    ensures { OnOk result (out.new ≡ out.old ++ net_label (option_copied program.entry) number) }
{
    match program {
        Some(program) => write_net_of(alloc, program, number, out),
        None => write_number(alloc, number, out),
    }
}

/// Appends the label of a net of the program.
pub(crate) fn write_net_of(
    alloc: Global,
    program: &Program,
    number: u32,
    out: &mut Text,
) -> Result<(), Memory>
    requires { HasLabels program.now }
    ensures { OnOk result (out.new ≡ out.old ++ label_at (labels_of_nets program.now) number) }
{
    let names = program.names.as_slice();
    let place = number as usize;
    if place < names.len() {
        return out.push_str(names[place].text());
    }
    if number < program.nets.count() {
        out.push_str("pt")?;
        return write_decimal(alloc, program.nets.head(number).0 as u64, out);
    }
    write_number(alloc, number, out)
}

/// Appends the label of a component: its name, or `#` and the number.
#[tactic(auto, unfolding(crate::specs::Labels::component_label))]
pub(crate) fn write_component(
    alloc: Global,
    program: Option<&Program>,
    number: u32,
    out: &mut Text,
) -> Result<(), Memory>
    ensures { OnOk result (out.new ≡ out.old ++ component_label (option_copied program.entry) number) }
{
    match program {
        Some(program) => write_component_of(alloc, program, number, out),
        None => write_number(alloc, number, out),
    }
}

/// Appends the label of a component of the program.
fn write_component_of(
    alloc: Global,
    program: &Program,
    number: u32,
    out: &mut Text,
) -> Result<(), Memory>
    ensures { OnOk result (out.new ≡ out.old ++ label_at (labels_of_components program.now) number) }
{
    match component_name(program, number as usize) {
        Some(name) => out.push_str(name.text()),
        None => write_number(alloc, number, out),
    }
}

/// The name of a component, resistors first.
fn component_name(program: &Program, number: usize) -> Option<&Name>
    ensures { option_copied result ≡ slice_get (labels_of_components program.now) number }
{
    let resistors = program.resistors.as_slice();
    if number < resistors.len() {
        return Some(&resistors[number].name);
    }
    let diode = program.diodes.as_slice().get(number - resistors.len())?;
    Some(&diode.name)
}

/// Appends `#` and a number.
pub(crate) fn write_number(alloc: Global, number: u32, out: &mut Text) -> Result<(), Memory>
    ensures { OnOk result (out.new ≡ out.old ++ unlabelled number) }
{
    out.push_str("#")?;
    write_decimal(alloc, number as u64, out)
}
