//! The learned program.

ghost use Rattle.std.specs.Prelude.{◌≡◌, ◌<◌, length, codes, IfOk};
ghost use Rattle.learned_program.specs.LearnedProgram.{learned_program, learned_table};

use crate::classes::classes_of;
use crate::names::names_of;
use base::Memory;
use partition::{Name, Nets, NetsRefusal, Partition};
use std::alloc::Global;
use wirelist::{Diodes, Program, Resistors};

/// The program of a unit whose points have these classes; there is at least one point.
pub fn program_of(alloc: Global, partition: &Partition) -> Result<Program, Memory>
    requires { 0 < length partition.now }
    ensures { IfOk result (λ program. program ≡ learned_program partition.now) }
{
    let nets = nets_of(alloc, partition)?;
    let names = names_of(alloc, nets.named())?;
    Ok(Program {
        part: part_name(),
        revision: 1,
        nets,
        names,
        resistors: Resistors::new(alloc),
        diodes: Diodes::new(alloc),
        insulation: None,
        withstand: None,
        attempts: 3,
    })
}

/// The name of every learned part.
fn part_name() -> Name
    ensures { result ≡ codes "LEARNED" }
{
    match Name::read(b"LEARNED") {
        Some(name) => name,
        None => unreachable!(),
    }
}

/// The nets of the classes.
fn nets_of(alloc: Global, partition: &Partition) -> Result<Nets, Memory>
    requires { 0 < length partition.now }
    ensures { IfOk result (λ nets. nets ≡ learned_table partition.now) }
{
    match Nets::new(alloc, partition.points(), classes_of(alloc, partition)?) {
        Ok(nets) => Ok(nets),
        Err(refusal) => Err(want_of_memory(refusal)),
    }
}

/// Classes have no fault as nets, so that want of memory alone refuses them.
fn want_of_memory(refusal: NetsRefusal) -> Memory
    requires { refusal ≡ NetsRefusal.Memory }
{
    match refusal {
        NetsRefusal::Memory => Memory,
        _ => unreachable!(),
    }
}
