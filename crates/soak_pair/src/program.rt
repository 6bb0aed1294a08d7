//! The program that the pair is tested against.

ghost use Rattle.std.specs.Prelude.{◌≡◌, ◌≤◌, [], map, codes, IfOk};
ghost use Rattle.std.specs.List.{range_with_len};
ghost use Rattle.wirelist.specs.Programs.{IsProgram};
ghost use Rattle.soak_pair.specs.Pair.{soak_net, soak_nets, soak_name, soak_program};

use base::Memory;
use partition::{Name, NetLists, Nets, NetsRefusal, Point, PointList};
use std::alloc::Global;
use wirelist::{Diodes, Names, Program, Resistors, Withstand};

/// The program over this many points, from 1 to 4,096.
pub fn soak_program(alloc: Global, points: u16) -> Result<Program, Memory>
    requires some { 1 ≤ points }
    requires few { points ≤ 4096 }
    ensures program { IfOk result (λ p. p ≡ soak_program points) }
    ensures valid { IfOk result IsProgram }
{
    let nets = nets_of(alloc, points)?;
    let names = names_of(alloc, points / 2)?;
    Ok(Program {
        part: part_name(),
        revision: 1,
        nets,
        names,
        resistors: Resistors::new(alloc),
        diodes: Diodes::new(alloc),
        insulation: None,
        withstand: Some(Withstand {
            volts: 500,
            ticks: 2,
            nanoamps: 1000,
        }),
        attempts: 3,
    })
}

/// The name of the part.
fn part_name() -> Name
    ensures { result ≡ codes "SOAK" }
{
    match Name::read(b"SOAK") {
        Some(name) => name,
        None => unreachable!(),
    }
}

/// A net for each two points.
fn nets_of(alloc: Global, points: u16) -> Result<Nets, Memory>
    requires { 1 ≤ points }
    ensures { IfOk result (λ nets. nets ≡ record { points = points; named = soak_nets points; ignored = [] }) }
{
    match Nets::new(alloc, points, lists_of(alloc, points / 2)?) {
        Ok(nets) => Ok(nets),
        Err(refusal) => Err(want_of_memory(refusal)),
    }
}

/// Two points after another have no fault as nets, so that want of memory alone refuses them.
fn want_of_memory(refusal: NetsRefusal) -> Memory
    requires { refusal ≡ NetsRefusal.Memory }
{
    match refusal {
        NetsRefusal::Memory => Memory,
        _ => unreachable!(),
    }
}

/// The points of this many nets.
fn lists_of(alloc: Global, count: u16) -> Result<NetLists, Memory>
    requires { count ≤ 32767 }
    ensures { IfOk result (λ lists. lists ≡ map soak_net (range_with_len 0 count)) }
{
    let mut lists = NetLists::new(alloc);
    for i in 0..count {
        lists.push(PointList::from_slice(alloc, &[Point(2 * i), Point(2 * i + 1)])?)?;
    }
    Ok(lists)
}

/// The names N0, N1 and so on, this many.
fn names_of(alloc: Global, count: u16) -> Result<Names, Memory>
    ensures { IfOk result (λ names. names ≡ map soak_name (range_with_len 0 count)) }
{
    let mut names = Names::new(alloc);
    for i in 0..count {
        names.push(name_of(alloc, i)?)?;
    }
    Ok(names)
}

/// `N` and the number.
fn name_of(alloc: Global, number: u16) -> Result<Name, Memory>
    ensures { IfOk result (λ name. name ≡ soak_name number) }
{
    let text = format!(in alloc; "N{number}")?;
    let Some(name) = Name::read(text.as_bytes()) else {
        unreachable!()
    };
    Ok(name)
}
