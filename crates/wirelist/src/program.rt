//! The program of a harness: what its units are tested against.

use crate::parts::{same_diodes, same_names, same_resistors};
use crate::{Diodes, Names, Resistors};
use base::Memory;
use partition::{Name, Nets};
use std::alloc::Global;

/// The test of insulation resistance.
#[derive(Clone, Copy, Debug, PartialEq, Eq)]
pub struct Insulation {
    pub volts: u16,
    pub ticks: u16,
    pub megohms: u32,
}

/// The test of dielectric withstand.
#[derive(Clone, Copy, Debug, PartialEq, Eq)]
pub struct Withstand {
    pub volts: u16,
    pub ticks: u16,
    pub nanoamps: u32,
}

/// What a unit is tested against. Components are numbered from 0, resistors first.
#[derive(Debug, Drop)]
pub struct Program {
    pub part: Name,
    pub revision: u32,
    pub nets: Nets,
    /// The names of the named nets, in order.
    pub names: Names,
    pub resistors: Resistors,
    pub diodes: Diodes,
    pub insulation: Option<Insulation>,
    pub withstand: Option<Withstand>,
    pub attempts: u8,
}

impl Program {
    ghost use Rattle.std.specs.Prelude.{◌≡◌, ◌↔◌, IsTrue, IfOk};
    ghost use Rattle.wirelist.specs.SamePrograms.{SameWiring, SameParts, SameTests};

    /// The same program again.
    pub fn copy(&self, alloc: Global) -> Result<Self, Memory>
        ensures { IfOk result (λ p. p ≡ self.now) }
    {
        let nets = self.nets.copy(alloc)?;
        let names = self.names.copy(alloc)?;
        let resistors = self.resistors.copy(alloc)?;
        let diodes = self.diodes.copy(alloc)?;
        Ok(Program {
            part: self.part,
            revision: self.revision,
            nets,
            names,
            resistors,
            diodes,
            insulation: self.insulation,
            withstand: self.withstand,
            attempts: self.attempts,
        })
    }

    /// Whether all parts of the two programs are equal. Takes no memory.
    pub fn equal(&self, other: &Program) -> bool
        ensures { IsTrue result ↔ (other.now ≡ self.now) }
    {
        self.same_wiring(other) && self.same_parts(other) && self.same_tests(other)
    }

    /// Whether the part, the revision, the nets and their names are equal.
    fn same_wiring(&self, other: &Program) -> bool
        ensures { IsTrue result ↔ SameWiring other.now self.now }
    {
        other.part == self.part
            && other.revision == self.revision
            && self.nets.equal(&other.nets)
            && same_names(other.names.as_slice(), self.names.as_slice())
    }

    /// Whether the components are equal.
    fn same_parts(&self, other: &Program) -> bool
        ensures { IsTrue result ↔ SameParts other.now self.now }
    {
        same_resistors(other.resistors.as_slice(), self.resistors.as_slice())
            && same_diodes(other.diodes.as_slice(), self.diodes.as_slice())
    }

    /// Whether the tests at high voltage and the number of attempts are equal.
    fn same_tests(&self, other: &Program) -> bool
        ensures { IsTrue result ↔ SameTests other.now self.now }
    {
        other.insulation == self.insulation
            && other.withstand == self.withstand
            && other.attempts == self.attempts
    }
}
