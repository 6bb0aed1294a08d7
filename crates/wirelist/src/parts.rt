//! Names and programmed components.

ghost use Rattle.std.specs.Prelude.{◌≡◌, ◌↔◌, IsTrue};

use base::Items;
use partition::{Name, Point};

/// A programmed resistor, with its window in milliohms.
#[derive(Clone, Copy, Debug, PartialEq, Eq)]
pub struct Resistor {
    pub name: Name,
    pub a: Point,
    pub b: Point,
    pub min: u64,
    pub max: u64,
}

/// A programmed diode, with its window in millivolts.
#[derive(Clone, Copy, Debug, PartialEq, Eq)]
pub struct Diode {
    pub name: Name,
    pub from: Point,
    pub to: Point,
    pub min: u32,
    pub max: u32,
}

/// The names of the named nets, in order.
pub type Names = Items<Name>;

/// The programmed resistors, in order.
pub type Resistors = Items<Resistor>;

/// The programmed diodes, in order.
pub type Diodes = Items<Diode>;

/// Whether two slices have the same names. Takes no memory.
pub(crate) fn same_names(a: &[Name], b: &[Name]) -> bool
    ensures { IsTrue result ↔ (a.now ≡ b.now) }
{
    a == b
}

/// Whether two slices have the same resistors. Takes no memory.
pub(crate) fn same_resistors(a: &[Resistor], b: &[Resistor]) -> bool
    ensures { IsTrue result ↔ (a.now ≡ b.now) }
{
    a == b
}

/// Whether two slices have the same diodes. Takes no memory.
pub(crate) fn same_diodes(a: &[Diode], b: &[Diode]) -> bool
    ensures { IsTrue result ↔ (a.now ≡ b.now) }
{
    a == b
}
