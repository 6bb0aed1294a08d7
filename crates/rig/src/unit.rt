//! Units: what lies between the points of a harness.

use base::Memory;
use partition::{Name, Point};
use std::alloc::Global;
use std::marker::Model;

/// A row of a unit: an element between two points of the rig, or the charge that high voltage leaves on the unit.
#[derive(Clone, Copy, Debug, PartialEq, Eq)]
pub enum Row {
    /// A wire between two points.
    Wire(Point, Point),
    /// A resistor between two points, in milliohms. One of at most 10,000 is a join, as a wire is.
    Resistor(Point, Point, u64),
    /// A diode from one point to another, with its drop in millivolts.
    Diode(Point, Point, u32),
    /// A leak between two points, in picosiemens.
    Leak(Point, Point, u64),
    /// Two points that arc, and the volts from which on they do.
    Arc(Point, Point, u16),
    /// The volts that stay on the unit after a voltage, and for how many ticks they do.
    Charge(u16, u16),
}

/// The rows of a unit, in the order of its lines.
#[derive(Debug, Drop)]
pub struct Rows {
    rows: Vec<Row>,
}

impl Model for Rows {
    ghost use Rattle.std.specs.Prelude.{List};
    ghost use Rattle.rig.specs.declared.unit.Row.{Row};

    ghost Value = { List Row };

    ghost view = { λ l. l.rows.items };
}

impl Rows {
    ghost use Rattle.std.specs.Prelude.{◌≡◌, ◌↔◌, ◌++◌, ◌∷◌, [], length, IsTrue, OnOk, OnErr};

    /// The empty list.
    pub fn new(alloc: Global) -> Self
        ensures { result ≡ [] }
    {
        Rows {
            rows: Vec::new(alloc),
        }
    }

    /// The rows, in order.
    pub fn as_slice(&self) -> &[Row]
        ensures { result.now ≡ self.now }
    {
        self.rows.as_slice()
    }

    /// The number of rows.
    pub fn len(&self) -> usize
        ensures { result ≡ length self.now }
    {
        self.rows.len()
    }

    /// Whether there is no row.
    pub fn is_empty(&self) -> bool
        ensures { IsTrue result ↔ (self.now ≡ []) }
    {
        self.rows.is_empty()
    }

    /// Appends a row.
    ///
    /// # Errors
    ///
    /// `Memory` where memory ran out; the list stays as it was.
    pub fn push(&mut self, row: Row) -> Result<(), Memory>
        ensures ok { OnOk result (self.new ≡ self.old ++ row ∷ []) }
        ensures err { OnErr result (self.new ≡ self.old) }
    {
        self.rows.push(row)?;
        Ok(())
    }
}

/// A unit: one attempt, from 1 to 9, of one serial.
#[derive(Debug, Drop)]
pub struct Unit {
    /// The serial, 1 to 24 bytes.
    pub serial: Name,
    /// The attempt, 1 to 9.
    pub attempt: u8,
    /// What lies between its points.
    pub rows: Rows,
}

/// The units of a harness, in the order of its lines.
#[derive(Debug, Drop)]
pub struct Units {
    units: Vec<Unit>,
}

impl Model for Units {
    ghost use Rattle.std.specs.Prelude.{List};
    ghost use Rattle.rig.specs.declared.unit.Unit.{Unit};

    ghost Value = { List Unit };

    ghost view = { λ l. l.units.items };
}

impl Units {
    ghost use Rattle.std.specs.Prelude.{◌≡◌, ◌↔◌, ◌++◌, ◌∷◌, [], length, IsTrue, OnOk, OnErr};

    /// The empty list.
    pub fn new(alloc: Global) -> Self
        ensures { result ≡ [] }
    {
        Units {
            units: Vec::new(alloc),
        }
    }

    /// The units, in order.
    pub fn as_slice(&self) -> &[Unit]
        ensures { result.now ≡ self.now }
    {
        self.units.as_slice()
    }

    /// The number of units.
    pub fn len(&self) -> usize
        ensures { result ≡ length self.now }
    {
        self.units.len()
    }

    /// Whether there is no unit.
    pub fn is_empty(&self) -> bool
        ensures { IsTrue result ↔ (self.now ≡ []) }
    {
        self.units.is_empty()
    }

    /// Appends a unit.
    ///
    /// # Errors
    ///
    /// `Memory` where memory ran out; the list stays as it was.
    pub fn push(&mut self, unit: Unit) -> Result<(), Memory>
        ensures ok { OnOk result (self.new ≡ self.old ++ unit ∷ []) }
        ensures err { OnErr result (self.new ≡ self.old) }
    {
        self.units.push(unit)?;
        Ok(())
    }
}
