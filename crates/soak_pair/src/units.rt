//! The units of the pair, and the simulator that has them.

ghost use Rattle.std.specs.Prelude.{◌≡◌, ◌≤◌, ◌<◌, ◌++◌, [], codes, IfOk, OnOk};
ghost use Rattle.partition.specs.Names.{IsName};
ghost use Rattle.rig_sim.specs.SimRig.{IsNew};
ghost use Rattle.soak_pair.specs.Pair.{good_rows, bad_rows, bad_four, bad_rest, soak_units, soak_rows};

use base::Memory;
use harness::{CallNumbers, Harness};
use partition::{Name, Point};
use rig::{Row, Rows, Unit, Units};
use rig_sim::SimRig;
use std::alloc::Global;

/// The simulator of the two units over this many points, from 1 to 4,096, which no call was asked yet.
pub fn soak_rig(alloc: Global, points: u16) -> Result<SimRig, Memory>
    requires some { 1 ≤ points }
    requires few { points ≤ 4096 }
    ensures { IfOk result (IsNew (soak_rows points)) }
{
    let harness = harness_of(alloc, points)?;
    SimRig::of_harness(alloc, harness)
}

/// The harness of the two units, in which no call fails and no interlock reading is open.
fn harness_of(alloc: Global, points: u16) -> Result<Harness, Memory>
    requires { points ≤ 4096 }
    ensures { IfOk result (λ h. h ≡ record { points = points; faults = []; doors = []; units = soak_units points }) }
{
    let mut units = Units::new(alloc);
    units.push(unit(b"GOOD", good_unit(alloc, points)?))?;
    units.push(unit(b"BAD", bad_unit(alloc, points)?))?;
    Ok(Harness {
        points,
        faults: CallNumbers::new(alloc),
        doors: CallNumbers::new(alloc),
        units,
    })
}

/// The first attempt of a serial.
fn unit(serial: &[u8], rows: Rows) -> Unit
    requires { IsName serial.now }
    ensures { result ≡ record { serial = serial.now; attempt = 1; rows = rows } }
{
    let Some(serial) = Name::read(serial) else {
        unreachable!()
    };
    Unit {
        serial,
        attempt: 1,
        rows,
    }
}

/// A wire for each net.
fn good_unit(alloc: Global, points: u16) -> Result<Rows, Memory>
    requires { points ≤ 4096 }
    ensures { IfOk result (λ rows. rows ≡ good_rows points) }
{
    let mut rows = Rows::new(alloc);
    for i in 0..points / 2 {
        rows.push(wire(2 * i, 2 * i + 1))?;
    }
    Ok(rows)
}

/// The same, changed at some of each four points after another.
fn bad_unit(alloc: Global, points: u16) -> Result<Rows, Memory>
    requires { points ≤ 4096 }
    ensures { IfOk result (λ rows. rows ≡ bad_rows points) }
{
    let mut rows = Rows::new(alloc);
    for q in 0..points / 4 {
        push_four(&mut rows, q)?;
    }
    push_rest(&mut rows, points)?;
    Ok(rows)
}

/// The wire of a net behind the last four points.
fn push_rest(rows: &mut Rows, points: u16) -> Result<(), Memory>
    requires { points ≤ 4096 }
    ensures { OnOk result (rows.new ≡ rows.old ++ bad_rest points) }
{
    if points % 4 < 2 {
        return Ok(());
    }
    let first = 4 * (points / 4);
    rows.push(wire(first, first + 1))
}

/// The wires of the four points from 4q on.
fn push_four(rows: &mut Rows, q: u16) -> Result<(), Memory>
    requires { q < 1024 }
    ensures { OnOk result (rows.new ≡ rows.old ++ bad_four q) }
{
    let first = 4 * q;
    match q % 8 {
        2 => rows.push(wire(first, first + 1)),
        5 => {
            rows.push(wire(first, first + 3))?;
            rows.push(wire(first + 1, first + 2))
        }
        6 => {
            rows.push(wire(first, first + 1))?;
            rows.push(wire(first + 2, first + 3))?;
            rows.push(wire(first, first + 2))
        }
        _ => {
            rows.push(wire(first, first + 1))?;
            rows.push(wire(first + 2, first + 3))
        }
    }
}

/// A wire between two points.
fn wire(a: u16, b: u16) -> Row
    ensures { result ≡ Row.Wire a b }
{
    Row::Wire(Point(a), Point(b))
}
