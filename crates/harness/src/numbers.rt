//! The numbers of the calls that fail, and of the interlock readings that are open.

ghost use Rattle.std.specs.Prelude.{◌≡◌, ◌↔◌, IsTrue, All, Contains, length, IfOk, OnOk};
ghost use Rattle.std.specs.Ordering.{nat_cmp};
ghost use Rattle.std.specs.BTreeSet.{IsOrdered};
ghost use Rattle.std.specs.List.Sorted.{IsStrictlyIncreasing};
ghost use Rattle.harness.specs.Numbers.{AddsNumber};
ghost use Rattle.harness.specs.Units.{AreFaults, AreDoors};

use crate::HarnessRow;
use base::Memory;
use std::alloc::Global;
use std::collections::BTreeSet;
use std::marker::Model;

/// Numbers of calls, each once. Contracts see them in ascending order.
#[derive(Drop)]
pub struct CallNumbers {
    numbers: BTreeSet<u64>,
}

impl Model for CallNumbers {
    ghost use Rattle.std.specs.Prelude.{List, ℕ};

    ghost Value = { List ℕ };

    ghost view = { λ c. c.numbers.keys };
}

impl CallNumbers {
    ghost use Rattle.std.specs.Prelude.{[]};

    /// No numbers.
    pub fn new(alloc: Global) -> Self
        ensures { result ≡ [] }
    {
        CallNumbers {
            numbers: BTreeSet::new(alloc),
        }
    }

    /// Whether the number is listed. Takes no memory.
    pub fn contains(&self, number: u64) -> bool
        ensures { IsTrue result ↔ Contains self.now number }
    {
        self.numbers.contains(&number)
    }

    /// How many numbers there are. Takes no memory.
    pub fn len(&self) -> usize
        ensures { result ≡ length self.now }
    {
        self.numbers.len()
    }

    pub fn is_empty(&self) -> bool
        ensures { IsTrue result ↔ (length self.now ≡ 0) }
    {
        self.numbers.is_empty()
    }
}

/// The numbers of the `fault` rows, and those of the `door` rows.
pub(crate) fn call_numbers(
    alloc: Global,
    rows: &[HarnessRow],
) -> Result<(CallNumbers, CallNumbers), Memory>
    ensures faults { IfOk result (λ pair. AreFaults rows.now pair.0) }
    ensures doors { IfOk result (λ pair. AreDoors rows.now pair.1) }
{
    let mut faults = BTreeSet::new(alloc);
    let mut doors = BTreeSet::new(alloc);
    for row in rows {
        add_number(&mut faults, &mut doors, row)?;
    }
    Ok((
        CallNumbers { numbers: faults },
        CallNumbers { numbers: doors },
    ))
}

/// Adds the number of a `fault` or a `door` row; another row adds nothing.
fn add_number(
    faults: &mut BTreeSet<u64>,
    doors: &mut BTreeSet<u64>,
    row: &HarnessRow,
) -> Result<(), Memory>
    requires faults { IsOrdered nat_cmp faults.old }
    requires doors { IsOrdered nat_cmp doors.old }
    ensures faults { OnOk result (AddsNumber HarnessRow.Fault faults.old faults.new row.now) }
    ensures doors { OnOk result (AddsNumber HarnessRow.Door doors.old doors.new row.now) }
{
    match row {
        HarnessRow::Fault(call) => {
            faults.insert(*call)?;
        }
        HarnessRow::Door(reading) => {
            doors.insert(*reading)?;
        }
        _ => {}
    }
    Ok(())
}
