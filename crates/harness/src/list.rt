//! The rows of a harness file, with the numbers of their lines.

ghost use Rattle.std.specs.Prelude.{◌≡◌, ◌↔◌, [], IsTrue, OnOk};
ghost use Rattle.harness.specs.Above.{with_row};

use crate::HarnessRow;
use base::Memory;
use rig::Row;
use std::alloc::Global;
use std::marker::Model;

/// Rows, each with the number of its line. Contracts see both lists.
#[derive(Drop)]
pub(crate) struct RowList {
    rows: Vec<HarnessRow>,
    numbers: Vec<u32>,
}

impl Model for RowList {
    ghost use Rattle.harness.specs.Above.{ReadRows};

    ghost Value = { ReadRows };

    ghost view = { λ l. record { rows = l.rows.items; numbers = l.numbers.items } };
}

impl RowList {
    /// The empty list.
    pub(crate) fn new(alloc: Global) -> Self
        ensures { result ≡ record { rows = []; numbers = [] } }
    {
        RowList {
            rows: Vec::new(alloc),
            numbers: Vec::new(alloc),
        }
    }

    pub(crate) fn rows(&self) -> &[HarnessRow]
        ensures { result.now ≡ self.now.rows }
    {
        self.rows.as_slice()
    }

    pub(crate) fn numbers(&self) -> &[u32]
        ensures { result.now ≡ self.now.numbers }
    {
        self.numbers.as_slice()
    }

    pub(crate) fn is_empty(&self) -> bool
        ensures { IsTrue result ↔ (self.now.rows ≡ []) }
    {
        self.rows.is_empty()
    }

    /// Appends a row of a line with this number. A list to which it cannot be appended is of no further use.
    pub(crate) fn push(&mut self, row: HarnessRow, number: u32) -> Result<(), Memory>
        ensures { OnOk result (self.new ≡ with_row self.old row number) }
    {
        // The type of a unit's row stands here by name: the toolchain does not find it inside `HarnessRow` by itself.
        let _named: Option<Row> = None;
        self.rows.push(row)?;
        self.numbers.push(number)?;
        Ok(())
    }
}
