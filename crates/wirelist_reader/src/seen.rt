//! What is kept of the rows that were checked.

ghost use Rattle.std.specs.Prelude.{nat_le, ◌+◌, ◌⊎◌, ◌≡◌, ◌++◌, ◌∷◌, [], ◌<◌, ◌^◌, ℕ, List, IsTrue, OnOk, IfOk, bytes_eq};
ghost use Rattle.std.specs.List.{list_any};
ghost use Rattle.wirelist_reader.specs.Rows.{field_at, is_named, is_component, number_at};
ghost use Rattle.wirelist_reader.specs.Refusals.{FindsOrMemory, Finds, fault_if, late_faults, window_faults};
ghost use Rattle.wirelist_reader.specs.Reading.{IsFit};
ghost use Rattle.wirelist.specs.Ranges.{most_parts};
ghost use Rattle.wirelist_reader.specs.Seen.{IsSeen, AreNames};

use crate::field::{name_at, number_at};
use crate::kind::{Kind, is_kind};
use partition::Name;
use std::alloc::Global;
use std::collections::BTreeSet;
use wirelist::WireRefusal;
use wirelist::ranges::{MILLIOHMS, MILLIVOLTS, MOST_PARTS, NumberRange};
use wirelist_rows::Row;

/// The numbers in the window of a resistor or of a diode.
const WINDOWS: NumberRange = NumberRange {
    low: MILLIVOLTS.low,
    most: MILLIOHMS.most,
};

/// The names of the nets and components of some rows, and how many components there are.
#[derive(Drop)]
pub(crate) struct Seen {
    names: BTreeSet<String>,
    components: usize,
}

impl Seen {
    /// What is kept of no rows.
    pub(crate) fn new(alloc: Global) -> Self
        ensures { IsSeen [] result.names result.components }
    {
        Seen {
            names: BTreeSet::new(alloc),
            components: 0,
        }
    }

    /// Adds a row whose fields are what they may be, or finds its first fault.
    pub(crate) fn add(&mut self, alloc: Global, row: &Row, number: u32) -> Result<(), WireRefusal>
        requires fit { IsFit row.now }
        requires few { self.old.components < 2 ^ 32 }
        ensures finds { (before : List (List (List ℕ))) → IsSeen before self.old.names self.old.components
            → FindsOrMemory (late_faults before row.now number) result }
        ensures seen { (before : List (List (List ℕ))) → IsSeen before self.old.names self.old.components →
            OnOk result (IsSeen (before ++ row.now ∷ []) self.new.names self.new.components) }
    {
        if !is_named(row) {
            return Ok(());
        }
        match self.add_name(alloc, row, number) {
            Ok(()) if is_component(row) => self.add_part(row, number),
            named => named,
        }
    }

    /// Adds the name of a row, unless it was given before.
    fn add_name(&mut self, alloc: Global, row: &Row, number: u32) -> Result<(), WireRefusal>
        requires fit { IsFit row.now }
        requires named { IsTrue (is_named row.now) }
        ensures finds { (names : List (List ℕ)) → AreNames self.old.names names →
            FindsOrMemory (fault_if (list_any (bytes_eq (field_at row.now 1)) names) (WireRefusal.SameName number)) result }
        ensures names { (names : List (List ℕ)) → AreNames self.old.names names → OnOk result (AreNames self.new.names (names ++ field_at row.now 1 ∷ [])) }
        ensures components { self.new.components ≡ self.old.components }
    {
        let name = name_of(row);
        if self.names.contains(name.text()) {
            return Err(WireRefusal::SameName(number));
        }
        let text = String::from_str(alloc, name.text())?;
        self.names.insert(text)?;
        Ok(())
    }

    /// Counts a component whose window is one.
    fn add_part(&mut self, row: &Row, number: u32) -> Result<(), WireRefusal>
        requires fit { IsFit row.now }
        requires component { IsTrue (is_component row.now) }
        requires few { self.old.components < 2 ^ 32 }
        ensures finds { Finds (window_faults row.now number ++ fault_if (nat_le most_parts self.old.components) (WireRefusal.TooManyParts number)) result }
        ensures counted { OnOk result (self.new ≡ record self.old { components = self.old.components + 1 }) }
    {
        match check_window(row, number) {
            Ok(()) => self.add_component(number),
            found => found,
        }
    }

    /// Counts one component more.
    fn add_component(&mut self, number: u32) -> Result<(), WireRefusal>
        ensures finds { Finds (fault_if (nat_le most_parts self.old.components) (WireRefusal.TooManyParts number)) result }
        ensures counted { OnOk result (self.new ≡ record self.old { components = self.old.components + 1 }) }
    {
        if self.components >= MOST_PARTS {
            return Err(WireRefusal::TooManyParts(number));
        }
        self.components += 1;
        Ok(())
    }
}

/// Whether a row is of a component.
fn is_component(row: &Row) -> bool
    ensures { result ≡ is_component row.now }
{
    is_kind(row, Kind::Resistor) || is_kind(row, Kind::Diode)
}

/// Whether a row gives a name to a net or a component.
fn is_named(row: &Row) -> bool
    ensures { result ≡ is_named row.now }
{
    is_kind(row, Kind::Net) || is_component(row)
}

/// Whether the least value of a component's window is not above the greatest.
fn check_window(row: &Row, number: u32) -> Result<(), WireRefusal>
    requires fit { IsFit row.now }
    requires component { IsTrue (is_component row.now) }
    ensures { Finds (window_faults row.now number) result }
{
    if window_end(row, 5) < window_end(row, 4) {
        Err(WireRefusal::BadWindow(number))
    } else {
        Ok(())
    }
}

/// The name of a net or a component.
fn name_of(row: &Row) -> Name
    requires fit { IsFit row.now }
    requires named { IsTrue (is_named row.now) }
    ensures { result ≡ field_at row.now 1 }
{
    name_at(row, 1)
}

/// One end of a component's window.
fn window_end(row: &Row, place: usize) -> u64
    requires fit { IsFit row.now }
    requires component { IsTrue (is_component row.now) }
    requires place { (place ≡ 4) ⊎ (place ≡ 5) }
    ensures { result ≡ number_at row.now place }
{
    number_at(row, place, WINDOWS)
}
