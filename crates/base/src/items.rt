//! Lists.

use crate::Memory;
use std::alloc::Global;
use std::marker::Model;

/// A list. A contract sees just the list of its items.
#[derive(Debug, Drop)]
pub struct Items<T> {
    items: Vec<T>,
}

impl<T> Model for Items<T> {
    ghost use Rattle.std.specs.Prelude.{List};

    ghost Value = { List T };

    ghost view = { λ l. l.items.items };
}

impl<T> Items<T> {
    ghost use Rattle.std.specs.Prelude.{◌≡◌, ◌↔◌, [], length, IsTrue, option_copied, slice_get};

    /// The empty list.
    pub fn new(alloc: Global) -> Self
        ensures { result ≡ [] }
    {
        Items {
            items: Vec::new(alloc),
        }
    }

    /// The list of a `Vec`, which takes no memory.
    pub fn from_vec(items: Vec<T>) -> Self
        ensures { result ≡ items.items }
    {
        Items { items }
    }

    /// The `Vec` of the list, which takes no memory.
    pub fn into_vec(self) -> Vec<T>
        ensures { result.items ≡ self }
    {
        let Items { items } = self;
        items
    }

    pub fn as_slice(&self) -> &[T]
        ensures { result.now ≡ self.now }
    {
        self.items.as_slice()
    }

    pub fn len(&self) -> usize
        ensures { result ≡ length self.now }
    {
        self.items.len()
    }

    pub fn is_empty(&self) -> bool
        ensures { IsTrue result ↔ (self.now ≡ []) }
    {
        self.items.is_empty()
    }

    /// The item at a place, counted from 0, or None past the end.
    pub fn get(&self, place: usize) -> Option<&T>
        ensures { option_copied result ≡ slice_get self.now place }
    {
        self.items.get(place)
    }
}

impl<T: Drop> Items<T> {
    ghost use Rattle.std.specs.Prelude.{◌≡◌, ◌++◌, ◌∷◌, ◌-◌, [], length, take, OnOk, OnErr};

    /// Appends one item.
    ///
    /// # Errors
    ///
    /// `Memory` where memory ran out; the list stays as it was.
    pub fn push(&mut self, item: T) -> Result<(), Memory>
        ensures ok { OnOk result (self.new ≡ self.old ++ item ∷ []) }
        ensures err { OnErr result (self.new ≡ self.old) }
    {
        self.items.push(item)?;
        Ok(())
    }

    /// Takes the last item off, where there is one.
    pub fn pop(&mut self)
        ensures { self.new ≡ take (length self.old - 1) self.old }
    {
        self.items.pop();
    }
}

impl<T: Copy> Items<T> {
    ghost use Rattle.std.specs.Prelude.{◌≡◌, ◌++◌, IfOk, OnOk, OnErr};

    /// A copy of a slice.
    ///
    /// # Errors
    ///
    /// `Memory` where memory ran out.
    pub fn from_slice(alloc: Global, items: &[T]) -> Result<Self, Memory>
        ensures { IfOk result (λ list. list ≡ items.now) }
    {
        let items = Vec::from_slice(alloc, items)?;
        Ok(Items { items })
    }

    /// The same list again.
    ///
    /// # Errors
    ///
    /// `Memory` where memory ran out.
    pub fn copy(&self, alloc: Global) -> Result<Self, Memory>
        ensures { IfOk result (λ list. list ≡ self.now) }
    {
        Items::from_slice(alloc, self.as_slice())
    }

    /// Appends the items of a slice.
    ///
    /// # Errors
    ///
    /// `Memory` where memory ran out; the list stays as it was.
    pub fn append(&mut self, more: &[T]) -> Result<(), Memory>
        ensures ok { OnOk result (self.new ≡ self.old ++ more.now) }
        ensures err { OnErr result (self.new ≡ self.old) }
    {
        self.items.extend_from_slice(more)?;
        Ok(())
    }
}

impl Items<u64> {
    ghost use Rattle.std.specs.Prelude.{◌↔◌, IsTrue, Contains};

    /// Whether a number is in the list.
    pub fn contains(&self, number: u64) -> bool
        ensures { IsTrue result ↔ Contains self.now number }
    {
        self.items.contains(&number)
    }
}
