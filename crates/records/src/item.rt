//! Lists of what an outcome names: two bytes of count, and the items.

ghost use Rattle.std.specs.Prelude.{◌≡◌, ◌++◌, ◌^◌, ◌<◌, ◌↔◌, ℕ, List, Option, All, AllPairs, length, IsTrue, OnOk};
ghost use Rattle.records.specs.Reading.{Gives, items_at, counted_at};
ghost use Rattle.records.specs.RecordBytes.{counted};

use crate::DecodeStop;
use crate::numbers::u16_at;
use base::{Bytes, Memory};
use std::alloc::Global;

/// What stands in a list: how it is spelled and read, its range, and what stands before what.
pub(crate) trait Item: Drop {
    ghost spelling: { Self → List ℕ };

    ghost reading: { List ℕ → Option (Self × List ℕ) };

    ghost InRange: { Self → Type 0 };

    ghost Before: { Self → Self → Type 0 };

    /// The item at the front, whatever its range, and what follows it.
    fn read(alloc: Global, bytes: &[u8]) -> Result<(Self, &[u8]), DecodeStop>
        ensures { Gives (λ x. (x.0, x.1.now)) result (reading bytes.now) };

    /// Appends the item's spelling.
    fn write(&self, out: &mut Bytes) -> Result<(), Memory>
        requires { InRange self.now }
        ensures { OnOk result (out.new ≡ out.old ++ spelling self.now) };

    fn in_range(&self) -> bool
        ensures { IsTrue result ↔ InRange self.now };

    fn before(&self, other: &Self) -> bool
        ensures { IsTrue result ↔ Before self.now other.now };

    ghost before_is_transitive: { (x y z : Self) → Before x y → Before y z → Before x z };
}

/// So many items from the front, and what follows them.
pub(crate) fn items_of<T: Item>(
    alloc: Global,
    count: u16,
    bytes: &[u8],
) -> Result<(Vec<T>, &[u8]), DecodeStop>
    ensures { Gives (λ x. (x.0.items, x.1.now)) result (items_at T.reading count bytes.now) }
{
    let mut items = Vec::new(alloc);
    let mut rest = bytes;
    for _ in 0..count {
        let (item, after) = T::read(alloc, rest)?;
        items.push(item)?;
        rest = after;
    }
    Ok((items, rest))
}

/// The counted items at the front, and what follows them.
#[tactic(auto, unfolding(crate::specs::Reading::counted_at))]
pub(crate) fn counted_of<T: Item>(
    alloc: Global,
    bytes: &[u8],
) -> Result<(Vec<T>, &[u8]), DecodeStop>
    ensures { Gives (λ x. (x.0.items, x.1.now)) result (counted_at T.reading bytes.now) }
{
    let (count, rest) = u16_at(bytes)?;
    items_of(alloc, count, rest)
}

/// Appends the number of items, and each of them.
#[tactic(auto, unfolding(crate::specs::RecordBytes::counted))]
pub(crate) fn write_counted<T: Item>(items: &[T], out: &mut Bytes) -> Result<(), Memory>
    requires few { length items.now < 2 ^ 16 }
    requires in_range { All T.InRange items.now }
    ensures { OnOk result (out.new ≡ out.old ++ counted T.spelling items.now) }
{
    out.append(&(items.len() as u16).to_be_bytes())?;
    for item in items {
        item.write(out)?;
    }
    Ok(())
}

/// Whether each item is in range.
pub(crate) fn are_in_range<T: Item>(items: &[T]) -> bool
    ensures { IsTrue result ↔ All T.InRange items.now }
{
    for item in items {
        if !item.in_range() {
            return false;
        }
    }
    true
}

/// Whether each item stands before the next, and so before each later one.
pub(crate) fn ascend<T: Item>(items: &[T]) -> bool
    ensures { IsTrue result ↔ AllPairs T.Before items.now }
{
    for i in 1..items.len() {
        if !items[i - 1].before(&items[i]) {
            return false;
        }
    }
    true
}

/// Whether each item is in range, and stands before each later one.
pub(crate) fn are_ordered<T: Item>(items: &[T]) -> bool
    ensures { IsTrue result ↔ (All T.InRange items.now × AllPairs T.Before items.now) }
{
    if !are_in_range(items) {
        return false;
    }
    ascend(items)
}
