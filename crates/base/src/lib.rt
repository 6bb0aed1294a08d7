//! What every crate of the station stands on, and no layer owns.
//!
//! - [`Memory`] is the answer where memory ran out, and nothing else.
//! - [`Items`] is a list of anything; a contract sees just the list. A call that is refused leaves the list as it was. [`Bytes`] and
//!   [`Counts`] are such lists, and each crate names its own.
//! - [`Text`] is a text; a contract sees its bytes.
//! - `specs/Causes.antt` says when a count of faults rose, and that a failure is answered only where it did.
#![tactic(auto)]

mod items;
mod memory;
mod text;

pub use items::Items;
pub use memory::Memory;
pub use text::Text;

/// A list of bytes.
pub type Bytes = Items<u8>;

/// A list of numbers of 64 bits.
pub type Counts = Items<u64>;

#[cfg(test)]
mod tests;
