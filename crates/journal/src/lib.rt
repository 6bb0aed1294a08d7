//! A journal of entries in one file, where an entry is on the disk before it is acknowledged.
//!
//! The file begins with eight bytes of magic. Then come the entries, each behind a gate: a byte of 1, four bytes of length, and the
//! body. A gate of any other value, or none, ends them. An append writes the new entry and a gate of 0 behind the closed gate, makes
//! sure of them, and only then opens the gate.
//!
//! - [`Journal::mount`] finds just the entries that the file holds, and closes their end. It is refused exactly where the file is no
//!   journal, an entry is cut or the file is too long, and a file that it refuses stays as it was; else only where the disk's faults
//!   rose or memory ran out.
//! - [`Journal::append`] adds an entry. A crash at any moment of it leaves the old entries, or these and the new one, and after it
//!   answers Ok a crash leaves these and the new one.
//! - [`Journal::entry`] reads an entry, [`Journal::count`] counts them, and [`Journal::full`] says whether a longest one has no room.
//! - `laws` says that a file has one reading: one list of entries, and at most one entry whose gate stands half open.
//! - No call makes a file longer than [`LONGEST_FILE`], where a sound one is mounted.
#![tactic(auto)]

mod entry;
mod journal;
pub mod laws;
mod opening;
mod put;
mod refusal;

pub use journal::{AppendStop, Journal};
pub use refusal::OpenStop;

/// The longest body of an entry, in bytes.
pub const LONGEST_BODY: u64 = 262_138;

/// The longest file, in bytes.
pub const LONGEST_FILE: u64 = 268_435_456;

#[cfg(test)]
mod tests;
