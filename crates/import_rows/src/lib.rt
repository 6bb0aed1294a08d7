//! The rows of an import, as `csv` reads them.
//!
//! [`read_import`] gives what the rows of an input ask, in order, each with its record's number, counted from 1:
//!
//! - a record of two names is the command that enrols the second under the first as its id; any other is no command;
//! - a first record `id,serial` is passed over, and so is one without fields once the empty ones at its end are dropped;
//! - an input of more than 8,388,608 bytes or 100,000 records is refused whole, and asks nothing.
//!
//! What is asked is a function of the bytes (specs/Rows.antt). Want of memory is the only other refusal.
#![tactic(auto)]

mod read;

pub use read::{AskedRows, Enrolment, ImportStop, read_import};

#[cfg(test)]
mod tests;
