//! The commands that print what the records say: the lot report, the report of a unit, and the results file.
//!
//! - [`run_report`] opens the journal on a disk, makes the text of the records that it keeps, and writes it. It adds no record.
//! - The exit status is 0 where the whole text was written, 7 where a write failed and 9 where memory ran out, with a part of
//!   the text written at most. Of a journal that is not opened the closing line is written, and the status is 5, 8 or 9.
//! - A crash at any moment of it leaves the disk as it might have been left before, or with the records that its file keeps,
//!   or with these and the one that its last gate covers, in a file that is sound.
#![tactic(auto)]

mod printing;
mod reporting;

pub use reporting::{Report, run_report};
pub use unopened::CallEnd;

#[cfg(test)]
mod tests;
