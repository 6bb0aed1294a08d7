//! The lines of a script, read one at a time while they are answered.
//!
//! - A script's lines end with LF; the last may lack it. A line has at most 200 bytes before its LF, a CR counted, and there
//!   are at most 100,000 lines: the first line that is longer, or is number 100,001, ends the script.
//! - [`next_line`] gives the next line of a source, and reads nothing while a whole line that was read is still to be given.
//!   What was read behind a line stays pending, also where a read fails.
//! - It refuses a line exactly where it is too long, answers a failed read only where the source's count of failed reads rose,
//!   and the end only where nothing is left.
//!
//! `specs/Script.antt` says which lines of a script ask something: those with words whose first word does not begin with `#`.
#![tactic(auto)]

mod reader;

pub use reader::{LineStop, NextLine, next_line};

#[cfg(test)]
mod tests;
