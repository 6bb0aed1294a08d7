//! A script of commands to the station: read line by line, and each command answered before the next line is read.
//!
//! - [`answer_command`] answers one line: it asks the clock once, applies the command, and writes the answer's line.
//! - [`run_script`] answers the lines of a script in order, and writes the closing line. [`run`] opens the journal before it, and
//!   where it is not opened ends as every call does (the crate unopened).
//!
//! What [`run_script`] promises, where the parts that a clause speaks of tell what they do:
//!
//! - The lines written are the answers of the steps, one for each command line in order. Behind them stands a front of the next
//!   answer, or of the closing line. With 0 and 12 all command lines are answered, with 6 those whose LF was read; with 10 the last
//!   command's three zero calls failed.
//! - Stopped at any moment, within any write too, a crash leaves what it might have left before, or a sound file that keeps the
//!   records found and a front of those that were added. At the exit it is sound too, and keeps the records of the lines that were
//!   answered, or those and the next; with 0, 6, 10 and 12 the former alone. Sound is what the station's own writes make, wherever
//!   they are stopped: each clause on what is left says it, as a field of `IsImageOf` (ledger's specs/Kept.antt). No file grows
//!   longer than a journal may be.
//! - Each recorded test states the outcome that the harness and the program give its unit, the last tally of its serial and attempt
//!   counts enough for it, and the rig shows all that is said of the last. A command whose id some record has adds nothing.
//! - 6, 7, 8 and 10 come only where the count of the input, the output, the disk or the rig rose; E20 and E21, and E16, no more often
//!   than the rig's count of faults, or of open doors, rose. Where no count rose, the status is 0, 9 or 12.
//! - At every exit the trail is in the order of high voltage and ended at zero; with 10 it ended with three zero calls that failed.
//!
//! [`run`] promises the same from the disk as it is handed in: a stop within the opening leaves the records found, or those and the
//! one that the file's gate covered. Status 5 comes exactly where the file is wrong, but for a failed disk and want of memory.
#![tactic(auto)]

mod answering;
mod opening;
mod script;
mod writing;

pub use answering::{RunEnd, answer_command};
pub use opening::{RunDone, run};
pub use script::run_script;
