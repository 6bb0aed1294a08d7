//! What is said where the journal of a station is not opened.
//!
//! - [`close_unopened`] writes the closing line of a refused opening, or a front of it, and gives the exit status and the disk.
//! - 5 is the status of a file that is no journal, has an entry that is cut or no record, or is too long; the line says which,
//!   as `journal refused 2 record 1 at 8`. 8 is that of a disk that failed, 9 that of want of memory, which has no line.
//! - A failed write of the line does not change the status.
#![tactic(auto)]

mod closing;
mod line;

pub use closing::{CallEnd, close_unopened};
