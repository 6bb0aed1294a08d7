//! An import of serials: the whole input is taken in, and each of its rows is answered as a line of a script is.
//!
//! - [`run_rows`] answers rows in order, each as a command of its own, and stops where one is not answered.
//! - [`answer_input`] reads the input first: where a read fails, or it has too many bytes or records, no row is answered.
//! - [`import`] opens the journal on a disk, and does this behind it.
#![tactic(auto)]

mod input;
mod opening;
mod rows;

pub use input::{InputStop, answer_input};
pub use opening::import;
pub use rows::run_rows;
