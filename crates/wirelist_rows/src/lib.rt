//! The rows of a wirelist, exactly as `csv` reads them: with no header row, of any number of fields, untrimmed.
//!
//! - [`rows`] gives the list of all rows; a byte order mark at the front is dropped, and an empty line is no row. It wants
//!   memory where [`csv_rows`], which says what stopped `csv`, stops: only where memory ran out or the reader failed.
//! - [`Rows`] is that list: each [`Row`] is the list of its fields without the empty ones at its end, each field the list
//!   of its bytes. A row of empty fields is one without fields.
#![tactic(auto)]

mod read;
mod stop;
mod table;

pub use read::{csv_rows, rows};
pub use stop::RowsStop;
pub use table::{Row, Rows};

#[cfg(test)]
mod tests;
