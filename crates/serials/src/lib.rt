//! Which command the station accepts, from one plain list of records.
//!
//! - [`read_command`] gives the [`Command`] that a line of a script is, and None exactly where it is none. [`date_text`] gives
//!   the date of a day.
//! - A [`Book`] holds the records in order; contracts see just the list. [`Book::decide`] says what is to be done with a
//!   command: the first record with the command's id decides, and else the first rule that applies. It is the decision over
//!   the plain list (specs/Decide.antt), whatever stands in the list, also where these rules never made it.
//! - [`Book::by_id`] and [`Book::facts`] say what the list has of an id and of a serial. [`history_in`] says what a plain
//!   list says of a serial, without a book.
//!
//! Beside the list a book keeps maps from ids to numbers and from serials to facts, so that a decision takes no scan. No
//! contract names them. A refused [`Book::add`] leaves all as it was.
//!
//! [`laws`] says that a command whose id is taken adds nothing, and that dates are read as they are printed.
#![tactic(auto)]

mod book;
mod command;
mod date;
mod decision;
mod facts;
mod index;
pub mod laws;
mod reading;
mod repeat;
mod rules;
mod scan;

pub use book::Book;
pub use command::Command;
pub use date::date_text;
pub use decision::{Decision, Rule};
pub use facts::SerialFacts;
pub use reading::read_command;
pub use scan::{history_in, names_serial};
