//! The words of the command line.
//!
//! [`read_words`] gives the command that the words after the program's name are: exactly where they are one (`Asks`,
//! specs/Words.antt), and None exactly where they are none; memory may run out before it knows. The words fall into options
//! with their values and other words (`items`); where these have the form of a command, `clap` reads them as one simple
//! command of one positional and the options of all commands, and its values are read in their ranges. `clap` takes each
//! list of words that has the form of a command, so that it refuses those for want of memory alone.
#![tactic(auto)]

mod command;
mod forms;
mod items;
mod parts;
mod reading;

pub use command::{Command, Service, UnitName};
pub use reading::read_words;

#[cfg(test)]
mod tests;
