//! The records of the station's journal, and their bytes.
//!
//! - A [`StationRecord`] has an id, a moment and a [`Body`]. specs/RecordBytes.antt spells each record, specs/RecordRanges.antt
//!   says which records have a spelling.
//! - A test may name its [`Staff`], who made it and where. A [`Body::Mark`] says that from there on tests do.
//! - [`RecordList`] is a list of records; a contract sees just the list. A call that is refused leaves it as it was.
//! - [`encode`] gives the spelling of a record, [`decode`] the record of a spelling: it refuses exactly the bytes that spell none.
//! - [`laws`] says that no bytes spell two records.
#![tactic(auto)]

mod adopted;
mod body;
mod faults;
mod item;
pub mod laws;
mod numbers;
mod outcome;
mod points;
mod record;
mod spelling;
mod stop;
mod wiring;

pub use record::{Body, RecordList, Staff, StationRecord};
pub use spelling::{decode, encode};
pub use stop::DecodeStop;

#[cfg(test)]
mod tests;
