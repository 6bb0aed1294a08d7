//! The records of a station, each of them on the disk before it is acknowledged.
//!
//! - [`load`] opens the journal on a disk and finds the records that the file keeps. It is refused exactly where the file is no
//!   journal, is cut or too long, or has an entry that no record spells: the first such entry is named, by its number and the
//!   place of its gate. Else it is refused only where the disk failed or memory ran out.
//! - A [`Ledger`] holds the journal and the [`Book`](serials::Book) of its records. [`Ledger::add`] puts one more record behind
//!   the others: a crash at any moment of it leaves the old records, or these and the new one, and after Ok the latter.
//! - What a crash may leave of a sound file is sound, and no longer than a journal may be.
//! - `laws` says that a file is opened in one way.
#![tactic(auto)]

mod kept;
pub mod laws;
mod loading;
mod stop;

pub use kept::{AddStop, Ledger};
pub use loading::{Loaded, load};
pub use stop::MountStop;
