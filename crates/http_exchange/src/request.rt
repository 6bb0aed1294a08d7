//! What a request asks.

use crate::page::{Submission, Verb};
use partition::Name;
use serials::Command;

/// Why a request is refused before the station is asked anything.
#[derive(Clone, Copy, Debug, PartialEq, Eq)]
pub enum Refusal {
    /// It is no request, or its length or its body is none.
    Request,
    /// Its body is coded.
    Coding,
    /// Its path names nothing.
    NotFound,
    /// What its path names takes this method alone.
    Method(Verb),
    /// It submits something and has no length.
    Length,
    /// Its body is too long.
    TooLong,
}

/// What a request asks of the station.
#[derive(Clone, Copy, Debug)]
pub enum Request {
    Refused(Refusal),
    /// The report of the unit with this serial.
    Unit(Name),
    /// The report of the lot.
    Lot,
    Command(Command),
}

/// What the head of a request asks.
#[derive(Clone, Copy, Debug)]
pub enum Asked {
    /// The head says it all.
    Known(Request),
    /// A body of so many bytes says it.
    Body {
        submission: Submission,
        length: usize,
    },
}
