//! By what a measured partition differs from the nets.
//!
//! - [`difference`] gives the opens, the shorts and the miswires of a measured partition of the points that count, by the definitions in specs/Difference.antt.
//! - [`rebuild`] gives the partition that three such lists describe.
//! - [`laws`] says that the difference gives its partition back, that it is empty exactly where the unit is as programmed, and that its
//!   numbers are in range whatever was measured.
#![tactic(auto)]

mod anchors;
pub mod laws;
mod measure;
mod rebuilding;
mod shorts;
mod strays;
mod wiring;

pub use measure::difference;
pub use rebuilding::rebuild;
pub use wiring::{Difference, Piece, Pieces, Short, Shorts};

#[cfg(test)]
mod tests;
