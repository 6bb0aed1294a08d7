//! The clusters of a program as groups of points, which the tests at high voltage route.
//!
//! - [`Clusters`] numbers the clusters 0, 1, .. in order of first net, which is not the order of their least points. A point
//!   that is not judged is in none.
//! - It gives the points of a cluster, the other judged points, and the two sides of a bit: the clusters in whose number the
//!   bit is 0, and those in which it is 1.
//! - [`laws`] says that these are groups: each ascends and has a point, the clusters hold each judged point once, a cluster of
//!   two or more has others, and for each bit that the numbers need the two sides have points, and no cluster has points on
//!   both.
#![tactic(auto)]

mod clusters;
pub mod laws;

pub use clusters::Clusters;
