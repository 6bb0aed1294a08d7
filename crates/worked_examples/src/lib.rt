//! Worked examples of the definitions, each computed by the check itself.
//!
//! Every function does nothing. Its contract says what a definition gives for one small harness, so that a reader sees the definitions
//! at work, and a change of a definition that changes an example is refused.
#![tactic(auto)]

pub mod differences;
pub mod outcomes;
pub mod programs;
pub mod readings;
pub mod reports;
