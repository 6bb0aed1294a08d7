//! Learning, the tests of a unit and the location of joined classes, seen at work over the simulator. It has tests alone: the
//! counts that the contracts bound are asserted for units whose joins are known.
#![tactic(auto)]

#[cfg(test)]
mod tests;
