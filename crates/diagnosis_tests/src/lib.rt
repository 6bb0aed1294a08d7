//! A unit's diagnosis, seen at work over the simulator: the placing of a point, the parting of nets and the location of their pieces, and the first
//! fault that the tests of a unit name. It has tests alone: the counts that the contracts bound are asserted for units whose joins are known.
#![tactic(auto)]

#[cfg(test)]
mod tests;
