//! The check of components, seen at work over the simulator. It has tests alone: which fault each row of a unit is, with values
//! from the rules of the wirelist and of the harness file.
#![tactic(auto)]

#[cfg(test)]
mod tests;
