//! A unit's whole test, seen at work over the simulator. It has tests alone: what is found of units whose joins, components, leaks, arcs and
//! charges are known, how often they are read, and what is found of a rig that lies.
#![tactic(auto)]

#[cfg(test)]
mod tests;
#[cfg(test)]
mod words;
