//! Insulation and withstand, seen at work over the simulator. It has tests alone: the faults of units whose leaks, arcs and
//! charges are known, the order of the trail whatever call fails, and the trail of a voltage that is led call by call.
#![tactic(auto)]

#[cfg(test)]
mod by_hand;
#[cfg(test)]
mod order;
#[cfg(test)]
mod tests;
#[cfg(test)]
mod unit;
