//! The program over memory: its commands one after another on one disk, requests served and cut, damaged journals, a disk, an input and
//! an output that fail at each of their calls in turn, and a rig that fails at each of its calls. It has tests alone.
#![tactic(auto)]

#[cfg(test)]
mod commands;
#[cfg(test)]
mod damage;
#[cfg(test)]
mod desk;
#[cfg(test)]
mod ending;
#[cfg(test)]
mod failures;
#[cfg(test)]
mod service;
#[cfg(test)]
mod tables;
