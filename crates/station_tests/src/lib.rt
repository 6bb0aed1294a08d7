//! The station, seen at work over the simulator and a disk in memory. It has tests alone: the bytes of journals, damaged files,
//! scripts and their answers, and a disk that fails at each call.
#![tactic(auto)]

#[cfg(test)]
mod bench;
#[cfg(test)]
mod files;
#[cfg(test)]
mod full;
#[cfg(test)]
mod rows;
#[cfg(test)]
mod stops;
