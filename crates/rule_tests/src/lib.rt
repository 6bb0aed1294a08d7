//! The rules of the station, seen at work. It has tests alone: what the book decides of the lines of a day, with answers typed
//! from the rules, and that a scan of the plain list decides the same, also of lists that no rule made.
#![tactic(auto)]

#[cfg(test)]
mod tests;
