//! The door that connections come through: one in memory, and one of the system's sockets.
//!
//! - A [`Door`] hands out the connections that wait, in order, and takes each back when it is finished. A connection is read and
//!   written as any source and sink; it comes with nothing written to it and no fault counted.
//! - A refused call leaves the connections that wait and those that are finished as they were, and answers `Failed` only where the
//!   door's count of faults rose. To finish a connection takes no memory and cannot be refused: `accept` makes the room for it.
//! - [`MemDoor`] and [`MemConn`] tell all that came and went, and fail exactly at the calls whose numbers they were given.
//! - [`TcpDoor`] listens on 127.0.0.1 alone. It tells nothing of what comes and goes: that a real socket does what it says is trusted.
#![tactic(auto)]

mod conn;
mod door;
mod memory;
mod tcp;

pub use conn::{ConnList, MemConn};
pub use door::Door;
pub use memory::MemDoor;
pub use tcp::{TcpConn, TcpDoor};

#[cfg(test)]
mod tests;
