//! The resistance along the joins.

/// What four wires read between two points.
#[derive(Clone, Copy, Debug, PartialEq, Eq)]
pub enum Path {
    /// The points are not joined.
    Apart,
    /// Their class has a loop.
    Loop,
    /// The milliohms along the one walk of joins between them.
    Sum(u64),
}
