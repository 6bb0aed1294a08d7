//! What is wrong with components and with the insulation of clusters.

use base::Items;

/// What is wrong with a component, with the reading that shows it.
#[derive(Clone, Copy, Debug, PartialEq, Eq)]
pub enum PartFaultKind {
    Low(u64),
    High(u64),
    OpenPart,
    WrongWay(u64),
    Leaky(u64),
}

/// A faulty component, by its number.
#[derive(Clone, Copy, Debug, PartialEq, Eq)]
pub struct PartFault {
    pub part: u32,
    pub kind: PartFaultKind,
}

/// A cluster whose insulation is too low, by its number. No reading is an arc.
#[derive(Clone, Copy, Debug, PartialEq, Eq)]
pub struct LeakFault {
    pub cluster: u32,
    pub reading: Option<u64>,
}

/// The faulty components, in order.
pub type PartFaults = Items<PartFault>;

/// The clusters whose insulation is too low, in order.
pub type LeakFaults = Items<LeakFault>;
