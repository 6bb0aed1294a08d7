//! Why a command ends the station.

use rig::{Rig, Stuck};

/// Why a command ends the station. Each hands the rig and the disk back, and only in `NotZero` may the source stand at a voltage.
pub enum StepStop<R: Rig, D> {
    /// The disk failed. It is to be mounted again.
    Disk { rig: R, disk: D },
    /// Three zero calls failed.
    NotZero { stuck: Stuck<R>, disk: D },
    /// Memory ran out. The disk is to be mounted again.
    Memory { rig: R, disk: D },
}
