//! The two groups that an application is made between.

use partition::PointList;

/// Two groups of points.
#[derive(Debug, Drop)]
pub struct Sides {
    pub left: PointList,
    pub right: PointList,
}
