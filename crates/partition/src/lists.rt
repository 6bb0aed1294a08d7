//! Lists of groups of points, and of the numbers of nets.

ghost use Rattle.std.specs.Prelude.{◌≡◌, ◌↔◌, IsTrue};

use crate::{Point, PointList};
use base::{Items, Memory};
use std::alloc::Global;
use std::marker::Model;

/// A list of groups of points.
pub type PointLists = Items<PointList>;

/// Numbers of nets.
pub type NetNumbers = Items<u32>;

/// The nets of a wirelist as they are listed, each as its points.
#[derive(Debug, Drop)]
pub struct NetLists {
    lists: Vec<PointList>,
}

impl Model for NetLists {
    ghost use Rattle.std.specs.Prelude.{ℕ, List};

    ghost Value = { List (List ℕ) };

    ghost view = { λ l. l.lists.items };
}

impl NetLists {
    ghost use Rattle.std.specs.List.{concat};
    ghost use Rattle.std.specs.Prelude.{◌≡◌, ◌++◌, ◌∷◌, ◌<◌, ◌↔◌, [], length, slice_index_or, slice_set, replicate, IsTrue, IfOk, OnOk, OnErr};

    /// The empty list.
    pub fn new(alloc: Global) -> Self
        ensures { result ≡ [] }
    {
        NetLists {
            lists: Vec::new(alloc),
        }
    }

    pub fn len(&self) -> usize
        ensures { result ≡ length self.now }
    {
        self.lists.len()
    }

    /// The points of the net with this number.
    pub fn net(&self, i: usize) -> &[Point]
        requires { i < length self.now }
        ensures { result.now ≡ slice_index_or self.now i [] }
    {
        self.lists[i].as_slice()
    }

    /// The same lists again.
    pub fn copy(&self, alloc: Global) -> Result<Self, Memory>
        ensures { IfOk result (λ lists. lists ≡ self.now) }
    {
        let mut lists = Vec::new(alloc);
        for net in &self.lists {
            lists.push(PointList::from_slice(alloc, net.as_slice())?)?;
        }
        Ok(NetLists { lists })
    }

    /// Whether two lists have the same nets in the same order, each with its points as listed. Takes no memory.
    pub fn equal(&self, other: &NetLists) -> bool
        ensures { IsTrue result ↔ (other.now ≡ self.now) }
    {
        if other.len() != self.len() {
            return false;
        }
        for i in 0..self.len() {
            if !same_points(other.net(i), self.net(i)) {
                return false;
            }
        }
        true
    }

    /// A list of so many nets without points.
    pub fn empty_nets(alloc: Global, count: usize) -> Result<Self, Memory>
        ensures { IfOk result (λ lists. lists ≡ replicate count []) }
    {
        let mut lists = Vec::new(alloc);
        for _ in 0..count {
            lists.push(PointList::new(alloc))?;
        }
        Ok(NetLists { lists })
    }

    /// Appends a point to the net with this number.
    pub fn add(&mut self, i: usize, point: Point) -> Result<(), Memory>
        requires { i < length self.old }
        ensures ok { OnOk result (self.new ≡ slice_set self.old i (slice_index_or self.old i [] ++ point ∷ [])) }
        ensures err { OnErr result (self.new ≡ self.old) }
    {
        let net = &mut self.lists[i];
        net.push(point)
    }

    /// All points, those of one net after those of another.
    pub fn joined(&self, alloc: Global) -> Result<PointList, Memory>
        ensures { IfOk result (λ points. points ≡ concat self.now) }
    {
        let mut points = PointList::new(alloc);
        for net in &self.lists {
            points.append(net.as_slice())?;
        }
        Ok(points)
    }

    /// Appends a net.
    pub fn push(&mut self, net: PointList) -> Result<(), Memory>
        ensures ok { OnOk result (self.new ≡ self.old ++ net ∷ []) }
        ensures err { OnErr result (self.new ≡ self.old) }
    {
        self.lists.push(net)?;
        Ok(())
    }
}

/// Whether two slices have the same points.
pub(crate) fn same_points(a: &[Point], b: &[Point]) -> bool
    ensures { IsTrue result ↔ (a.now ≡ b.now) }
{
    a == b
}
