//! The nets of a wirelist.

ghost use Rattle.std.specs.Prelude.{◌≡◌, ℕ, ◌+◌, ◌<◌, ◌≤◌, ◌^◌, List, [], length, map, replicate, None, Some, slice_get, slice_index_or, IfOk, IfErr};
ghost use Rattle.std.specs.Prelude.{OnOk, ◌⊎◌, ◌↔◌, IsTrue};
ghost use Rattle.std.specs.List.Sorted.{IsStrictlyIncreasing};
ghost use Rattle.partition.specs.Classes.{points_below, has};
ghost use Rattle.partition.specs.Claims.{nobody, ClaimedTo, ClaimedIn, ClaimedAll, faults_in, faults_to, owned_by, NumberedAlone, IsKeptNets};
ghost use Rattle.partition.specs.NetFaults.{net_faults, first_fault, ascending_net, table_of};

use crate::lists::same_points;
use crate::{NetLists, Point, PointList};
use base::Memory;
use std::alloc::{AllocError, Global};
use std::marker::Model;

/// Why some lists of points are no nets.
#[derive(Clone, Copy, Debug, PartialEq, Eq)]
pub enum NetsRefusal {
    /// A point that the matrix does not have.
    OutOfRange(Point),
    /// A point that was listed before.
    Twice(Point),
    /// The number of a net without points.
    EmptyNet(u32),
    /// Every point is ignored.
    NoneJudged,
    /// Memory ran out.
    Memory,
}

impl From<Memory> for NetsRefusal {
    ghost use Rattle.partition.specs.declared.nets.NetsRefusal.{NetsRefusal};

    ghost from_gives = { λ x y. y ≡ NetsRefusal.Memory };

    fn from(_: Memory) -> Self {
        NetsRefusal::Memory
    }
}

impl From<AllocError> for NetsRefusal {
    ghost use Rattle.partition.specs.declared.nets.NetsRefusal.{NetsRefusal};

    ghost from_gives = { λ x y. y ≡ NetsRefusal.Memory };

    fn from(_: AllocError) -> Self {
        NetsRefusal::Memory
    }
}

/// The owner of a point of no net.
pub const NOBODY: u32 = u32::MAX;

/// Nets over the points 0 to n-1: named ones in order, then each other point as a net of its own, in order of point.
#[derive(Debug, Drop)]
pub struct Nets {
    points: u16,
    named: NetLists,
    /// The number of each point's net, and nobody at a point that does not count.
    numbers: Vec<u32>,
    /// The points of no named net that count.
    alone: PointList,
    /// The points that do not count, ascending.
    ignored: PointList,
}

impl Model for Nets {
    ghost use Rattle.partition.specs.NetTable.{NetTable};
    ghost use Rattle.partition.specs.Claims.{IsKeptNets};

    ghost Value = { NetTable };

    ghost view = { λ n. record { points = n.points; named = n.named; ignored = n.ignored } };

    ghost invariant = { λ n. IsKeptNets (record { points = n.points; named = n.named; ignored = n.ignored }) n.numbers.items n.alone };
}

impl Nets {
    ghost use Rattle.partition.specs.NetTable.{IsNetTable, all_nets, head_of, judged_points, net_at, net_count};

    /// The nets of the lists over n points, all of which count: `judging` with nothing ignored.
    pub fn new(alloc: Global, n: u16, lists: NetLists) -> Result<Self, NetsRefusal>
        requires { 1 ≤ n }
        ensures nets { IfOk result (λ nets. nets ≡ table_of n lists []) }
        ensures all { IfOk result (λ nets. nets.ignored ≡ []) }
        ensures faultless { OnOk result (first_fault n lists [] ≡ None) }
        ensures refused { IfErr result (λ e. (e ≡ NetsRefusal.Memory) ⊎ (first_fault n lists [] ≡ Some e)) }
    {
        Nets::judging(alloc, n, lists, PointList::new(alloc))
    }

    /// The nets of the lists over n points, of which the ignored ones do not count, or the first fault of these: in order of net, then of point as listed;
    /// then of ignored point as listed; and last that no point counts.
    pub fn judging(
        alloc: Global,
        n: u16,
        lists: NetLists,
        ignored: PointList,
    ) -> Result<Self, NetsRefusal>
        requires { 1 ≤ n }
        ensures nets { IfOk result (λ nets. nets ≡ table_of n lists ignored) }
        ensures faultless { OnOk result (first_fault n lists ignored ≡ None) }
        ensures refused { IfErr result (λ e. (e ≡ NetsRefusal.Memory) ⊎ (first_fault n lists ignored ≡ Some e)) }
    {
        let mut numbers = vec![in alloc; NOBODY; n as usize]?;
        let groups = number_all(alloc, &mut numbers, lists, ignored)?;
        Ok(Nets {
            points: n,
            named: groups.named,
            numbers,
            alone: groups.alone,
            ignored: groups.ignored,
        })
    }

    /// The same nets again.
    pub fn copy(&self, alloc: Global) -> Result<Self, Memory>
        ensures { IfOk result (λ nets. nets ≡ self.now) }
    {
        let named = self.named.copy(alloc)?;
        let numbers = Vec::from_slice(alloc, self.numbers.as_slice())?;
        let alone = PointList::from_slice(alloc, self.alone.as_slice())?;
        let ignored = PointList::from_slice(alloc, self.ignored.as_slice())?;
        Ok(Nets {
            points: self.points,
            named,
            numbers,
            alone,
            ignored,
        })
    }

    /// Whether two tables have as many points and the same named nets in the same order. Takes no memory.
    pub fn equal(&self, other: &Nets) -> bool
        ensures { IsTrue result ↔ (other.now ≡ self.now) }
    {
        other.points == self.points
            && self.named.equal(&other.named)
            && same_points(other.ignored.as_slice(), self.ignored.as_slice())
    }

    /// How many points the matrix has.
    pub fn points(&self) -> u16
        ensures points { result ≡ self.now.points }
        ensures valid { IsNetTable self.now }
    {
        self.points
    }

    /// How many nets are named.
    pub fn named(&self) -> u32
        ensures named { result ≡ length self.now.named }
        ensures valid { IsNetTable self.now }
    {
        self.named.len() as u32
    }

    /// How many nets there are, at most one for each point.
    pub fn count(&self) -> u32
        ensures count { result ≡ net_count self.now }
        ensures few { result ≤ self.now.points }
    {
        (self.named.len() + self.alone.len()) as u32
    }

    /// The points of a net, ascending. Takes no memory.
    pub fn net(&self, i: u32) -> &[Point]
        requires { i < net_count self.now }
        ensures net { result.now ≡ slice_index_or (all_nets self.now) i [] }
        ensures some { 0 < length result.now }
        ensures ascending { IsStrictlyIncreasing result.now }
        ensures valid { IsNetTable self.now }
    {
        let i = i as usize;
        if i < self.named.len() {
            self.named.net(i)
        } else {
            let at = i - self.named.len();
            &self.alone.as_slice()[at..at + 1]
        }
    }

    /// The head of a net: its least point. Takes no memory.
    pub fn head(&self, i: u32) -> Point
        requires { i < net_count self.now }
        ensures head { result ≡ head_of (slice_index_or (all_nets self.now) i []) }
        ensures judged { IsTrue (has (judged_points self.now) result) }
    {
        self.net(i)[0]
    }

    /// Whether a point counts. Takes no memory.
    pub fn judged(&self, point: Point) -> bool
        requires { point < self.now.points }
        ensures { result ≡ has (judged_points self.now) point }
    {
        self.numbers[point.index()] != NOBODY
    }

    /// How many points count, one at least. Takes no memory.
    pub fn judged_count(&self) -> u32
        ensures count { result ≡ length (judged_points self.now) }
        ensures some { 1 ≤ result }
    {
        self.points as u32 - self.ignored.len() as u32
    }

    /// The points that do not count, ascending. Takes no memory.
    pub fn ignored(&self) -> &[Point]
        ensures ignored { result.now ≡ self.now.ignored }
        ensures valid { IsNetTable self.now }
    {
        self.ignored.as_slice()
    }

    /// The number of the net of a point that counts. Takes no memory.
    pub fn net_of(&self, point: Point) -> u32
        requires { IsTrue (has (judged_points self.now) point) }
        ensures number { result ≡ net_at self.now point }
        ensures net { result < net_count self.now }
    {
        self.numbers[point.index()]
    }
}

/// All points in groups, each ascending.
#[derive(Drop)]
struct Groups {
    /// Those of each named net.
    named: NetLists,
    /// Those of no named net that count.
    alone: PointList,
    /// Those that do not count.
    ignored: PointList,
}

/// Writes the number of each point's net, and gives the points in groups.
fn number_all(
    alloc: Global,
    numbers: &mut [u32],
    mut lists: NetLists,
    ignored: PointList,
) -> Result<Groups, NetsRefusal>
    requires free { numbers.old ≡ replicate (length numbers.old) nobody }
    requires small { length numbers.old < 2 ^ 16 }
    ensures kept { IfOk result (λ groups.
        IsKeptNets (record { points = length numbers.old; named = groups.named; ignored = groups.ignored }) numbers.new groups.alone) }
    ensures named { IfOk result (λ groups. groups.named ≡ map (ascending_net (length numbers.old)) lists) }
    ensures ignored { IfOk result (λ groups. groups.ignored ≡ ascending_net (length numbers.old) ignored) }
    ensures faultless { OnOk result (first_fault (length numbers.old) lists ignored ≡ None) }
    ensures refused { IfErr result (λ e. (e ≡ NetsRefusal.Memory) ⊎ (first_fault (length numbers.old) lists ignored ≡ Some e)) }
{
    let nets = lists.len();
    lists.push(ignored)?;
    claim_all(numbers, &lists, nets)?;
    let named = grouped(alloc, numbers, nets)?;
    let ignored = owned_points(alloc, numbers, nets as u32)?;
    if ignored.len() == numbers.len() {
        return Err(NetsRefusal::NoneJudged);
    }
    let alone = number_alone(alloc, numbers, nets)?;
    Ok(Groups {
        named,
        alone,
        ignored,
    })
}

/// Writes the owner of each listed point, or finds the first fault. The lists are the nets and, as the last one, the ignored points.
fn claim_all(owners: &mut [u32], lists: &NetLists, nets: usize) -> Result<(), NetsRefusal>
    requires last { length lists.now ≡ nets + 1 }
    requires free { ClaimedTo lists.now 0 owners.old }
    requires small { length owners.old < 2 ^ 16 }
    ensures ok { OnOk result (ClaimedAll lists.now nets owners.new) }
    ensures err { IfErr result (λ e. slice_get (faults_to (length owners.old) lists.now nets) 0 ≡ Some e) }
{
    for i in 0..nets {
        claim_net(owners, lists, i)?;
    }
    claim(owners, lists, nets)
}

/// Writes the owner of each point of a net, or finds the net's first fault.
fn claim_net(owners: &mut [u32], lists: &NetLists, i: usize) -> Result<(), NetsRefusal>
    requires inside { i < length lists.now }
    requires before { ClaimedTo lists.now i owners.old }
    requires small { length owners.old < 2 ^ 16 }
    ensures ok { OnOk result (ClaimedTo lists.now (i + 1) owners.new) }
    ensures err { IfErr result (λ e. slice_get (net_faults (length owners.old) lists.now i) 0 ≡ Some e) }
{
    if lists.net(i).is_empty() {
        return Err(NetsRefusal::EmptyNet(i as u32));
    }
    claim(owners, lists, i)
}

/// Writes the owner of each point of a list, or finds the first fault of these.
fn claim(owners: &mut [u32], lists: &NetLists, i: usize) -> Result<(), NetsRefusal>
    requires inside { i < length lists.now }
    requires before { ClaimedTo lists.now i owners.old }
    requires small { length owners.old < 2 ^ 16 }
    ensures ok { OnOk result (ClaimedIn lists.now i owners.new) }
    ensures err { IfErr result (λ e. slice_get (faults_in (length owners.old) lists.now i) 0 ≡ Some e) }
{
    let net = i as u32;
    let points = lists.net(i);
    for point in points {
        let at = point.index();
        if at >= owners.len() {
            return Err(NetsRefusal::OutOfRange(*point));
        }
        if owners[at] != NOBODY {
            return Err(NetsRefusal::Twice(*point));
        }
        owners[at] = net;
    }
    Ok(())
}

/// The points of each owner below the count, ascending.
pub fn grouped(alloc: Global, owners: &[u32], count: usize) -> Result<NetLists, Memory>
    requires small { length owners.now < 2 ^ 16 }
    requires few { count < 2 ^ 16 }
    ensures { IfOk result (λ lists. lists ≡ map (owned_by owners.now) (points_below count)) }
{
    let mut lists = NetLists::empty_nets(alloc, count)?;
    for (p, owner) in owners.iter().enumerate() {
        let owner = *owner as usize;
        if owner < count {
            lists.add(owner, Point(p as u16))?;
        }
    }
    Ok(lists)
}

/// The points of one owner, ascending.
fn owned_points(alloc: Global, owners: &[u32], owner: u32) -> Result<PointList, Memory>
    requires small { length owners.now < 2 ^ 16 }
    ensures { IfOk result (λ list. list ≡ owned_by owners.now owner) }
{
    let mut list = PointList::new(alloc);
    for (p, other) in owners.iter().enumerate() {
        if *other == owner {
            list.push(Point(p as u16))?;
        }
    }
    Ok(list)
}

/// The points of no list, each with a number of its own from now on, from `first` on. Those of list `first`, the ignored ones, are of no net from now on.
fn number_alone(alloc: Global, owners: &mut [u32], first: usize) -> Result<PointList, Memory>
    requires few { first < 2 ^ 16 }
    requires small { length owners.old < 2 ^ 16 }
    ensures alone { IfOk result (λ alone. alone ≡ owned_by owners.old nobody) }
    ensures numbers { IfOk result (λ alone. NumberedAlone owners.old first alone owners.new) }
{
    let mut alone = PointList::new(alloc);
    for p in 0..owners.len() {
        if owners[p] == NOBODY {
            owners[p] = (first + alone.len()) as u32;
            alone.push(Point(p as u16))?;
        } else if owners[p] as usize == first {
            owners[p] = NOBODY;
        }
    }
    Ok(alone)
}
