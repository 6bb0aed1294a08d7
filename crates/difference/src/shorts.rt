//! The classes that are home to several nets.

ghost use Rattle.std.specs.Prelude.{◌≡◌, [], replicate, IfOk};
ghost use Rattle.partition.specs.NetTable.{net_count};
ghost use Rattle.difference.specs.Difference.{shorts_of};
ghost use Rattle.difference.specs.Measured.{AreHomes, IsMeasured};

use crate::{Short, Shorts};
use base::Memory;
use partition::{NetNumbers, Nets, Partition};
use std::alloc::Global;

/// A class that is home to so many nets is no short.
const LONE: usize = 1;

/// The classes that are home to two nets or more, in order of first net.
pub(crate) fn shorts(alloc: Global, nets: &Nets, measured: &Partition) -> Result<Shorts, Memory>
    requires { IsMeasured nets.now measured.now }
    ensures { IfOk result (λ shorts. shorts ≡ shorts_of nets.now measured.now) }
{
    let homes = nets_at_homes(alloc, nets, measured)?;
    let mut shorts = Vec::new(alloc);
    for i in 0..nets.count() {
        let class = nets.head(i);
        let homed = homes[measured.class_of(class).index()].as_slice();
        if homed.len() > LONE && homed[0] == i {
            let nets = NetNumbers::from_slice(alloc, homed)?;
            shorts.push(Short { class, nets })?;
        }
    }
    Ok(Shorts::from_vec(shorts))
}

/// The nets whose home is each class, ascending, at the class's number.
fn nets_at_homes(
    alloc: Global,
    nets: &Nets,
    measured: &Partition,
) -> Result<Vec<NetNumbers>, Memory>
    requires { IsMeasured nets.now measured.now }
    ensures { IfOk result (λ homes. AreHomes nets.now measured.now (net_count nets.now) homes.items) }
{
    let mut homes = no_numbers(alloc, nets.points())?;
    for i in 0..nets.count() {
        homes[measured.class_of(nets.head(i)).index()].push(i)?;
    }
    Ok(homes)
}

/// So many lists without numbers.
fn no_numbers(alloc: Global, count: u16) -> Result<Vec<NetNumbers>, Memory>
    ensures { IfOk result (λ lists. lists.items ≡ replicate count []) }
{
    let mut lists = Vec::new(alloc);
    for _ in 0..count {
        lists.push(NetNumbers::new(alloc))?;
    }
    Ok(lists)
}
