//! The permit to raise a voltage.

use crate::seat_number::SeatNumber;
use partition::Partition;
use std::marker::Model;

/// The leave to raise a voltage, in one seating, between groups that no class of its bonds meets both of. Contracts see the number
/// of the seating, the partition that was proven, and the bonds. `Proven::permit` alone makes one.
#[derive(Drop)]
pub struct Permit {
    seat: SeatNumber,
    partition: Partition,
    bonds: Partition,
}

impl Model for Permit {
    ghost use Rattle.rig.specs.Calls.{Permission};

    ghost Value = { Permission };

    ghost view = { λ p. record { seat = p.seat.number; partition = p.partition; bonds = p.bonds } };
}

impl Permit {
    ghost use Rattle.std.specs.Prelude.{◌≡◌};

    pub(crate) fn new(seat: SeatNumber, partition: Partition, bonds: Partition) -> Permit
        ensures { result ≡ record { seat = seat.number; partition = partition; bonds = bonds } }
    {
        Permit {
            seat,
            partition,
            bonds,
        }
    }
}
