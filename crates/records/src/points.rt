//! Points, and the numbers of nets.

ghost use Rattle.std.specs.Int.{w16};
ghost use Rattle.std.specs.Prelude.{◌<◌};
ghost use Rattle.records.specs.Reading.{number_at};
ghost use Rattle.records.specs.RecordBytes.{two_bytes};
ghost use Rattle.records.specs.Orders.{numbers_before};
ghost use Rattle.wirelist.specs.Ranges.{most_points};

use crate::DecodeStop;
use crate::item::Item;
use crate::numbers::u16_at;
use base::{Bytes, Memory};
use partition::Point;
use std::alloc::Global;

/// Points, nets and classes are numbered below this.
pub(crate) const MOST_POINTS: u32 = 4096;

/// A point of a piece, in two bytes.
impl Item for Point {
    ghost spelling = { two_bytes };

    ghost reading = { number_at w16 };

    ghost InRange = { λ p. p < most_points };

    ghost Before = { λ p q. p < q };

    ghost before_is_transitive = { numbers_before };

    fn read(_: Global, bytes: &[u8]) -> Result<(Self, &[u8]), DecodeStop> {
        let (number, rest) = u16_at(bytes)?;
        Ok((Point(number), rest))
    }

    fn write(&self, out: &mut Bytes) -> Result<(), Memory> {
        out.append(&self.0.to_be_bytes())
    }

    fn in_range(&self) -> bool {
        (self.0 as u32) < MOST_POINTS
    }

    fn before(&self, other: &Self) -> bool {
        self.0 < other.0
    }
}

/// The number of a net of a short, in two bytes.
impl Item for u32 {
    ghost spelling = { two_bytes };

    ghost reading = { number_at w16 };

    ghost InRange = { λ n. n < most_points };

    ghost Before = { λ m n. m < n };

    ghost before_is_transitive = { numbers_before };

    fn read(_: Global, bytes: &[u8]) -> Result<(Self, &[u8]), DecodeStop> {
        let (number, rest) = u16_at(bytes)?;
        Ok((number as u32, rest))
    }

    fn write(&self, out: &mut Bytes) -> Result<(), Memory> {
        out.append(&(*self as u16).to_be_bytes())
    }

    fn in_range(&self) -> bool {
        *self < MOST_POINTS
    }

    fn before(&self, other: &Self) -> bool {
        *self < *other
    }
}
