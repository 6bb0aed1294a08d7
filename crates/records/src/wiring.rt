//! How a unit is wired: pieces, shorts, and the three lists of a difference.

ghost use Rattle.std.specs.Prelude.{◌≡◌, ◌++◌, ◌↔◌, ◌≤◌, ◌*◌, IsTrue, OnOk, slice_index};
ghost use Rattle.records.specs.Orders.{pieces_before, shorts_before};
ghost use Rattle.records.specs.Reading.{Gives, piece_at, short_at, difference_at};
ghost use Rattle.records.specs.RecordBytes.{piece_bytes, short_bytes, difference_bytes};
ghost use Rattle.difference.specs.DifferenceRanges.{PieceBefore, ShortBefore, piece_points, short_nets};
ghost use Rattle.wirelist.specs.Ranges.{most_points, PieceInRange, ShortInRange, PiecesInRange, ShortsInRange, DifferenceInRange};

use crate::DecodeStop;
use crate::item::{Item, are_ordered, counted_of, write_counted};
use crate::numbers::u16_at;
use crate::points::MOST_POINTS;
use base::{Bytes, Memory};
use difference::{Difference, Piece, Pieces, Short, Shorts};
use partition::{NetNumbers, Point, PointList};
use std::alloc::Global;

/// A piece: its net, its class, and its counted points.
impl Item for Piece {
    ghost spelling = { piece_bytes };

    ghost reading = { piece_at };

    ghost InRange = { PieceInRange };

    ghost Before = { PieceBefore };

    ghost before_is_transitive = { pieces_before };

    #[tactic(auto, unfolding(crate::specs::Reading::piece_at))]
    fn read(alloc: Global, bytes: &[u8]) -> Result<(Self, &[u8]), DecodeStop> {
        let (net, rest) = u16_at(bytes)?;
        let (class, rest) = u16_at(rest)?;
        let (points, rest) = counted_of(alloc, rest)?;
        let piece = Piece {
            net: net as u32,
            class: Point(class),
            points: PointList::from_vec(points),
        };
        Ok((piece, rest))
    }

    fn write(&self, out: &mut Bytes) -> Result<(), Memory> {
        out.append(&(self.net as u16).to_be_bytes())?;
        self.class.write(out)?;
        write_counted(self.points.as_slice(), out)
    }

    fn in_range(&self) -> bool {
        if self.net >= MOST_POINTS || !self.class.in_range() || self.points.is_empty() {
            return false;
        }
        are_ordered(self.points.as_slice())
    }

    fn before(&self, other: &Self) -> bool {
        self.net < other.net || (self.net == other.net && self.class.0 < other.class.0)
    }
}

/// A short: its class, and its counted nets.
impl Item for Short {
    ghost spelling = { short_bytes };

    ghost reading = { short_at };

    ghost InRange = { ShortInRange };

    ghost Before = { ShortBefore };

    ghost before_is_transitive = { shorts_before };

    #[tactic(auto, unfolding(crate::specs::Reading::short_at))]
    fn read(alloc: Global, bytes: &[u8]) -> Result<(Self, &[u8]), DecodeStop> {
        let (class, rest) = u16_at(bytes)?;
        let (nets, rest) = counted_of(alloc, rest)?;
        let short = Short {
            class: Point(class),
            nets: NetNumbers::from_vec(nets),
        };
        Ok((short, rest))
    }

    fn write(&self, out: &mut Bytes) -> Result<(), Memory> {
        self.class.write(out)?;
        write_counted(self.nets.as_slice(), out)
    }

    fn in_range(&self) -> bool {
        if !self.class.in_range() || self.nets.len() < 2 {
            return false;
        }
        are_ordered(self.nets.as_slice())
    }

    fn before(&self, other: &Self) -> bool {
        first_net(self) < first_net(other)
    }
}

/// The first net of a short, 0 where it has none.
fn first_net(short: &Short) -> u32
    ensures { result ≡ slice_index short.now.nets 0 }
{
    match short.nets.as_slice() {
        [] => 0,
        [first, ..] => *first,
    }
}

/// The difference at the front, and what follows it.
#[tactic(auto, unfolding(crate::specs::Reading::difference_at))]
pub(crate) fn difference_of(alloc: Global, bytes: &[u8]) -> Result<(Difference, &[u8]), DecodeStop>
    ensures { Gives (λ x. (x.0, x.1.now)) result (difference_at bytes.now) }
{
    let (opens, rest) = counted_of(alloc, bytes)?;
    let (shorts, rest) = counted_of(alloc, rest)?;
    let (miswires, rest) = counted_of(alloc, rest)?;
    let difference = Difference {
        opens: Pieces::from_vec(opens),
        shorts: Shorts::from_vec(shorts),
        miswires: Pieces::from_vec(miswires),
    };
    Ok((difference, rest))
}

/// Appends the spelling of a difference.
pub(crate) fn write_difference(difference: &Difference, out: &mut Bytes) -> Result<(), Memory>
    requires { DifferenceInRange difference.now }
    ensures { OnOk result (out.new ≡ out.old ++ difference_bytes difference.now) }
{
    write_counted(difference.opens.as_slice(), out)?;
    write_counted(difference.shorts.as_slice(), out)?;
    write_counted(difference.miswires.as_slice(), out)
}

/// Whether a difference is in the ranges of records.
pub(crate) fn is_difference(difference: &Difference) -> bool
    ensures { IsTrue result ↔ DifferenceInRange difference.now }
{
    let opens = difference.opens.as_slice();
    let shorts = difference.shorts.as_slice();
    let miswires = difference.miswires.as_slice();
    if !are_pieces(opens) {
        return false;
    }
    if !are_shorts(shorts) {
        return false;
    }
    if !are_pieces(miswires) {
        return false;
    }
    points_of(opens) + points_of(miswires) <= MOST_POINTS as u64
        && nets_of(shorts) <= MOST_POINTS as u64
}

/// How many points the pieces have.
fn points_of(pieces: &[Piece]) -> u64
    requires { PiecesInRange pieces.now }
    ensures total { result ≡ piece_points pieces.now }
    ensures few { result ≤ most_points * most_points }
{
    let mut points = 0;
    for piece in pieces {
        points += piece.points.len() as u64;
    }
    points
}

/// How many nets the shorts have.
fn nets_of(shorts: &[Short]) -> u64
    requires { ShortsInRange shorts.now }
    ensures { result ≡ short_nets shorts.now }
{
    let mut nets = 0;
    for short in shorts {
        nets += short.nets.len() as u64;
    }
    nets
}

/// Whether a list of pieces is in range.
fn are_pieces(pieces: &[Piece]) -> bool
    ensures { IsTrue result ↔ PiecesInRange pieces.now }
{
    if pieces.len() > MOST_POINTS as usize {
        return false;
    }
    are_ordered(pieces)
}

/// Whether a list of shorts is in range.
fn are_shorts(shorts: &[Short]) -> bool
    ensures { IsTrue result ↔ ShortsInRange shorts.now }
{
    if shorts.len() > MOST_POINTS as usize {
        return false;
    }
    are_ordered(shorts)
}
