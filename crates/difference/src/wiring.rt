//! By what a measured partition differs from the nets.

use partition::{NetNumbers, Point, PointList};
use std::marker::Model;

/// The points of a net in a class that is not the net's home. `class` is the class's anchor.
#[derive(Debug, Drop)]
pub struct Piece {
    pub net: u32,
    pub class: Point,
    pub points: PointList,
}

/// A list of pieces.
#[derive(Debug, Drop)]
pub struct Pieces {
    pieces: Vec<Piece>,
}

impl Model for Pieces {
    ghost use Rattle.std.specs.Prelude.{List};
    ghost use Rattle.difference.specs.declared.wiring.Piece.{Piece};

    ghost Value = { List Piece };

    ghost view = { λ l. l.pieces.items };
}

impl Pieces {
    ghost use Rattle.std.specs.Prelude.{◌≡◌, length};

    /// The list of a `Vec`, which takes no memory.
    pub fn from_vec(pieces: Vec<Piece>) -> Self
        ensures { result ≡ pieces.items }
    {
        Pieces { pieces }
    }

    pub fn as_slice(&self) -> &[Piece]
        ensures { result.now ≡ self.now }
    {
        self.pieces.as_slice()
    }

    pub fn len(&self) -> usize
        ensures { result ≡ length self.now }
    {
        self.pieces.len()
    }
}

/// Nets with one home. `class` is the class's anchor.
#[derive(Debug, Drop)]
pub struct Short {
    pub class: Point,
    pub nets: NetNumbers,
}

/// A list of shorts.
#[derive(Debug, Drop)]
pub struct Shorts {
    shorts: Vec<Short>,
}

impl Model for Shorts {
    ghost use Rattle.std.specs.Prelude.{List};
    ghost use Rattle.difference.specs.declared.wiring.Short.{Short};

    ghost Value = { List Short };

    ghost view = { λ l. l.shorts.items };
}

impl Shorts {
    ghost use Rattle.std.specs.Prelude.{◌≡◌, length};

    /// The list of a `Vec`, which takes no memory.
    pub fn from_vec(shorts: Vec<Short>) -> Self
        ensures { result ≡ shorts.items }
    {
        Shorts { shorts }
    }

    pub fn as_slice(&self) -> &[Short]
        ensures { result.now ≡ self.now }
    {
        self.shorts.as_slice()
    }

    pub fn len(&self) -> usize
        ensures { result ≡ length self.now }
    {
        self.shorts.len()
    }
}

/// The opens, the shorts and the miswires.
#[derive(Debug, Drop)]
pub struct Difference {
    pub opens: Pieces,
    pub shorts: Shorts,
    pub miswires: Pieces,
}
