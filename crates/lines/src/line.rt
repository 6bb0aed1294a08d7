//! The lines of a text.

ghost use Rattle.std.specs.Prelude.{◌≡◌, ◌∷◌, [], length, ◌<◌};
ghost use Rattle.std.specs.List.{position};
ghost use Rattle.lines.specs.Lines.{between_lfs, is_lf, without_cr};

use std::marker::Model;

const CR: u8 = b'\r';

/// The lines of a text that are still to come, in order. Contracts see them as a list.
#[derive(Debug, Drop)]
pub struct Lines<'a> {
    rest: &'a [u8],
}

impl<'a> Model for Lines<'a> {
    ghost use Rattle.std.specs.Prelude.{List, ℕ};
    ghost use Rattle.lines.specs.Lines.{lines_of};

    ghost Value = { List (List ℕ) };

    ghost view = { λ s. lines_of s.rest.now };
}

impl<'a> Lines<'a> {
    ghost use Rattle.lines.specs.Lines.{lines_of};

    /// All lines of a text.
    pub fn new(bytes: &'a [u8]) -> Self
        ensures { result ≡ lines_of bytes.now }
    {
        Lines { rest: bytes }
    }
}

impl<'a> Iterator for Lines<'a> {
    ghost use Rattle.std.specs.Iterator.{YieldsFirstRef, item_count};

    type Item = &'a [u8];

    ghost next_gives = { YieldsFirstRef (λ s. s) };

    ghost remaining = { item_count (λ s. s) };

    fn next(&mut self) -> Option<&'a [u8]> {
        if self.rest.is_empty() {
            return None;
        }
        let (line, rest) = split_at_lf(self.rest);
        self.rest = rest;
        Some(drop_cr(line))
    }
}

/// What stands before the first LF, and what stands after it.
fn split_at_lf(bytes: &[u8]) -> (&[u8], &[u8])
    requires { 0 < length bytes.now }
    ensures { between_lfs bytes.now ≡ result.0.now ∷ between_lfs result.1.now }
{
    match first_lf(bytes) {
        Some(end) => (&bytes[..end], &bytes[end + 1..]),
        None => (bytes, &[]),
    }
}

/// Where the first LF stands.
fn first_lf(bytes: &[u8]) -> Option<usize>
    ensures { result ≡ position is_lf bytes.now }
{
    bytes.iter().position(|byte| *byte == b'\n')
}

/// The line without a CR at its end, where one stands there.
pub fn drop_cr(line: &[u8]) -> &[u8]
    ensures { result.now ≡ without_cr line.now }
{
    match line.split_last() {
        Some((last, front)) if *last == CR => front,
        _ => line,
    }
}
