//! The rows of a harness file.

ghost use Rattle.std.specs.Prelude.{◌≡◌, ◌≢◌, ◌↔◌, ◌≤◌, ℕ, List, [], ◌∷◌, codes, IsTrue, IfSome, IfNone, MatchOption};
ghost use Rattle.std.specs.Fmt.{decimal};
ghost use Rattle.rig.specs.declared.unit.Row.{Row as UnitRow};
ghost use Rattle.harness.specs.Rows.{row_words, InRange, AreElement, AreRow, IsRow, most_point};

use lines::{Words, read_number};
use partition::{Name, Point};
use rig::Row;

/// The greatest milliohms of a resistor, and the greatest picosiemens of a leak.
const MOST_VALUE: u64 = 1_000_000_000_000;

/// A row of a harness file.
#[derive(Clone, Copy, Debug)]
pub enum HarnessRow {
    /// The number of points.
    Points(u16),
    /// The rig call with this number, from 1, fails.
    Fault(u64),
    /// The interlock reading with this number, from 1, is open.
    Door(u64),
    /// The rows below are those of this serial and attempt.
    NewUnit(Name, u8),
    /// A row of the unit above.
    Element(Row),
    /// The last row.
    End,
}

/// The row that a line is, or None where it is none. Takes no memory.
pub(crate) fn read_row(line: &[u8]) -> Option<HarnessRow>
    ensures row { IfSome result (λ row. IsRow line.now row) }
    ensures none { IfNone result ((row : HarnessRow) → IsRow line.now row → ⊥) }
{
    let mut words = Words::new(line);
    let kind = words.next()?;
    if is_word(kind, b"points") {
        read_points(words)
    } else if is_word(kind, b"fault") {
        Some(HarnessRow::Fault(read_call(words)?))
    } else if is_word(kind, b"door") {
        Some(HarnessRow::Door(read_call(words)?))
    } else if is_word(kind, b"unit") {
        read_unit(words)
    } else if is_word(kind, b"end") {
        read_end(words)
    } else {
        Some(HarnessRow::Element(read_element(kind, words)?))
    }
}

/// Whether the two words are one.
fn is_word(word: &[u8], other: &[u8]) -> bool
    ensures { IsTrue result ↔ (word.now ≡ other.now) }
{
    word == other
}

/// A `points` row, from the words after its kind.
fn read_points(words: Words) -> Option<HarnessRow>
    ensures row { IfSome result (AreRow (codes "points" ∷ words.entry)) }
    ensures none { IfNone result ((n : ℕ) → InRange (HarnessRow.Points n) → words.entry ≢ decimal n ∷ []) }
{
    let number = read_number(only_word(words)?, 1, 4096)?;
    Some(HarnessRow::Points(number as u16))
}

/// The number of a call, from the words after the kind of its row.
fn read_call(words: Words) -> Option<u64>
    ensures row { IfSome result (λ k. (words.entry ≡ decimal k ∷ []) × (1 ≤ k) × (k ≤ 1000000000)) }
    ensures none { IfNone result ((k : ℕ) → 1 ≤ k → k ≤ 1000000000 → words.entry ≢ decimal k ∷ []) }
{
    read_number(only_word(words)?, 1, 1_000_000_000)
}

/// A `unit` row, from the words after its kind.
fn read_unit(words: Words) -> Option<HarnessRow>
    ensures row { IfSome result (AreRow (codes "unit" ∷ words.entry)) }
    ensures none { IfNone result ((serial : List ℕ) (attempt : ℕ) → InRange (HarnessRow.NewUnit serial attempt) → words.entry ≢ serial ∷ decimal attempt ∷ []) }
{
    let (serial, attempt) = two_words(words)?;
    let serial = Name::read(serial)?;
    let attempt = read_number(attempt, 1, 9)?;
    Some(HarnessRow::NewUnit(serial, attempt as u8))
}

/// The `end` row, from the words after its kind.
fn read_end(mut words: Words) -> Option<HarnessRow>
    ensures row { IfSome result (AreRow (codes "end" ∷ words.entry)) }
    ensures none { IfNone result (words.entry ≢ []) }
{
    match words.next() {
        None => Some(HarnessRow::End),
        Some(_) => None,
    }
}

/// A row of a unit, from its kind and the words after it.
fn read_element(kind: &[u8], words: Words) -> Option<Row>
    ensures row { IfSome result (AreElement (kind.now ∷ words.entry)) }
    ensures none { IfNone result ((row : UnitRow) → AreElement (kind.now ∷ words.entry) row → ⊥) }
{
    if is_word(kind, b"wire") {
        let (a, b) = read_wire(words)?;
        Some(Row::Wire(a, b))
    } else if is_word(kind, b"resistor") {
        let (a, b, milliohms) = read_valued(words, MOST_VALUE)?;
        Some(Row::Resistor(a, b, milliohms))
    } else if is_word(kind, b"diode") {
        let (from, to, millivolts) = read_valued(words, 5000)?;
        Some(Row::Diode(from, to, millivolts as u32))
    } else if is_word(kind, b"leak") {
        let (a, b, picosiemens) = read_valued(words, MOST_VALUE)?;
        Some(Row::Leak(a, b, picosiemens))
    } else if is_word(kind, b"arc") {
        let (a, b, volts) = read_valued(words, 2000)?;
        Some(Row::Arc(a, b, volts as u16))
    } else if is_word(kind, b"charge") {
        let (volts, ticks) = read_charge(words)?;
        Some(Row::Charge(volts, ticks))
    } else {
        None
    }
}

/// Two points.
fn read_wire(words: Words) -> Option<(Point, Point)>
    ensures row { IfSome result (λ w. (words.entry ≡ decimal w.0 ∷ decimal w.1 ∷ []) × (w.0 ≤ most_point) × (w.1 ≤ most_point)) }
    ensures none { IfNone result ((a b : ℕ) → a ≤ most_point → b ≤ most_point → words.entry ≢ decimal a ∷ decimal b ∷ []) }
{
    let (a, b) = two_words(words)?;
    Some((read_point(a)?, read_point(b)?))
}

/// Two points, and a value from 1 to the greatest.
fn read_valued(mut words: Words, most: u64) -> Option<(Point, Point, u64)>
    ensures row { IfSome result (λ w. (words.entry ≡ decimal w.0 ∷ decimal w.1 ∷ decimal w.2 ∷ [])
        × (w.0 ≤ most_point) × (w.1 ≤ most_point) × (1 ≤ w.2) × (w.2 ≤ most)) }
    ensures none { IfNone result ((a b n : ℕ) → a ≤ most_point → b ≤ most_point → 1 ≤ n → n ≤ most → words.entry ≢ decimal a ∷ decimal b ∷ decimal n ∷ []) }
{
    let a = words.next()?;
    let (b, value) = two_words(words)?;
    Some((read_point(a)?, read_point(b)?, read_number(value, 1, most)?))
}

/// The volts and the ticks of a charge.
fn read_charge(words: Words) -> Option<(u16, u16)>
    ensures row { IfSome result (λ w. (words.entry ≡ decimal w.0 ∷ decimal w.1 ∷ []) × (w.0 ≤ 2000) × (w.1 ≤ 1000)) }
    ensures none { IfNone result ((v x : ℕ) → v ≤ 2000 → x ≤ 1000 → words.entry ≢ decimal v ∷ decimal x ∷ []) }
{
    let (volts, ticks) = two_words(words)?;
    let volts = read_number(volts, 0, 2000)?;
    let ticks = read_number(ticks, 0, 1000)?;
    Some((volts as u16, ticks as u16))
}

/// A point that a word is.
fn read_point(word: &[u8]) -> Option<Point>
    ensures point { IfSome result (λ p. (word.now ≡ decimal p) × (p ≤ most_point)) }
    ensures none { IfNone result ((p : ℕ) → p ≤ most_point → word.now ≢ decimal p) }
{
    let number = read_number(word, 0, 65_535)?;
    Some(Point(number as u16))
}

/// The word, where there is one word.
fn only_word<'a>(mut words: Words<'a>) -> Option<&'a [u8]>
    ensures one { IfSome result (λ word. words.entry ≡ word.now ∷ []) }
    ensures none { IfNone result ((word : List ℕ) → words.entry ≢ word ∷ []) }
{
    let word = words.next()?;
    match words.next() {
        None => Some(word),
        Some(_) => None,
    }
}

/// The words, where there are two.
fn two_words<'a>(mut words: Words<'a>) -> Option<(&'a [u8], &'a [u8])>
    ensures two { IfSome result (λ pair. words.entry ≡ pair.0.now ∷ pair.1.now ∷ []) }
    ensures none { IfNone result ((one other : List ℕ) → words.entry ≢ one ∷ other ∷ []) }
{
    let one = words.next()?;
    let other = only_word(words)?;
    Some((one, other))
}
