//! Differences and what they describe, with memory at hand.

ghost use Rattle.std.specs.Prelude.{◌≡◌, true};
ghost use Rattle.difference.specs.Measured.{IsMeasured};

use crate::{Difference, Piece, Short, difference, rebuild};
use base::Memory;
use partition::{NetLists, Nets, NetsRefusal, Partition, Point, PointList, grouped};
use std::alloc::Global;
use std::process::Abort;
use std::test::Fail;

/// The nets of points, each given as the digit of its net: a point alone has `.`, one that does not count `-`.
fn nets_of(rt: &impl Abort, alloc: Global, digits: &[u8]) -> Result<Nets, Fail> {
    let mut owners = Vec::new(alloc);
    let mut ignored = PointList::new(alloc);
    assert!(rt; digits.len() >= 1 && digits.len() < 100);
    for (p, digit) in digits.iter().enumerate() {
        owners.push(number_of(*digit) as u32)?;
        if *digit == b'-' {
            ignored.push(Point(p as u16))?;
        }
    }
    assert!(rt; owners.len() < 100);
    let named = if digits.contains(&b'1') {
        2
    } else if digits.contains(&b'0') {
        1
    } else {
        0
    };
    let lists = grouped(alloc, &owners, named)?;
    Ok(Nets::judging(alloc, digits.len() as u16, lists, ignored)?)
}

/// The number of a digit, and a great one for another byte.
fn number_of(digit: u8) -> u16 {
    match digit {
        b'0'..=b'9' => (digit - b'0') as u16,
        b'a'..=b'f' => (digit - b'a') as u16 + 10,
        _ => 1000,
    }
}

/// The digit of a small number.
fn digit_of(number: u32) -> u8 {
    if number < 10 {
        b'0' + number as u8
    } else if number < 16 {
        b'a' + (number - 10) as u8
    } else {
        b'?'
    }
}

/// The partition of all n points under some wires, each given as two digits.
fn joined(rt: &impl Abort, alloc: Global, n: u16, wires: &[u8]) -> Result<Partition, Memory> {
    let mut whole = Partition::singles(alloc, n)?;
    for wire in wires.chunks_exact(2) {
        let a = number_of(wire[0]);
        let b = number_of(wire[1]);
        assert!(rt; a < whole.points() && b < whole.points());
        assert!(rt; whole.judges(Point(a)) && whole.judges(Point(b)));
        whole.merge(Point(a), Point(b));
    }
    Ok(whole)
}

/// A partition of all points, cut down to those that count.
fn cut_down(
    rt: &impl Abort,
    alloc: Global,
    nets: &Nets,
    whole: &Partition,
) -> Result<Partition, NetsRefusal> {
    assert!(rt; nets.points() >= 1 && nets.points() == whole.points());
    let ignored = PointList::from_slice(alloc, nets.ignored())?;
    let alone = Nets::judging(alloc, nets.points(), NetLists::new(alloc), ignored)?;
    let mut measured = Partition::of_nets(alloc, &alone)?;
    for p in 0..whole.points() {
        for q in 0..p {
            let (a, b) = (Point(p), Point(q));
            assert!(rt; p < nets.points() && p < measured.points());
            if nets.judged(a) && nets.judged(b) && whole.same(a, b) {
                assert!(rt; measured.judges(a) && measured.judges(b));
                measured.merge(a, b);
            }
        }
    }
    Ok(measured)
}

/// Whether a partition is one of the points that the nets judge.
fn is_measured(nets: &Nets, measured: &Partition) -> bool
    ensures { result ≡ true → IsMeasured nets.now measured.now }
{
    if measured.points() != nets.points() {
        return false;
    }
    for p in 0..nets.points() {
        if measured.judges(Point(p)) != nets.judged(Point(p)) {
            return false;
        }
    }
    true
}

/// Writes the points of pieces, each as a letter and the digits of net, class and point.
fn write_pieces(text: &mut Vec<u8>, letter: u8, pieces: &[Piece]) -> Result<(), Memory> {
    for piece in pieces {
        for point in piece.points.as_slice() {
            text.push(letter)?;
            text.push(digit_of(piece.net))?;
            text.push(digit_of(piece.class.0 as u32))?;
            text.push(digit_of(point.0 as u32))?;
        }
    }
    Ok(())
}

/// Writes the nets of shorts, each as `s` and the digits of class and net.
fn write_shorts(text: &mut Vec<u8>, shorts: &[Short]) -> Result<(), Memory> {
    for short in shorts {
        for net in short.nets.as_slice() {
            text.push(b's')?;
            text.push(digit_of(short.class.0 as u32))?;
            text.push(digit_of(*net))?;
        }
    }
    Ok(())
}

/// The difference of a measured partition, and whether it gives the partition back.
fn found_and_given_back(
    alloc: Global,
    nets: &Nets,
    measured: &Partition,
) -> Result<(Difference, bool), Memory>
    requires { IsMeasured nets.now measured.now }
{
    let points = nets.points();
    let found = difference(alloc, nets, measured)?;
    let again = rebuild(alloc, nets, &found)?;
    let given_back = again.points() == points
        && measured.points() == points
        && again.equal(measured);
    Ok((found, given_back))
}

/// The difference of a unit with these wires is the one that is wanted, and gives the partition back.
fn check(
    rt: &impl Abort,
    alloc: Global,
    nets: &[u8],
    wires: &[u8],
    wanted: &[u8],
) -> Result<(), Fail> {
    let nets = nets_of(rt, alloc, nets)?;
    let whole = joined(rt, alloc, nets.points(), wires)?;
    let measured = cut_down(rt, alloc, &nets, &whole)?;
    assert!(rt; is_measured(&nets, &measured));
    let (found, given_back) = found_and_given_back(alloc, &nets, &measured)?;
    assert!(rt; given_back);
    let mut text = Vec::new(alloc);
    write_pieces(&mut text, b'o', found.opens.as_slice())?;
    write_shorts(&mut text, found.shorts.as_slice())?;
    write_pieces(&mut text, b'm', found.miswires.as_slice())?;
    assert!(rt; text.as_slice() == wanted);
    Ok(())
}

#[test]
fn a_swap_is_two_miswires(rt: HostRuntime) -> Result<(), Fail> {
    check(&rt, rt.alloc(), b"0011.", b"0123", b"")?;
    check(&rt, rt.alloc(), b"0011.", b"0312", b"m021m103")
}

#[test]
fn a_walk_passes_through_an_ignored_point(rt: HostRuntime) -> Result<(), Fail> {
    check(&rt, rt.alloc(), b"0011.", b"01231442", b"s00s01s02")?;
    check(&rt, rt.alloc(), b"0011-", b"01231442", b"s00s01")?;
    check(&rt, rt.alloc(), b"0011-", b"012334", b"")?;
    check(&rt, rt.alloc(), b"-.-.", b"011223", b"s10s11")
}

#[test]
fn a_point_is_alone_or_elsewhere(rt: HostRuntime) -> Result<(), Fail> {
    check(&rt, rt.alloc(), b"000...", b"01", b"o022")?;
    check(&rt, rt.alloc(), b"000...", b"0125", b"m052")?;
    check(&rt, rt.alloc(), b"....", b"03", b"s00s03")?;
    check(&rt, rt.alloc(), b"....", b"011223", b"s00s01s02s03")
}

#[test]
fn pieces_are_in_order_of_net_and_anchor(rt: HostRuntime) -> Result<(), Fail> {
    // Points 5 and 8 lie in a class whose anchor is 9, points 6 and 7 with point 1, and 2 with 10.
    check(
        &rt,
        rt.alloc(),
        b"111100000...",
        b"598567712a",
        b"o133m016m017m095m098m111m1a2",
    )
}
