//! Lists that the rules never made: the book and the scan of the list decide alike.

use super::{MAY_FIRST, add, empty_book, failed, is_alike, name, program};
use partition::Name;
use records::{Body, Staff};
use serials::{Book, Command, Decision, Rule};
use std::alloc::Global;
use std::test::Fail;
use wirelist::{Outcome, Program};

/// The next of some numbers that repeat late.
fn next(state: u64) -> u64 {
    state
        .wrapping_mul(6_364_136_223_846_793_005)
        .wrapping_add(1_442_695_040_888_963_407)
}

/// One of some choices, by the high bits of a number.
fn choice(state: u64, choices: u64) -> u64 {
    (state >> 33) % choices.max(1)
}

fn one_of(state: u64, names: [Name; 3]) -> Name {
    match choice(state, 3) {
        0 => names[0],
        1 => names[1],
        _ => names[2],
    }
}

fn staff_of(state: u64, names: [Name; 3]) -> Option<Staff> {
    match choice(state, 3) {
        0 => None,
        1 => Some(Staff {
            operator: names[0],
            fixture: names[1],
        }),
        _ => Some(Staff {
            operator: names[0],
            fixture: names[2],
        }),
    }
}

fn body_of(alloc: Global, kind: u64, state: u64, names: [Name; 3]) -> Result<Body, Fail> {
    let serial = one_of(next(state), names);
    Ok(match kind {
        0 => Body::Adopt(program(alloc, 1)?),
        1 => Body::Enrol(serial),
        2 => Body::Calibrate(if choice(state, 2) == 0 {
            19_843
        } else {
            19_844
        }),
        3 | 4 | 5 => Body::Tested {
            serial,
            attempt: 1,
            staff: staff_of(next(next(state)), names),
            outcome: if choice(state, 2) == 0 {
                Outcome::Pass
            } else {
                failed(alloc)
            },
        },
        6 => Body::Rework(serial),
        7 => Body::Release(serial),
        8 => Body::Scrap(serial),
        _ => Body::Mark,
    })
}

/// The commands of a serial with this id.
fn of_serial(id: Name, serial: Name, names: [Name; 3]) -> [Command; 7] {
    [
        Command::Enrol { id, serial },
        Command::Rework { id, serial },
        Command::Release { id, serial },
        Command::Scrap { id, serial },
        Command::Test {
            id,
            serial,
            staff: None,
        },
        Command::Test {
            id,
            serial,
            staff: staff_of(1 << 33, names),
        },
        Command::Test {
            id,
            serial,
            staff: staff_of(2 << 33, names),
        },
    ]
}

/// Whether the book and the scan of the list decide each command with this id alike.
fn are_alike(
    alloc: Global,
    book: &Book,
    p: &Program,
    id: Name,
    names: [Name; 3],
) -> Result<bool, Fail> {
    let of_the_station = [
        Command::Adopt { id },
        Command::Mark { id },
        Command::Calibrate { id, day: 19_844 },
    ];
    for c in &of_the_station {
        if !is_alike(alloc, book, c, MAY_FIRST, p)? {
            return Ok(false);
        }
    }
    for serial in names {
        for c in &of_serial(id, serial, names) {
            if !is_alike(alloc, book, c, MAY_FIRST, p)? {
                return Ok(false);
            }
        }
    }
    Ok(true)
}

/// A book of twelve records that the number picks.
fn picked_book(alloc: Global, first: u64, names: [Name; 3]) -> Result<Book, Fail> {
    let mut book = empty_book(alloc)?;
    let mut state = first;
    for _ in 0..12 {
        state = next(state);
        let id = one_of(next(next(next(state))), names);
        let body = body_of(alloc, choice(state, 10), next(state), names)?;
        add(&mut book, id, MAY_FIRST, body)?;
    }
    Ok(book)
}

#[test]
fn lists_that_no_rule_made_are_decided_alike(rt: HostRuntime) -> Result<(), Fail> {
    let names = [name(b"SN1")?, name(b"SN2")?, name(b"SN3")?];
    let other = name(b"X9")?;
    let adopted = program(rt.alloc(), 1)?;
    let newer = program(rt.alloc(), 2)?;
    let mut state = 1;
    for _ in 0..150 {
        state = next(state);
        let book = picked_book(rt.alloc(), state, names)?;
        assert!(rt; are_alike(rt.alloc(), &book, &adopted, names[0], names)?);
        assert!(rt; are_alike(rt.alloc(), &book, &adopted, other, names)?);
        assert!(rt; are_alike(rt.alloc(), &book, &newer, other, names)?);
    }
    Ok(())
}

#[test]
fn a_unit_is_released_before_it_is_scrapped(rt: HostRuntime) -> Result<(), Fail> {
    let mut book = empty_book(rt.alloc())?;
    let serial = name(b"SN1")?;
    let p = program(rt.alloc(), 1)?;
    add(&mut book, name(b"N1")?, MAY_FIRST, Body::Enrol(serial))?;
    add(&mut book, name(b"X1")?, 0, Body::Scrap(serial))?;
    let id = name(b"R1")?;
    let c = Command::Rework { id, serial };
    assert!(rt; matches!(book.decide(&c, MAY_FIRST, &p), Decision::No(Rule::Scrapped)));
    add(&mut book, name(b"L1")?, MAY_FIRST, Body::Release(serial))?;
    assert!(rt; matches!(book.decide(&c, MAY_FIRST, &p), Decision::No(Rule::Released)));
    Ok(())
}
