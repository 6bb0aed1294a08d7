//! Programs printed, compared and clustered, with memory at hand.

ghost use Rattle.std.specs.Prelude.{◌≡◌, [], IfOk};

use crate::{
    Diode, Diodes, Insulation, Names, Outcome, Program, Resistor, Resistors, Verdict, Withstand,
    cluster_count, clusters, print,
};
use partition::{Name, NetLists, Nets, Point, PointList};
use std::alloc::Global;
use std::test::Fail;

/// The part P1, revision 1, with the net A of points 0 and 1 and the net B of 2 and 3, over five points, of which the
/// ignored ones are not judged.
fn two_nets(alloc: Global, ignored: &[Point]) -> Result<Program, Fail>
    ensures points { IfOk result (λ p. p.nets.points ≡ 5) }
    ensures resistors { IfOk result (λ p. p.resistors ≡ []) }
    ensures diodes { IfOk result (λ p. p.diodes ≡ []) }
{
    let mut lists = NetLists::new(alloc);
    lists.push(PointList::from_slice(alloc, &[Point(0), Point(1)])?)?;
    lists.push(PointList::from_slice(alloc, &[Point(2), Point(3)])?)?;
    let mut names = Names::new(alloc);
    names.push(Name::read(b"A").ok_or("a name")?)?;
    names.push(Name::read(b"B").ok_or("a name")?)?;
    Ok(Program {
        part: Name::read(b"P1").ok_or("a name")?,
        revision: 1,
        nets: Nets::judging(alloc, 5, lists, PointList::from_slice(alloc, ignored)?)?,
        names,
        resistors: Resistors::new(alloc),
        diodes: Diodes::new(alloc),
        insulation: None,
        withstand: None,
        attempts: 3,
    })
}

/// A resistor between two points.
fn one_resistor(a: Point, b: Point) -> Result<Resistor, Fail> {
    Ok(Resistor {
        name: Name::read(b"R1").ok_or("a name")?,
        a,
        b,
        min: 90_000,
        max: 110_000,
    })
}

/// A diode between two points.
fn one_diode(from: Point, to: Point) -> Result<Diode, Fail> {
    Ok(Diode {
        name: Name::read(b"D-1").ok_or("a name")?,
        from,
        to,
        min: 400,
        max: 900,
    })
}

/// The two nets with a point that is not judged, two components and both tests at high voltage.
fn with_all_rows(alloc: Global) -> Result<Program, Fail> {
    let mut p = two_nets(alloc, &[Point(4)])?;
    p.diodes.push(one_diode(Point(0), Point(3))?)?;
    p.resistors.push(one_resistor(Point(1), Point(2))?)?;
    p.insulation = Some(Insulation {
        volts: 500,
        ticks: 10,
        megohms: 100,
    });
    p.withstand = Some(Withstand {
        volts: 1500,
        ticks: 60,
        nanoamps: 1_000_000,
    });
    Ok(p)
}

/// Whether the text of a program is this one.
fn is_printed_as(alloc: Global, p: &Program, text: &str) -> Result<bool, Fail> {
    let printed = print(alloc, p)?;
    Ok(printed.as_slice() == text.as_bytes())
}

#[test]
fn the_ignored_points_are_printed(rt: HostRuntime) -> Result<(), Fail> {
    let none = two_nets(rt.alloc(), &[])?;
    let text = "part,P1,1\npoints,5\nnet,A,0,1\nnet,B,2,3\nattempts,3\n";
    assert!(rt; is_printed_as(rt.alloc(), &none, text)?);
    let one = two_nets(rt.alloc(), &[Point(4)])?;
    let text = "part,P1,1\npoints,5\nnet,A,0,1\nnet,B,2,3\nignore,4\nattempts,3\n";
    assert!(rt; is_printed_as(rt.alloc(), &one, text)?);
    Ok(())
}

#[test]
fn each_kind_of_row_is_printed(rt: HostRuntime) -> Result<(), Fail> {
    let p = with_all_rows(rt.alloc())?;
    let head = "part,P1,1\npoints,5\nnet,A,0,1\nnet,B,2,3\nignore,4\n";
    let parts = "resistor,R1,1,2,90000,110000\ndiode,D-1,0,3,400,900\n";
    let tests = "insulation,500,10,100\nwithstand,1500,60,1000000\nattempts,3\n";
    let text = format!(in rt.alloc(); "{head}{parts}{tests}")?;
    assert!(rt; is_printed_as(rt.alloc(), &p, text.as_str())?);
    Ok(())
}

#[test]
fn a_copy_is_equal(rt: HostRuntime) -> Result<(), Fail> {
    let p = with_all_rows(rt.alloc())?;
    let mut other = p.copy(rt.alloc())?;
    assert!(rt; p.equal(&other));
    other.attempts = 4;
    assert!(rt; !p.equal(&other));
    let ignoring_none = two_nets(rt.alloc(), &[])?;
    assert!(rt; !p.equal(&ignoring_none));
    Ok(())
}

#[test]
fn a_point_that_is_not_judged_is_in_no_cluster(rt: HostRuntime) -> Result<(), Fail> {
    let p = two_nets(rt.alloc(), &[Point(4)])?;
    let apart = clusters(rt.alloc(), &p)?;
    assert_eq!(rt; apart.points(), 5);
    for (point, class) in [(0, 0), (1, 0), (2, 2), (3, 2), (4, 65_535)] {
        assert_eq!(rt; apart.class_of(Point(point)), Point(class));
    }
    assert_eq!(rt; cluster_count(rt.alloc(), &p)?, 2);
    Ok(())
}

#[test]
fn a_verdict_has_the_bit_and_the_voltage(rt: HostRuntime) -> Result<(), Fail> {
    let outcome = Outcome::Withstand {
        bit: 3,
        volts: 150,
        leak: None,
    };
    assert_eq!(rt;
        outcome.verdict(),
        Verdict::Withstand { bit: 3, volts: 150 }
    );
    Ok(())
}
