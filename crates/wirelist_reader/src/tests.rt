//! The rules of the format, row by row.

use crate::read;
use partition::{NetsRefusal, Point};
use std::test::Fail;
use wirelist::{WireRefusal, cluster_count, clusters, print};

const W1: &str = "part,P1,1\npoints,5\nnet,A,0,1\nnet,B,2,3\n";

#[test]
fn one_more_row_is_refused_for_its_first_fault(rt: HostRuntime) -> Result<(), Fail> {
    for (row, refusal) in [
        ("net,A,4", WireRefusal::SameName(5)),
        ("resistor,R1,0,1,20000,30000", WireRefusal::PartInsideNet(5)),
        ("resistor,R1,0,2,30000,20000", WireRefusal::BadWindow(5)),
        ("attempts,10", WireRefusal::BadField(5, 2)),
        ("colour,red", WireRefusal::UnknownKind(5)),
        ("resistor,R1,0,9,20000,30000", WireRefusal::PartPoint(5)),
        ("part,P2,1", WireRefusal::SecondRow(5)),
        ("net,C,1,4", WireRefusal::Nets(NetsRefusal::Twice(Point(1)))),
        (
            "net,C,4,5",
            WireRefusal::Nets(NetsRefusal::OutOfRange(Point(5))),
        ),
        ("net,C", WireRefusal::Nets(NetsRefusal::EmptyNet(2))),
        ("resistor,B,0,2,20000,30000", WireRefusal::SameName(5)),
        ("diode,D1,0,2,5001,5000", WireRefusal::BadField(5, 5)),
        ("net,C,4,,5", WireRefusal::BadField(5, 4)),
        ("withstand,2050,1,1", WireRefusal::BadField(5, 2)),
        (
            "diode,D1,0,2,1,2\nresistor,R1,3,1,20000,30000",
            WireRefusal::SecondPart(5),
        ),
        ("ignore,1", WireRefusal::Nets(NetsRefusal::Twice(Point(1)))),
        (
            "ignore,5",
            WireRefusal::Nets(NetsRefusal::OutOfRange(Point(5))),
        ),
        ("ignore,,", WireRefusal::BadField(5, 2)),
        ("ignore,4\nignore,4", WireRefusal::SecondRow(6)),
        (
            "resistor,R1,0,4,20000,30000\nignore,4",
            WireRefusal::PartPoint(5),
        ),
    ] {
        let text = format!(in rt.alloc(); "{W1}{row}\n")?;
        assert_eq!(rt; read(rt.alloc(), text.as_bytes()).err(), Some(refusal));
    }
    Ok(())
}

#[test]
fn other_files_are_refused(rt: HostRuntime) -> Result<(), Fail> {
    for (text, refusal) in [
        ("", WireRefusal::NoPart),
        ("part,P1,1\n", WireRefusal::NoPart),
        ("part,P1,1\npoints,4097\n", WireRefusal::TooManyPoints(4097)),
        (
            "part,P1,1\npoints,5\nignore,0,1,2,3,4\n",
            WireRefusal::Nets(NetsRefusal::NoneJudged),
        ),
        (
            "part,P1,1\npoints,4294967296\n",
            WireRefusal::BadField(2, 2),
        ),
        ("part,P1\n", WireRefusal::BadField(1, 3)),
        ("part,P1,1,2\n", WireRefusal::BadField(1, 4)),
        ("part,P1,01\n", WireRefusal::BadField(1, 3)),
        ("part,-P,1\n", WireRefusal::BadField(1, 2)),
        ("p\u{e9},1\n", WireRefusal::NotText(1)),
        ("\n,,\ncolour\n", WireRefusal::UnknownKind(2)),
        ("insulation,75,1,1\n", WireRefusal::BadField(1, 2)),
    ] {
        assert_eq!(rt; read(rt.alloc(), text.as_bytes()).err(), Some(refusal));
    }
    Ok(())
}

#[test]
fn rows_stand_in_any_order_and_form(rt: HostRuntime) -> Result<(), Fail> {
    for (text, printed) in [
        (
            "\u{feff}\"net\",A,1,0,,\r\n\r\npoints,5\r\n,,\npart,\"P1\",1",
            "part,P1,1\npoints,5\nnet,A,0,1\nattempts,3\n",
        ),
        (
            "part,P1,1\npoints,4096\n",
            "part,P1,1\npoints,4096\nattempts,3\n",
        ),
        (
            "ignore,4,3\npoints,5\nnet,A,0,1\npart,P1,1\n",
            "part,P1,1\npoints,5\nnet,A,0,1\nignore,3,4\nattempts,3\n",
        ),
        (
            "attempts,9\ndiode,D1,0,2,500,800\nwithstand,1500,10,2000\npoints,3\nresistor,R1,0,1,20000,30000\npart,P1,1\ninsulation,500,20,100\n",
            "part,P1,1\npoints,3\nresistor,R1,0,1,20000,30000\ndiode,D1,0,2,500,800\ninsulation,500,20,100\nwithstand,1500,10,2000\nattempts,9\n",
        ),
    ] {
        let p = read(rt.alloc(), text.as_bytes())?;
        assert_eq!(rt; print(rt.alloc(), &p)?.as_slice(), printed.as_bytes());
        assert!(rt; read(rt.alloc(), printed.as_bytes())?.equal(&p));
    }
    assert_eq!(rt;
        read(rt.alloc(), b"part,P\"\"1,1\n").err(),
        Some(WireRefusal::BadField(1, 2))
    );
    Ok(())
}

#[test]
fn a_resistor_links_two_nets(rt: HostRuntime) -> Result<(), Fail> {
    let text = format!(in rt.alloc(); "{W1}resistor,R1,1,2,20000,30000\nignore,4\n")?;
    let p = read(rt.alloc(), text.as_bytes())?;
    let linked = clusters(rt.alloc(), &p)?;
    assert_eq!(rt; linked.points(), 5);
    for (point, class) in [(0, 0), (3, 0), (4, 65_535)] {
        assert_eq!(rt; linked.class_of(Point(point)), Point(class));
    }
    assert_eq!(rt; cluster_count(rt.alloc(), &p)?, 1);
    Ok(())
}
