//! The calls once, with nets from the rule for learned nets.

use crate::{program_of, text_of};
use partition::{Partition, Point};
use std::test::Fail;

#[test]
fn classes_of_two_points_are_nets(rt: HostRuntime) -> Result<(), Fail> {
    let mut classes = Partition::singles(rt.alloc(), 6)?;
    assert_eq!(rt; classes.points(), 6);
    classes.merge(Point(1), Point(4));
    classes.merge(Point(5), Point(0));
    let program = program_of(rt.alloc(), &classes)?;
    assert_eq!(rt; program.part.text(), "LEARNED");
    assert_eq!(rt; program.revision, 1);
    assert_eq!(rt; program.attempts, 3);
    assert_eq!(rt; program.nets.points(), 6);
    assert_eq!(rt; program.nets.named(), 2);
    assert_eq!(rt; program.nets.count(), 4);
    assert_eq!(rt; program.nets.net(0), [Point(0), Point(5)].as_slice());
    assert_eq!(rt; program.nets.net(1), [Point(1), Point(4)].as_slice());
    assert_eq!(rt; program.names.len(), 2);
    for (name, text) in program.names.as_slice().iter().zip(["N1", "N2"]) {
        assert_eq!(rt; name.text(), text);
    }
    Ok(())
}

#[test]
fn the_text_is_a_wirelist(rt: HostRuntime) -> Result<(), Fail> {
    let mut classes = Partition::singles(rt.alloc(), 5)?;
    assert_eq!(rt; classes.points(), 5);
    let text = text_of(rt.alloc(), &classes)?;
    assert_eq!(rt;
        text.as_slice(),
        b"part,LEARNED,1\npoints,5\nattempts,3\n".as_slice()
    );
    classes.merge(Point(0), Point(1));
    classes.merge(Point(3), Point(2));
    let text = text_of(rt.alloc(), &classes)?;
    assert_eq!(rt;
        text.as_slice(),
        b"part,LEARNED,1\npoints,5\nnet,N1,0,1\nnet,N2,2,3\nattempts,3\n".as_slice()
    );
    Ok(())
}
