//! The simulator at work, with values from the rules of its file.

ghost use Rattle.std.specs.Prelude.{IfSome};
ghost use Rattle.rig.specs.Calls.{IsReady};

use crate::{Flags, HarnessRefusal, ListRig, SimRig};
use partition::Point;
use rig::{Rig, RigStop, SeatAnswer};
use std::test::Fail;

/// The rig of a harness with its unit SN1 1 seated.
fn seated(rt: &HostRuntime, bytes: &[u8]) -> Option<SimRig>
    ensures { IfSome result (λ rig. IsReady rig.state) }
{
    let mut rig = SimRig::read(rt.alloc(), bytes).ok()?;
    let Ok(SeatAnswer::Present) = rig.seat("SN1", 1) else {
        return None;
    };
    Some(rig)
}

/// Whether two points are joined; None where they are no two points of the rig, or the call is refused.
fn joined<R: Rig>(rig: &mut R, a: u16, b: u16) -> Option<bool>
    requires { IsReady (R.state rig.old) }
    ensures { IsReady (R.state rig.new) }
{
    if a == b || a >= rig.points() || b >= rig.points() {
        return None;
    }
    rig.conducts(&[Point(a)], &[Point(b)]).ok()
}

/// The milliohms between two points; None where they are no points of the rig, or the call is refused.
fn ohms<R: Rig>(rig: &mut R, a: u16, b: u16) -> Option<Option<u64>>
    requires { IsReady (R.state rig.old) }
    ensures { IsReady (R.state rig.new) }
{
    if a >= rig.points() || b >= rig.points() {
        return None;
    }
    rig.ohms(Point(a), Point(b)).ok()
}

/// The millivolts from one point to another; None where they are no points of the rig, or the call is refused.
fn junction<R: Rig>(rig: &mut R, from: u16, to: u16) -> Option<Option<u32>>
    requires { IsReady (R.state rig.old) }
    ensures { IsReady (R.state rig.new) }
{
    if from >= rig.points() || to >= rig.points() {
        return None;
    }
    rig.junction(Point(from), Point(to)).ok()
}

#[test]
fn readings_follow_the_rows(rt: HostRuntime) -> Result<(), Fail> {
    let units = [
        (
            b"points 5\nunit SN1 1\nwire 0 1\nwire 2 3\nend".as_slice(),
            false,
            None,
            None,
            None,
        ),
        (
            b"points 5\nunit SN1 1\nwire 0 1\nwire 2 3\nresistor 0 2 10000\nend",
            true,
            Some(0),
            Some(0),
            Some(0),
        ),
        (
            b"points 5\nunit SN1 1\nwire 0 1\nwire 2 3\nresistor 0 2 10001\nend",
            false,
            Some(10_001),
            None,
            None,
        ),
        (
            b"points 5\r\nunit SN1 1\r\nwire 0 1\r\nwire 2 3\r\ndiode 2 0 650\r\nend",
            false,
            None,
            None,
            Some(650),
        ),
    ];
    for (bytes, met, milliohms, forward, back) in units {
        let mut rig = seated(&rt, bytes).ok_or("refused")?;
        let answers = (
            joined(&mut rig, 0, 2),
            joined(&mut rig, 1, 0),
            joined(&mut rig, 4, 3),
        );
        assert_eq!(rt; answers, (Some(met), Some(true), Some(false)));
        assert_eq!(rt; ohms(&mut rig, 1, 3), Some(milliohms));
        assert_eq!(rt; junction(&mut rig, 1, 3), Some(forward));
        assert_eq!(rt; junction(&mut rig, 3, 1), Some(back));
        assert_eq!(rt; ohms(&mut rig, 4, 4), Some(Some(0)));
        assert_eq!(rt; rig.readings(), 3);
        assert_eq!(rt; rig.events().len(), 7);
        assert_eq!(rt; rig.residual(), Ok(0));
        for tally in rig.tallies().as_slice() {
            assert_eq!(rt; (tally.readings, tally.probes), (3, 4));
        }
    }
    Ok(())
}

#[test]
fn a_fault_row_fails_its_call_and_a_door_row_opens_its_reading(
    rt: HostRuntime,
) -> Result<(), Fail> {
    let file = b"points 5\nfault 3\nfault 5\nfault 3\ndoor 2\nunit SN1 1\nend";
    let mut rig = SimRig::read(rt.alloc(), file).ok().ok_or("refused")?;
    assert_eq!(rt; rig.points(), 5);
    assert_eq!(rt; rig.seat("SN1", 2), Ok(SeatAnswer::Absent));
    let Ok(SeatAnswer::Present) = rig.seat("SN1", 1) else {
        return Err("not there".into());
    };
    assert_eq!(rt; rig.interlock(), Err(RigStop::Failed));
    assert_eq!(rt; rig.interlock(), Ok(true));
    assert_eq!(rt; rig.tick(), Err(RigStop::Failed));
    assert_eq!(rt; rig.interlock(), Ok(false));
    assert_eq!(rt; rig.interlock(), Ok(true));
    assert_eq!(rt; rig.tick(), Ok(()));
    assert_eq!(rt; rig.events().len(), 4);
    Ok(())
}

#[test]
fn a_file_out_of_form_is_refused(rt: HostRuntime) -> Result<(), Fail> {
    let file = b"points 5\nunit SN1 1\nresistor 0 2 20000\ndiode 2 0 600\nend\n";
    assert_eq!(rt;
        SimRig::read(rt.alloc(), file).err(),
        Some(HarnessRefusal::SecondElement(4))
    );
    Ok(())
}

/// A rig of two points that answers no, yes and yes in turn, with a unit seated.
fn listed(rt: &HostRuntime) -> Option<ListRig>
    ensures { IfSome result (λ rig. IsReady rig.state) }
{
    let mut answers = Flags::from_slice(rt.alloc(), &[false, true]).ok()?;
    answers.push(true).ok()?;
    let mut rig = ListRig::new(rt.alloc(), 2, answers);
    let Ok(SeatAnswer::Present) = rig.seat("SN7", 1) else {
        return None;
    };
    Some(rig)
}

#[test]
fn a_rig_by_a_list_answers_in_turn_and_begins_anew(rt: HostRuntime) -> Result<(), Fail> {
    let mut rig = listed(&rt).ok_or("refused")?;
    let answers = (
        joined(&mut rig, 0, 1),
        joined(&mut rig, 0, 1),
        joined(&mut rig, 1, 0),
        joined(&mut rig, 0, 1),
        joined(&mut rig, 0, 1),
    );
    let turn = (Some(false), Some(true), Some(true), Some(false), Some(true));
    assert_eq!(rt; answers, turn);
    assert_eq!(rt; ohms(&mut rig, 0, 1), Some(None));
    assert_eq!(rt; junction(&mut rig, 0, 1), Some(None));
    assert_eq!(rt; rig.interlock(), Ok(true));
    assert_eq!(rt; rig.residual(), Ok(0));
    assert_eq!(rt; rig.readings(), 5);
    assert_eq!(rt; rig.events().len(), 9);
    for tally in rig.tallies().as_slice() {
        assert_eq!(rt; (tally.readings, tally.probes), (5, 2));
    }
    Ok(())
}

#[test]
fn a_list_of_flags_keeps_what_it_is_given(rt: HostRuntime) -> Result<(), Fail> {
    let mut flags = Flags::new(rt.alloc());
    assert!(rt; flags.is_empty());
    flags.push(true)?;
    flags.push(false)?;
    assert_eq!(rt; flags.len(), 2);
    assert_eq!(rt; flags.as_slice(), [true, false].as_slice());
    Ok(())
}
