//! The order of high voltage, as its rules say it.

use partition::PointList;
use rig::Event;

/// How a trail ends.
#[derive(Clone, Copy, Debug, PartialEq, Eq)]
pub(crate) enum End {
    /// The last raise or zero is a zero that was done, or there is none.
    Zero,
    /// The last three raises and zeros are zeros that failed.
    Stuck,
    /// Neither.
    Powered,
    /// An event stands where no rule allows it.
    OutOfOrder,
}

/// What stands at a moment of a trail.
#[derive(Drop)]
struct Moment {
    volts: u16,
    routed: bool,
    /// The last interlock reading was closed, and no tick follows it.
    closed: bool,
    /// A tick passed since the last zero that was done, with no interlock reading after it.
    door_owed: bool,
    /// The interlock was read open at a voltage, and no zero follows.
    stop_due: bool,
    powered: bool,
    failed_zeros: u32,
}

/// How the events end, where `clusters` has the number of each point's cluster.
pub(crate) fn end_of(events: &[Event], clusters: &[u8]) -> End {
    let mut now = Moment {
        volts: 0,
        routed: false,
        closed: false,
        door_owed: false,
        stop_due: false,
        powered: false,
        failed_zeros: 0,
    };
    for event in events {
        if !may_follow(&now, event, clusters) {
            return End::OutOfOrder;
        }
        follow(&mut now, event);
    }
    if now.failed_zeros >= 3 {
        End::Stuck
    } else if now.powered {
        End::Powered
    } else {
        End::Zero
    }
}

/// Whether the rules allow an event here.
fn may_follow(now: &Moment, event: &Event, clusters: &[u8]) -> bool {
    match event {
        Event::Reading(_, _, _)
        | Event::Ohms(_, _, _)
        | Event::Junction(_, _, _)
        | Event::Residual(_) => now.volts == 0,
        Event::Route(a, b) => now.volts == 0 && !share_a_cluster(a, b, clusters),
        Event::Raise(volts, _) => {
            now.routed
                && now.closed
                && !now.stop_due
                && *volts % 50 == 0
                && *volts <= 2000
                && u32::from(*volts) <= u32::from(now.volts) + 50
        }
        Event::Tick => !now.stop_due && (now.volts == 0 || !now.door_owed),
        Event::Door(_) | Event::Leak(_) | Event::Zero(_) => true,
    }
}

/// What stands after an event.
fn follow(now: &mut Moment, event: &Event) {
    match event {
        Event::Route(_, _) => now.routed = true,
        Event::Door(closed) => {
            now.closed = *closed;
            now.door_owed = false;
            if !*closed && now.volts > 0 {
                now.stop_due = true;
            }
        }
        Event::Raise(volts, _) => {
            now.volts = *volts;
            now.powered = true;
            now.failed_zeros = 0;
        }
        Event::Zero(true) => {
            now.volts = 0;
            now.door_owed = false;
            now.stop_due = false;
            now.powered = false;
            now.failed_zeros = 0;
        }
        Event::Zero(false) => {
            now.stop_due = false;
            now.powered = true;
            now.failed_zeros = now.failed_zeros.saturating_add(1);
        }
        Event::Tick => {
            now.closed = false;
            now.door_owed = true;
        }
        Event::Reading(_, _, _)
        | Event::Ohms(_, _, _)
        | Event::Junction(_, _, _)
        | Event::Leak(_)
        | Event::Residual(_) => {}
    }
}

/// Whether a point of the one group is in the cluster of a point of the other.
fn share_a_cluster(a: &PointList, b: &PointList, clusters: &[u8]) -> bool {
    a.as_slice().iter().any(|p| {
        b.as_slice()
            .iter()
            .any(|q| clusters.get(p.index()) == clusters.get(q.index()))
    })
}
