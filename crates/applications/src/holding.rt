//! A voltage is applied and held.

ghost use Rattle.std.specs.Prelude.{◌≡◌, ◌+◌, ◌*◌, ◌/◌, ◌%◌, ◌<◌, ◌≤◌, OnOk, IfOk, IfErr, None};
ghost use Rattle.rig.specs.Happened.{Happens};
ghost use Rattle.applications.specs.Steps.{ramp, dwelling};
ghost use Rattle.applications.specs.Holding.{BreaksOff, Holds};

use rig::{Leak, Live, RaiseStop, Rig};

/// Raises the voltage by so many steps of 50 from zero, with a tick after each.
fn climb<R: Rig>(live: &mut Live<R>, steps: u16) -> Result<(), RaiseStop>
    requires zero { (R.state live.old.rig).volts ≡ 0 }
    requires most { 50 * steps ≤ 2000 }
    ensures ok { OnOk result (Happens (R.state live.old.rig) (R.state live.new.rig) (ramp steps) None) }
    ensures err { IfErr result (BreaksOff (R.state live.old.rig) (R.state live.new.rig)) }
    ensures partition { live.new.partition ≡ live.old.partition }
    ensures permit { live.new.permit ≡ live.old.permit }
{
    for _i in 0..steps {
        live.step()?;
        live.tick()?;
    }
    Ok(())
}

/// Holds the voltage for so many ticks, with a reading of the interlock before each.
fn dwell<R: Rig>(live: &mut Live<R>, ticks: u16) -> Result<(), RaiseStop>
    ensures ok { OnOk result (Happens (R.state live.old.rig) (R.state live.new.rig) (dwelling ticks) None) }
    ensures err { IfErr result (BreaksOff (R.state live.old.rig) (R.state live.new.rig)) }
    ensures partition { live.new.partition ≡ live.old.partition }
    ensures permit { live.new.permit ≡ live.old.permit }
{
    for _i in 0..ticks {
        if !live.door()? {
            return Err(RaiseStop::DoorOpen);
        }
        live.tick()?;
    }
    Ok(())
}

/// Applies a voltage for so many ticks, and reads the leak.
pub(crate) fn hold<R: Rig>(live: &mut Live<R>, volts: u16, ticks: u16) -> Result<Leak, RaiseStop>
    requires zero { (R.state live.old.rig).volts ≡ 0 }
    requires some { 0 < volts }
    requires by_fifty { volts % 50 ≡ 0 }
    requires most { volts ≤ 2000 }
    ensures ok { IfOk result (Holds (R.state live.old.rig) (R.state live.new.rig) volts ticks) }
    ensures err { IfErr result (BreaksOff (R.state live.old.rig) (R.state live.new.rig)) }
    ensures partition { live.new.partition ≡ live.old.partition }
    ensures permit { live.new.permit ≡ live.old.permit }
{
    climb(live, volts / 50)?;
    dwell(live, ticks)?;
    Ok(live.leak()?)
}
