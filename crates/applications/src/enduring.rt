//! A voltage is applied and held, with a reading of the leak before each tick.

ghost use Rattle.std.specs.Prelude.{◌≡◌, ◌*◌, ◌%◌, ◌<◌, ◌≤◌, IfOk, IfErr};
ghost use Rattle.applications.specs.Holding.{BreaksOff};
ghost use Rattle.applications.specs.Enduring.{Endures, IsEndurance, Rises, Stays, breaks_down};

use crate::{Breakdown, Endurance};
use rig::{Leak, Live, RaiseStop, Rig};

/// Whether a leak is an arc, or above so many nanoamps at these volts.
fn is_breakdown(leak: Leak, volts: u16, nanoamps: u32) -> bool
    ensures { result ≡ breaks_down nanoamps volts leak }
{
    match leak {
        Leak::Arc => true,
        Leak::PicoSiemens(g) => u128::from(g) * u128::from(volts) > u128::from(nanoamps) * 1000,
    }
}

/// Raises the voltage by so many steps of 50 from zero, with a reading of the leak and a tick after each, up to a breakdown.
fn rise<R: Rig>(
    live: &mut Live<R>,
    steps: u16,
    nanoamps: u32,
) -> Result<Option<Breakdown>, RaiseStop>
    requires zero { (R.state live.old.rig).volts ≡ 0 }
    requires most { 50 * steps ≤ 2000 }
    ensures ok { IfOk result (Rises (R.state live.old.rig) (R.state live.new.rig) steps nanoamps) }
    ensures err { IfErr result (BreaksOff (R.state live.old.rig) (R.state live.new.rig)) }
    ensures partition { live.new.partition ≡ live.old.partition }
    ensures permit { live.new.permit ≡ live.old.permit }
{
    for i in 0..steps {
        let volts = 50 * i + 50;
        live.step()?;
        let leak = live.leak()?;
        if is_breakdown(leak, volts, nanoamps) {
            return Ok(Some(Breakdown { volts, leak }));
        }
        live.tick()?;
    }
    Ok(None)
}

/// Holds the voltage for so many ticks, with readings of the interlock and the leak before each, up to a breakdown.
fn stay<R: Rig>(
    live: &mut Live<R>,
    volts: u16,
    ticks: u16,
    nanoamps: u32,
) -> Result<Option<Breakdown>, RaiseStop>
    requires at { (R.state live.old.rig).volts ≡ volts }
    requires some { 0 < volts }
    ensures ok { IfOk result (Stays (R.state live.old.rig) (R.state live.new.rig) volts ticks nanoamps) }
    ensures err { IfErr result (BreaksOff (R.state live.old.rig) (R.state live.new.rig)) }
    ensures partition { live.new.partition ≡ live.old.partition }
    ensures permit { live.new.permit ≡ live.old.permit }
{
    for _i in 0..ticks {
        if !live.door()? {
            return Err(RaiseStop::DoorOpen);
        }
        let leak = live.leak()?;
        if is_breakdown(leak, volts, nanoamps) {
            return Ok(Some(Breakdown { volts, leak }));
        }
        live.tick()?;
    }
    Ok(None)
}

/// Raises the voltage to that of the test and holds it for the ticks, up to a breakdown.
pub(crate) fn endure<R: Rig>(
    live: &mut Live<R>,
    test: Endurance,
) -> Result<Option<Breakdown>, RaiseStop>
    requires zero { (R.state live.old.rig).volts ≡ 0 }
    requires test { IsEndurance test }
    ensures ok { IfOk result (Endures (R.state live.old.rig) (R.state live.new.rig) test) }
    ensures err { IfErr result (BreaksOff (R.state live.old.rig) (R.state live.new.rig)) }
    ensures partition { live.new.partition ≡ live.old.partition }
    ensures permit { live.new.permit ≡ live.old.permit }
{
    let risen = rise(live, test.volts / 50, test.nanoamps)?;
    match risen {
        Some(broken) => Ok(Some(broken)),
        None => stay(live, test.volts, test.ticks, test.nanoamps),
    }
}
