//! A unit whose source went to zero.

ghost use Rattle.std.specs.Prelude.{◌≡◌, IfOk, MatchResult};
ghost use Rattle.rig.specs.Discharge.{Waits, discharge_answer};
ghost use Rattle.std.specs.Prelude.{Ok, None};

use crate::{Proven, Rig, RigStop};
use std::marker::Model;

/// A proven unit after the source went to zero; it may still be charged. Contracts see the rig and the partition.
pub struct Safe<R: Rig> {
    proven: Proven<R>,
}

impl<R: Rig> Model for Safe<R> {
    ghost use Rattle.rig.specs.States.{Tested};

    ghost Value = { Tested R };

    ghost view = { λ s. s.proven };
}

/// Why a discharge ended without success. Each hands the unit back.
pub enum DischargeStop<R: Rig> {
    /// More than 30 volts stood after 100 ticks.
    NotDischarged(Safe<R>, u16),
    /// The rig failed.
    Rig(Safe<R>),
    /// Memory ran out.
    Memory(Safe<R>),
}

/// The volts at which a unit is discharged.
const DISCHARGED: u16 = 30;

/// The ticks that a discharge waits for.
const TICKS: u16 = 100;

impl<R: Rig> Safe<R> {
    ghost use Rattle.rig.specs.Stops.{discharge_stop_state};

    /// A unit whose source went to zero.
    pub(crate) fn around(proven: Proven<R>) -> Safe<R>
        ensures { result ≡ proven }
    {
        Safe { proven }
    }

    /// Waits until at most 30 volts are on the unit, for at most 100 ticks.
    ///
    /// # Errors
    ///
    /// `NotDischarged` with the volts where more than 30 stood after 100 ticks, else `Rig` where the rig failed, or `Memory`.
    pub fn discharge(self) -> Result<Proven<R>, DischargeStop<R>>
        ensures discharges { MatchResult result
            (λ proven. Waits (R.state self.rig) (R.state proven.rig) (Ok None))
            (λ stop. Waits (R.state self.rig) (R.state (discharge_stop_state stop).rig) (discharge_answer stop)) }
        ensures partition { MatchResult result
            (λ proven. proven.partition ≡ self.partition)
            (λ stop. (discharge_stop_state stop).partition ≡ self.partition) }
    {
        let Safe { mut proven } = self;
        match wait(&mut proven) {
            Ok(None) => Ok(proven),
            Ok(Some(volts)) => Err(DischargeStop::NotDischarged(Safe { proven }, volts)),
            Err(RigStop::Failed) => Err(DischargeStop::Rig(Safe { proven })),
            Err(RigStop::Memory) => Err(DischargeStop::Memory(Safe { proven })),
        }
    }

    /// The rig, without voltage.
    pub fn into_rig(self) -> R
        ensures { result ≡ self.rig }
    {
        let Safe { proven } = self;
        proven.back().into_rig()
    }
}

/// The volts that stand on the unit after 100 ticks, or none where at most 30 are left before.
fn wait<R: Rig>(proven: &mut Proven<R>) -> Result<Option<u16>, RigStop>
    ensures waits { Waits (R.state proven.old.rig) (R.state proven.new.rig) result }
    ensures partition { proven.new.partition ≡ proven.old.partition }
{
    for _i in 0..TICKS {
        let volts = proven.residual()?;
        if volts <= DISCHARGED {
            return Ok(None);
        }
        proven.tick()?;
    }
    let volts = proven.residual()?;
    if volts <= DISCHARGED {
        Ok(None)
    } else {
        Ok(Some(volts))
    }
}
