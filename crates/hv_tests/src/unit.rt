//! The unit that the tests are made on, and the way to its proof.

ghost use Rattle.std.specs.Prelude.{◌≡◌, IfOk};
ghost use Rattle.partition.specs.NetTable.{programmed_of};
ghost use Rattle.wirelist.specs.Programs.{IsProgram};

use isolate::{ContinuityStop, IsolationStop, continuity, isolation};
use rig::{Proven, SeatStop, Seated};
use rig_sim::SimRig;
use std::alloc::Global;
use std::test::Fail;
use wirelist::Program;

/// A harness of 5 points whose unit has the program's joins, with further rows.
pub(crate) fn harness(alloc: Global, above: &str, rows: &str) -> Result<String, Fail> {
    Ok(format!(in alloc; "points 5\n{above}unit SN1 1\nwire 0 1\nwire 2 3\n{rows}end\n")?)
}

/// The program of that harness, with these tests.
pub(crate) fn program(alloc: Global, tests: &str) -> Result<Program, Fail>
    ensures { IfOk result IsProgram }
{
    let text = format!(in alloc; "part,P1,1\npoints,5\nnet,A,0,1\nnet,B,2,3\n{tests}")?;
    match wirelist_reader::read(alloc, text.as_bytes()) {
        Ok(p) => Ok(p),
        Err(_) => Err("no program")?,
    }
}

/// Where calls end, in a word, and the rig after them.
#[derive(Drop)]
pub(crate) struct Ended {
    pub(crate) word: &'static str,
    pub(crate) rig: SimRig,
}

/// The unit SN1 in a rig, proven to have the joins of the program.
pub(crate) fn prove(alloc: Global, rig: SimRig, p: &Program) -> Result<Proven<SimRig>, Ended>
    requires { rig.state.volts ≡ 0 }
    ensures { IfOk result (λ proven. proven.partition ≡ programmed_of p.now.nets) }
{
    let seat = match seated(rig) {
        Ok(seat) => seat,
        Err(ended) => return Err(ended),
    };
    if seat.points() != p.nets.points() {
        return Err(unproven("points", seat));
    }
    let unit = match continuity(alloc, seat, &p.nets) {
        Ok(unit) => unit,
        Err(
            ContinuityStop::OpenAt {
                seat,
                net: _,
                point: _,
            },
        ) => return Err(unproven("wiring", seat)),
        Err(ContinuityStop::Rig(seat)) => return Err(unproven("fault", seat)),
        Err(ContinuityStop::Memory(seat)) => return Err(unproven("memory", seat)),
    };
    match isolation(alloc, unit) {
        Ok(proven) => Ok(proven),
        Err(IsolationStop::ShortAt { seat, bit: _ }) => Err(unproven("wiring", seat)),
        Err(IsolationStop::Rig(seat)) => Err(unproven("fault", seat)),
        Err(IsolationStop::Memory(seat)) => Err(unproven("memory", seat)),
    }
}

/// The unit SN1 in a rig, seated.
fn seated(rig: SimRig) -> Result<Seated<SimRig>, Ended>
    requires { rig.state.volts ≡ 0 }
{
    match Seated::take(rig, "SN1", 1) {
        Ok(seat) => Ok(seat),
        Err(SeatStop::Absent(rig)) => Err(Ended {
            word: "absent",
            rig,
        }),
        Err(SeatStop::Rig(rig)) => Err(Ended { word: "fault", rig }),
        Err(SeatStop::Memory(rig)) => Err(Ended {
            word: "memory",
            rig,
        }),
    }
}

/// A unit that was not proven.
fn unproven(word: &'static str, seat: Seated<SimRig>) -> Ended {
    Ended {
        word,
        rig: seat.into_rig(),
    }
}
