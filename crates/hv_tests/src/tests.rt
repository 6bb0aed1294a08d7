//! Units of a simulator's file.

ghost use Rattle.std.specs.Prelude.{◌≡◌};
ghost use Rattle.partition.specs.NetTable.{programmed_of};
ghost use Rattle.wirelist.specs.Programs.{IsProgram};

use crate::order::{End, end_of};
use crate::unit::{Ended, harness, program, prove};
use applications::HvStop;
use hv::{InsulationDone, WithstandDone, insulation, withstand};
use rig::Proven;
use rig_sim::SimRig;
use std::alloc::Global;
use std::test::Fail;
use wirelist::{LeakFaults, Program};

/// The cluster of each point of the unit's program: A, B, and the point in no net.
const CLUSTERS: [u8; 5] = [0, 0, 1, 1, 2];

/// What the tests of a unit came to, in words, and the rig after them.
#[derive(Drop)]
struct Came {
    words: String,
    rig: SimRig,
}

/// Where the tests of a unit end before their last answer.
fn ended(alloc: Global, words: &str, rig: SimRig) -> Result<Came, Fail> {
    Ok(Came {
        words: String::from_str(alloc, words)?,
        rig,
    })
}

/// A stop in words.
fn stopped(alloc: Global, stop: HvStop<SimRig>) -> Result<Came, Fail> {
    match stop {
        HvStop::InterlockOpen(safe) => ended(alloc, "open", safe.into_rig()),
        HvStop::NotDischarged(safe, volts) => {
            let rig = safe.into_rig();
            Ok(Came {
                words: format!(in alloc; "charged {volts}")?,
                rig,
            })
        }
        HvStop::RigWhileSafe(safe) => ended(alloc, "fault", safe.into_rig()),
        HvStop::RigBefore(proven) => ended(alloc, "fault", proven.back().into_rig()),
        HvStop::NotZero(stuck) => ended(alloc, "stuck", stuck.into_rig()),
        HvStop::Memory(rig) => ended(alloc, "memory", rig),
    }
}

/// A reading in words.
fn reading(alloc: Global, reading: Option<u64>) -> Result<String, Fail> {
    match reading {
        Some(leak) => Ok(format!(in alloc; "{leak}")?),
        None => Ok(String::from_str(alloc, "arc")?),
    }
}

/// Faults in words: each cluster and its reading.
fn leaky(alloc: Global, faults: &LeakFaults) -> Result<String, Fail> {
    let mut words = String::from_str(alloc, "insulation")?;
    for fault in faults.as_slice() {
        let leak = reading(alloc, fault.reading)?;
        let cluster = fault.cluster;
        let more = format!(in alloc; " {cluster}:{leak}")?;
        words.push_str(more.as_str())?;
    }
    Ok(words)
}

/// The tests of a proven unit, up to the first that finds a fault.
fn tested(alloc: Global, proven: Proven<SimRig>, p: &Program) -> Result<Came, Fail>
    requires program { IsProgram p.now }
    requires partition { proven.partition ≡ programmed_of p.now.nets }
{
    let mut proven = proven;
    if p.insulation.is_some() {
        let done = match insulation(alloc, proven, p) {
            Ok(done) => done,
            Err(stop) => return stopped(alloc, stop),
        };
        let InsulationDone {
            proven: next,
            faults,
        } = done;
        if !faults.is_empty() {
            let rig = next.back().into_rig();
            return Ok(Came {
                words: leaky(alloc, &faults)?,
                rig,
            });
        }
        proven = next;
    }
    if p.withstand.is_some() {
        let done = match withstand(alloc, proven, p) {
            Ok(done) => done,
            Err(stop) => return stopped(alloc, stop),
        };
        let WithstandDone { proven, failed } = done;
        let rig = proven.back().into_rig();
        return match failed {
            None => ended(alloc, "pass", rig),
            Some(fault) => {
                let leak = reading(alloc, fault.leak)?;
                let bit = fault.bit;
                let volts = fault.volts;
                Ok(Came {
                    words: format!(in alloc; "withstand {bit} {volts} {leak}")?,
                    rig,
                })
            }
        };
    }
    ended(alloc, "pass", proven.back().into_rig())
}

/// The tests of the unit SN1 of a harness file.
fn run(alloc: Global, harness: &str, tests: &str) -> Result<Came, Fail> {
    let p = program(alloc, tests)?;
    let rig = SimRig::read(alloc, harness.as_bytes())?;
    match prove(alloc, rig, &p) {
        Ok(proven) => tested(alloc, proven, &p),
        Err(Ended { word, rig }) => ended(alloc, word, rig),
    }
}

#[test]
fn faults_are_those_of_the_unit(rt: HostRuntime) -> Result<(), Fail> {
    let alloc = rt.alloc();
    let insulated = "insulation,500,1,100\n";
    let withstood = "withstand,1500,10,2000\n";
    let charged = "withstand,50,1,1000\n";
    let units = [
        (insulated, "leak 0 2 10000\n", "pass"),
        (insulated, "leak 0 2 10001\n", "insulation 0:10001 1:10001"),
        (
            insulated,
            "resistor 0 2 10001\n",
            "insulation 0:99990000999 1:99990000999",
        ),
        (
            insulated,
            "leak 0 2 6000\nleak 1 4 6000\n",
            "insulation 0:12000",
        ),
        (insulated, "arc 0 2 500\n", "insulation 0:arc 1:arc"),
        (insulated, "arc 0 2 501\n", "pass"),
        (withstood, "arc 0 2 750\n", "withstand 0 750 arc"),
        (withstood, "arc 0 4 1500\n", "withstand 1 1500 arc"),
        (withstood, "arc 0 2 1501\n", "pass"),
        (withstood, "leak 0 2 1333\n", "pass"),
        (withstood, "leak 0 2 1334\n", "withstand 0 1500 1334"),
        (charged, "charge 45 100\n", "pass"),
        (charged, "charge 45 101\n", "charged 45"),
        (charged, "charge 30 1000\n", "pass"),
    ];
    for (tests, rows, words) in units {
        let text = harness(alloc, "", rows)?;
        let came = run(alloc, text.as_str(), tests)?;
        assert_eq!(rt; came.words.as_str(), words);
        assert_eq!(rt; end_of(came.rig.events().as_slice(), &CLUSTERS), End::Zero);
    }
    Ok(())
}

/// The tests that the unit below takes: 3 applications of 9 calls and 2 of 10, after 5 calls that prove it.
const TESTS: &str = "insulation,50,1,100\nwithstand,50,1,1000\n";

/// The calls of those that go to zero: the eighth of the nine, the ninth of the ten.
const ZERO_CALLS: [u32; 5] = [13, 22, 31, 41, 51];

#[test]
fn each_call_may_fail_in_turn(rt: HostRuntime) -> Result<(), Fail> {
    let alloc = rt.alloc();
    for call in 1..54u32 {
        let above = format!(in alloc; "fault {call}\n")?;
        let text = harness(alloc, above.as_str(), "")?;
        let came = run(alloc, text.as_str(), TESTS)?;
        let words = if call == 53 || ZERO_CALLS.contains(&call) {
            "pass"
        } else {
            "fault"
        };
        assert_eq!(rt; came.words.as_str(), words, "call {call}");
        assert_eq!(rt; end_of(came.rig.events().as_slice(), &CLUSTERS), End::Zero);
    }
    Ok(())
}

#[test]
fn each_interlock_reading_may_be_open_in_turn(rt: HostRuntime) -> Result<(), Fail> {
    let alloc = rt.alloc();
    for reading in 1..12u32 {
        let above = format!(in alloc; "door {reading}\n")?;
        let text = harness(alloc, above.as_str(), "")?;
        let came = run(alloc, text.as_str(), TESTS)?;
        let words = if reading == 11 { "pass" } else { "open" };
        assert_eq!(rt; came.words.as_str(), words, "reading {reading}");
        assert_eq!(rt; end_of(came.rig.events().as_slice(), &CLUSTERS), End::Zero);
    }
    Ok(())
}

#[test]
fn three_zero_calls_may_fail(rt: HostRuntime) -> Result<(), Fail> {
    let alloc = rt.alloc();
    let units = [
        ("fault 13\n", "pass", End::Zero),
        ("fault 13\nfault 14\n", "pass", End::Zero),
        ("fault 13\nfault 14\nfault 15\n", "stuck", End::Stuck),
        (
            "fault 12\nfault 13\nfault 14\nfault 15\n",
            "stuck",
            End::Stuck,
        ),
    ];
    for (above, words, end) in units {
        let text = harness(alloc, above, "")?;
        let came = run(alloc, text.as_str(), TESTS)?;
        assert_eq!(rt; came.words.as_str(), words);
        assert_eq!(rt; end_of(came.rig.events().as_slice(), &CLUSTERS), end);
    }
    Ok(())
}
