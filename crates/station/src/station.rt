//! A station: a rig, the records on a disk, and the program.

ghost use Rattle.std.specs.Prelude.{◌≡◌, ℕ, List, IfOk};
ghost use Rattle.rig.specs.RigState.{RigState};
ghost use Rattle.wirelist.specs.declared.outcome.Outcome.{Outcome};
ghost use Rattle.records.specs.declared.record.StationRecord.{StationRecord};
ghost use Rattle.unit_outcome.specs.Tested.{IsStopped};
ghost use Rattle.station.specs.Applied.{Applied, LeavesManned, station_of};
ghost use Rattle.serials.specs.declared.decision.Decision.{Decision};
ghost use Rattle.station.specs.Ended.{AnswersBy, IsToTest, LeavesRecords};
ghost use Rattle.station.specs.Step.{Tests};
ghost use Rattle.station.specs.View.{IsManned, IsStanding};

use crate::making::{named, named_staff, record_for};
use crate::moments::{next_moment, verdict_in, verdict_of};
use crate::{Answer, Refused, StepStop};
use base::Memory;
use disk_edge::Disk;
use ledger::{AddStop, Ledger, MountStop};
use partition::Name;
use records::{Body, RecordList, Staff, StationRecord};
use rig::Rig;
use sequence::run_unit;
use serials::{Command, Decision};
use std::alloc::Global;
use std::marker::Model;
use unit_outcome::{UnitRun, UnitStop};
use wirelist::Program;

/// A rig, the records on a disk, and the program. Contracts see what they mean.
pub struct Station<R: Rig, D: Disk> {
    alloc: Global,
    rig: R,
    ledger: Ledger<D>,
    program: Program,
}

impl<R: Rig, D: Disk> Model for Station<R, D> {
    ghost use Rattle.station.specs.View.{StationState, IsManned};

    ghost Value = { StationState };

    ghost view = { λ s. record { rig = R.state s.rig; disk = s.ledger.disk; program = s.program; records = s.ledger.records; full = s.ledger.full } };

    ghost invariant = { λ s. IsManned (R.state s.rig) s.program };
}

/// A command that was answered.
pub struct StepDone<R: Rig, D: Disk> {
    pub station: Station<R, D>,
    pub answer: Answer,
}

impl<R: Rig + Drop, D: Disk> Station<R, D> {
    ghost use Rattle.std.specs.Prelude.{◌≡◌, IfOk};
    ghost use Rattle.wirelist.specs.Programs.{IsProgram};
    ghost use Rattle.ledger.specs.Opening.{Opens};
    ghost use Rattle.station.specs.Mounted.{state_mounted, opening_mounted};
    ghost use Rattle.station.specs.View.{IsStanding};

    /// Opens the journal on a disk, and finds its records. A refusal drops the rig.
    pub fn mount(
        alloc: Global,
        rig: R,
        disk: D,
        program: Program,
    ) -> Result<Station<R, D>, MountStop<D>>
        requires unpowered { (R.state rig).volts ≡ 0 }
        requires program { IsProgram program }
        requires fits { (R.state rig).points ≡ program.nets.points }
        ensures opens { Opens (D.state disk) (state_mounted D.state result) (opening_mounted result) }
        ensures standing { IfOk result IsStanding }
        ensures rig { IfOk result (λ station. station.rig ≡ R.state rig) }
        ensures same { IfOk result (λ station. station.program ≡ program) }
    {
        match Ledger::mount(alloc, disk) {
            Ok(ledger) => {
                let _records = ledger.records();
                Ok(Station {
                    alloc,
                    rig,
                    ledger,
                    program,
                })
            }
            Err(stop) => Err(stop),
        }
    }
}

impl<R: Rig, D: Disk> Station<R, D> {
    ghost use Rattle.std.specs.Prelude.{◌≡◌, ◌≤◌, false, IfOk, IfErr};
    ghost use Rattle.wirelist.specs.declared.outcome.Outcome.TheVariants.{Pass};
    ghost use Rattle.disk_edge.specs.Disk.{LeavesOnly, EachImage};
    ghost use Rattle.journal.specs.Journal.{KeepsLimit};
    ghost use Rattle.records.specs.RecordRanges.{IsRecord, last_moment};
    ghost use Rattle.unit_outcome.specs.Found.{Findings};
    ghost use Rattle.serials.specs.Decided.{IsDecided, IsNoTest};
    ghost use Rattle.ledger.specs.Kept.{IsImageOf, is_full};
    ghost use Rattle.ledger.specs.Ledger.{Tells};
    ghost use Rattle.station.specs.AnswerText.{HasDays, DecidesDays};
    ghost use Rattle.station.specs.Applied.{Applied, Storing};
    ghost use Rattle.station.specs.Commands.{IsAsked};
    ghost use Rattle.station.specs.Step.{Step, StepBy, Tests, decision_at, record_of, test_record};
    ghost use Rattle.station.specs.View.{IsStanding, IsTold, Same};
    ghost use Rattle.serials.specs.declared.decision.Decision.TheVariants.{Test};
    ghost use Rattle.station.specs.Ended.{AnswersBy, Ends, EndsBy, LeavesRecords, disk_after, rig_after, end_of, StopsFor};
    ghost use Rattle.station.specs.RigAfter.{Bears, TestOf, RigEnds, VoltageEnds, GrowsTallies, StaysOrKeeps};

    /// The records, the first one first.
    pub fn records(&self) -> &RecordList
        ensures records { result.now ≡ self.now.records }
        ensures standing { IsStanding self.now }
    {
        let _rig = &self.rig;
        self.ledger.records()
    }

    /// The rig and the disk, as they are.
    pub fn into_parts(self) -> (R, D)
        ensures rig { R.state result.0 ≡ self.rig }
        ensures unpowered { (R.state result.0).volts ≡ 0 }
        ensures disk { D.state result.1 ≡ self.disk }
        ensures images { EachImage (D.state result.1) (IsImageOf self.records) }
    {
        let Station {
            alloc: _,
            rig,
            ledger,
            program: _,
        } = self;
        (rig, ledger.into_disk())
    }

    /// One command, where the clock says so many seconds from the beginning of 1970.
    pub fn apply(self, c: &Command, now: u64) -> Result<StepDone<R, D>, StepStop<R, D>>
        requires { IsAsked c.now }

        // Where the rig tells its units: its reply and the records behind it are a step, and a crash at any moment leaves the records
        // before it, or those behind it. Of a rig that tells none, they are a step by something that it may have found.
        ensures step { (findings : Findings) → IsTold self findings
            → Ends self (end_of D.state result) (Step findings self.program self.records c.now now) }
        ensures some_step { Tells self.disk → (findings : Findings)
            × Ends self (end_of D.state result) (Step findings self.program self.records c.now now) }

        // The same, and what a crash may keep of it is what the rig shows, though no answer was given.
        ensures bears { Tells self.disk → EndsBy self (end_of D.state result) (λ findings reply later.
            Step findings self.program self.records c.now now reply later
            × Bears self (disk_after (end_of D.state result)) later (rig_after R.state result)) }

        // Whatever rig and disk tell: but for a stored record the records stay, and an answer by the rules is the decision's.
        ensures records { IfOk result (λ done. LeavesRecords self.records done.station.records done.answer) }
        ensures decided { IfOk result (λ done. AnswersBy (decision_at self.program self.records c.now now) done.answer) }

        ensures days { IfOk result (λ done. HasDays done.answer) }
        ensures standing { IfOk result (λ done. IsStanding done.station) }
        ensures same { IfOk result (λ done. Same self done.station) }
        ensures stop { IfErr result (StopsFor R.state D.state self) }
        ensures limit { LeavesOnly self.disk (disk_after (end_of D.state result)) (KeepsLimit self.disk) }
        ensures disk_later { self.disk.faults ≤ (disk_after (end_of D.state result)).faults }

        // What each answer and each stop says of the rig, with its cause.
        ensures rig { RigEnds R.state (TestOf c.now (decision_at self.program self.records c.now now)) self result }
        ensures rig_kept { StaysOrKeeps self.rig (rig_after R.state result) }
        ensures tallies { GrowsTallies (TestOf c.now (decision_at self.program self.records c.now now)) self.rig (rig_after R.state result) }
        ensures voltage { VoltageEnds R.state self result }
    {
        let moment = next_moment(self.ledger.records().as_slice(), now);
        let decision = self.ledger.book().decide(c, moment, &self.program);
        self.carry_out(decision, c, moment)
    }

    // What was decided on.
    fn carry_out(
        self,
        decision: Decision,
        c: &Command,
        moment: u64,
    ) -> Result<StepDone<R, D>, StepStop<R, D>>
        requires asked { IsAsked c.now }
        requires moment { moment ≤ last_moment }
        requires decided { IsDecided self.records c.now self.program decision }
        requires days { DecidesDays decision }
        ensures records { IfOk result (λ done. LeavesRecords self.records done.station.records done.answer) }
        ensures decided { IfOk result (λ done. AnswersBy decision done.answer) }
        ensures applied { Applied R.state D.state (TestOf c.now decision)
            (λ findings. StepBy findings self.program self.records c.now moment decision) self result }
    {
        match decision {
            Decision::Same(number) => {
                let verdict = verdict_of(self.ledger.records().as_slice(), number);
                Ok(self.answered(Answer::Same { number, verdict }))
            }
            Decision::No(rule) => Ok(self.answered(Answer::No(Refused::Rule(rule)))),
            Decision::Keep => self.keep(c, moment),
            Decision::Test { attempt } => {
                if self.ledger.full() {
                    return Ok(self.answered(Answer::No(Refused::Full)));
                }
                match c {
                    Command::Test { id, serial, staff } => self.test(
                        *id, *serial, *staff, attempt, moment,
                    ),
                    _ => unreachable!(),
                }
            }
        }
    }

    // The station is as it was.
    fn answered(self, answer: Answer) -> StepDone<R, D>
        ensures answer { result.answer ≡ answer }
        ensures station { result.station ≡ self }
        ensures standing { IsStanding self }
    {
        let _rig = &self.rig;
        let _records = self.ledger.records();
        StepDone {
            station: self,
            answer,
        }
    }

    // Keeps a command that is no test.
    fn keep(self, c: &Command, moment: u64) -> Result<StepDone<R, D>, StepStop<R, D>>
        requires asked { IsAsked c.now }
        requires moment { moment ≤ last_moment }
        requires no_test { IsNoTest c.now }
        ensures records { IfOk result (λ done. LeavesRecords self.records done.station.records done.answer) }
        ensures storing { Storing R.state D.state (record_of self.program moment 0 Pass c.now) self result }
        ensures unpowered { self.rig.volts ≡ 0 }
    {
        let _rig = &self.rig;
        match record_for(self.alloc, &self.program, moment, c) {
            Ok(r) => self.store(r),
            Err(Memory) => {
                let (rig, disk) = self.into_parts();
                Err(StepStop::Memory { rig, disk })
            }
        }
    }

    // Adds a record, where there is room.
    fn store(self, r: StationRecord) -> Result<StepDone<R, D>, StepStop<R, D>>
        requires { IsRecord r }
        ensures records { IfOk result (λ done. LeavesRecords self.records done.station.records done.answer) }
        ensures storing { Storing R.state D.state r self result }
    {
        let verdict = verdict_in(&r.body);
        let Station {
            alloc,
            rig,
            ledger,
            program,
        } = self;
        match ledger.add(r) {
            Ok(ledger) => {
                let number = ledger.count();
                Ok(done(
                    alloc,
                    rig,
                    ledger,
                    program,
                    Answer::Stored { number, verdict },
                ))
            }
            Err(AddStop::Full(ledger)) => Ok(done(
                alloc,
                rig,
                ledger,
                program,
                Answer::No(Refused::Full),
            )),
            Err(AddStop::Disk(disk)) => Err(StepStop::Disk { rig, disk }),
            Err(AddStop::Memory(disk)) => Err(StepStop::Memory { rig, disk }),
        }
    }

    // Tests a unit, where there is room for its record.
    fn test(
        self,
        id: Name,
        serial: Name,
        staff: Option<Staff>,
        attempt: u8,
        moment: u64,
    ) -> Result<StepDone<R, D>, StepStop<R, D>>
        requires attempt { (1 ≤ attempt) × (attempt ≤ 9) }
        requires moment { moment ≤ last_moment }
        requires room { self.full ≡ false }
        requires told_room { Tells self.disk → is_full self.records ≡ false }
        ensures records { IfOk result (λ done. LeavesRecords self.records done.station.records done.answer) }
        ensures decided { IfOk result (λ done. AnswersBy (Test attempt) done.answer) }
        ensures applied { Applied R.state D.state (λ P. P serial attempt)
            (λ findings. Tests self.records (test_record id serial staff attempt moment) (findings serial attempt)) self result }
    {
        let id = named(&id);
        let serial = named(&serial);
        let staff = named_staff(&staff);
        let Station {
            alloc,
            rig,
            ledger,
            program,
        } = self;
        match run_unit(alloc, rig, &program, serial.text(), attempt) {
            Ok(UnitRun { rig, outcome }) => {
                let station = Station {
                    alloc,
                    rig,
                    ledger,
                    program,
                };
                let body = Body::Tested {
                    serial,
                    attempt,
                    staff,
                    outcome,
                };
                station.store(StationRecord { id, moment, body })
            }
            Err(stop) => stopped(alloc, ledger, program, stop),
        }
    }
}

// A station with its answer.
fn done<R: Rig, D: Disk>(
    alloc: Global,
    rig: R,
    ledger: Ledger<D>,
    program: Program,
    answer: Answer,
) -> StepDone<R, D>
    requires { IsManned (R.state rig) program }
    ensures answer { result.answer ≡ answer }
    ensures station { result.station ≡ station_of (R.state rig) ledger program }
    ensures standing { IsStanding result.station }
{
    let station = Station {
        alloc,
        rig,
        ledger,
        program,
    };
    station.answered(answer)
}

// The test of a unit that has no outcome.
fn stopped<R: Rig, D: Disk>(
    alloc: Global,
    ledger: Ledger<D>,
    program: Program,
    stop: UnitStop<R>,
) -> Result<StepDone<R, D>, StepStop<R, D>>
    requires { LeavesManned R.state program stop }
    ensures records { IfOk result (λ done. LeavesRecords ledger.records done.station.records done.answer) }
    ensures decided { (d : Decision) → IsToTest d → IfOk result (λ done. AnswersBy d done.answer) }
    // Whatever the rig was before the test, of whatever serial and attempt it was, and whatever record it was to have.
    ensures applied { (rig : RigState) (serial : List ℕ) (attempt : ℕ) (made : Outcome → StationRecord)
        → program.nets.points ≡ rig.points → IsStopped R.state program serial attempt rig stop
        → Applied R.state D.state (λ P. P serial attempt) (λ findings. Tests ledger.records made (findings serial attempt))
        (station_of rig ledger program) result }
{
    match stop {
        UnitStop::Empty(rig) => Ok(done(alloc, rig, ledger, program, Answer::No(Refused::Empty))),
        UnitStop::InterlockOpen(rig) => Ok(done(
            alloc,
            rig,
            ledger,
            program,
            Answer::No(Refused::Door),
        )),
        UnitStop::NotDischarged(rig, volts) => Ok(done(
            alloc,
            rig,
            ledger,
            program,
            Answer::No(Refused::Charged(volts)),
        )),
        UnitStop::RigFault(rig) => Ok(done(
            alloc,
            rig,
            ledger,
            program,
            Answer::No(Refused::RigFault),
        )),
        UnitStop::NotZero(stuck) => Err(StepStop::NotZero {
            stuck,
            disk: ledger.into_disk(),
        }),
        UnitStop::Memory(rig) => Err(StepStop::Memory {
            rig,
            disk: ledger.into_disk(),
        }),
    }
}
