//! What a request made of the station, and its reply.

ghost use Rattle.std.specs.Prelude.{◌≡◌, List, ℕ, Option, IfOk, string_bytes};
ghost use Rattle.bench_edge.specs.Clocks.{Ticks};
ghost use Rattle.serials.specs.declared.command.Command.{Command};
ghost use Rattle.serials.specs.Commands.{id_of};
ghost use Rattle.station.specs.AnswerText.{HasDays};
ghost use Rattle.station.specs.Step.{answered};
ghost use Rattle.station.specs.View.{StationState};
ghost use Rattle.http_exchange.specs.declared.request.Request.{Request};
ghost use Rattle.http_exchange.specs.declared.request.Request.TheVariants as asks;
ghost use Rattle.http_exchange.specs.Requests.{SubmitsOnly};
ghost use Rattle.http_exchange.specs.Replies.{Reply, reply_bytes};
ghost use Rattle.station_http.specs.Expected.{kind_of, said_reply, stuck_line, report_or_none};
ghost use Rattle.station_http.specs.Commanded.{WasAnswered, WasStopped};
ghost use Rattle.station_http.specs.Turns.{GoesOnWith};
ghost use Rattle.station_http.specs.Served.{IsTurn, LastStuck, LastFor};

use base::{Memory, Text};
use bench_edge::Clock;
use disk_edge::Disk;
use http_exchange::{
    AnswerKind, Refusal, Request, Stop, answer_reply, refusal_reply, report_reply, stop_reply,
};
use partition::Name;
use report::{lot_report, unit_report};
use rig::Rig;
use serials::Command;
use station::{Answer, Refused, Station, StepDone, StepStop, answer_line};
use std::alloc::Global;

/// What a request came to.
pub(crate) enum Turn<R: Rig, D: Disk> {
    /// The station goes on, with this reply and its status.
    Goes {
        station: Station<R, D>,
        reply: Text,
        status: u16,
    },
    /// It stops, with a last reply.
    Halts {
        stop: StepStop<R, D>,
        reply: Last,
    },
}

/// The reply where the station stops.
#[derive(Drop)]
pub(crate) enum Last {
    Fixed(Stop),
    Made(Text),
}

impl Last {
    ghost use Rattle.std.specs.Prelude.{◌≡◌};
    ghost use Rattle.station_http.specs.Served.{last_bytes};

    pub(crate) fn as_bytes(&self) -> &[u8]
        ensures { result.now ≡ last_bytes self.now }
    {
        match self {
            Last::Fixed(stop) => stop_reply(*stop),
            Last::Made(text) => text.as_bytes(),
        }
    }
}

/// Does what a request asks.
pub(crate) fn turn_for<R: Rig + Drop, D: Disk, C: Clock>(
    alloc: Global,
    station: Station<R, D>,
    clock: &mut C,
    request: Request,
) -> Turn<R, D>
    requires { SubmitsOnly request }
    ensures { IsTurn R.state D.state station request (C.moments clock.old) (C.moments clock.new) result }
{
    match request {
        Request::Refused(refusal) => {
            let reply = refusal_reply(alloc, refusal);
            replied(station, reply, refusal.status())
        }
        Request::Unit(serial) => unit_turn(alloc, station, serial),
        Request::Lot => lot_turn(alloc, station),
        Request::Command(command) => command_turn(alloc, station, clock, command),
    }
}

/// The station goes on with a reply, or stops where memory ran out for it.
fn replied<R: Rig + Drop, D: Disk>(
    station: Station<R, D>,
    reply: Result<Text, Memory>,
    status: u16,
) -> Turn<R, D>
    ensures { (old : StationState) (request : Request) (moments moments' : Option (List ℕ)) (r : Reply)
        → IfOk reply (λ text. text ≡ reply_bytes r) → status ≡ r.status → GoesOnWith old request moments moments' r station
        → IsTurn R.state D.state old request moments moments' result }
{
    match reply {
        Ok(reply) => Turn::Goes {
            station,
            reply,
            status,
        },
        Err(Memory) => without_memory(station),
    }
}

/// The station stops, since memory ran out for a reply.
fn without_memory<R: Rig + Drop, D: Disk>(station: Station<R, D>) -> Turn<R, D>
    ensures { (old : StationState) (request : Request) (moments moments' : Option (List ℕ)) (r : Reply)
        → GoesOnWith old request moments moments' r station → IsTurn R.state D.state old request moments moments' result }
{
    let (rig, disk) = station.into_parts();
    Turn::Halts {
        stop: StepStop::Memory { rig, disk },
        reply: Last::Fixed(Stop::Memory),
    }
}

/// The report of a unit, or that it is not enrolled.
fn unit_turn<R: Rig + Drop, D: Disk>(
    alloc: Global,
    station: Station<R, D>,
    serial: Name,
) -> Turn<R, D>
    ensures { (moments : Option (List ℕ)) → IsTurn R.state D.state station (asks.Unit serial) moments moments result }
{
    match unit_report(alloc, station.records(), serial) {
        Ok(report) => {
            let reply = unit_reply(alloc, &report);
            let status = unit_status(&report);
            replied(station, reply, status)
        }
        Err(Memory) => without_memory(station),
    }
}

/// The reply with a report, or that there is none.
fn unit_reply(alloc: Global, report: &Option<Text>) -> Result<Text, Memory>
    ensures { IfOk result (λ text. text ≡ reply_bytes (report_or_none report.now)) }
{
    match report {
        Some(report) => report_reply(alloc, report.as_str()),
        None => refusal_reply(alloc, Refusal::NotFound),
    }
}

/// Its status.
fn unit_status(report: &Option<Text>) -> u16
    ensures { result ≡ (report_or_none report.now).status }
{
    match report.is_some() {
        true => AnswerKind::Done.status(),
        false => Refusal::NotFound.status(),
    }
}

/// The report of the lot.
fn lot_turn<R: Rig + Drop, D: Disk>(alloc: Global, station: Station<R, D>) -> Turn<R, D>
    ensures { (moments : Option (List ℕ)) → IsTurn R.state D.state station asks.Lot moments moments result }
{
    match lot_report(alloc, station.records()) {
        Ok(report) => {
            let reply = report_reply(alloc, report.as_str());
            replied(station, reply, AnswerKind::Done.status())
        }
        Err(Memory) => without_memory(station),
    }
}

/// A command, at the clock's moment.
fn command_turn<R: Rig + Drop, D: Disk, C: Clock>(
    alloc: Global,
    station: Station<R, D>,
    clock: &mut C,
    command: Command,
) -> Turn<R, D>
    requires { SubmitsOnly (asks.Command command) }
    ensures { IsTurn R.state D.state station (asks.Command command) (C.moments clock.old) (C.moments clock.new) result }
{
    let now = clock.now();
    let id = command.id();
    match station.apply(&command, now) {
        Ok(done) => {
            let StepDone { station, answer } = done;
            answered(alloc, id, station, answer)
        }
        Err(stop) => stopped(alloc, id, stop),
    }
}

/// A command was answered.
fn answered<R: Rig + Drop, D: Disk>(
    alloc: Global,
    id: Name,
    station: Station<R, D>,
    answer: Answer,
) -> Turn<R, D>
    requires { HasDays answer }
    ensures { (old : StationState) (c : Command) (moments moments' : Option (List ℕ)) (now : ℕ) → id ≡ id_of c → Ticks moments moments' now
        → WasAnswered old c now answer station → IsTurn R.state D.state old (asks.Command c) moments moments' result }
{
    let kind = kind_of(&answer);
    let reply = said_reply(alloc, kind, &answer, id);
    replied(station, reply, kind.status())
}

/// A command ends the station.
fn stopped<R: Rig, D: Disk>(alloc: Global, id: Name, stop: StepStop<R, D>) -> Turn<R, D>
    ensures { (old : StationState) (c : Command) (moments moments' : Option (List ℕ)) (now : ℕ) → id ≡ id_of c → Ticks moments moments' now
        → WasStopped R.state D.state old c now stop → IsTurn R.state D.state old (asks.Command c) moments moments' result }
{
    let reply = last_reply(alloc, id, &stop);
    Turn::Halts { stop, reply }
}

/// The reply where a command ends the station.
fn last_reply<R: Rig, D: Disk>(alloc: Global, id: Name, stop: &StepStop<R, D>) -> Last
    ensures { LastFor id stop.now result }
{
    match stop {
        StepStop::Disk { .. } => Last::Fixed(Stop::Disk),
        StepStop::NotZero { .. } => stuck_reply(alloc, id),
        StepStop::Memory { .. } => Last::Fixed(Stop::Memory),
    }
}

/// The reply with the line of an answer.
fn said_reply(alloc: Global, kind: AnswerKind, answer: &Answer, id: Name) -> Result<Text, Memory>
    requires kind { kind ≡ kind_of answer.now }
    requires days { HasDays answer.now }
    ensures { IfOk result (λ text. text ≡ reply_bytes (said_reply id (answered answer.now))) }
{
    let line = answer_line(alloc, answer, id)?;
    answer_reply(alloc, kind, line.as_str())
}

/// The reply that the source is not at zero.
fn stuck_reply(alloc: Global, id: Name) -> Last
    ensures { LastStuck id result }
{
    let Ok(line) = stuck_line(alloc, &id) else {
        return Last::Fixed(Stop::Memory);
    };
    match answer_reply(alloc, AnswerKind::Gateway, line.as_str()) {
        Ok(reply) => Last::Made(reply),
        Err(Memory) => Last::Fixed(Stop::Memory),
    }
}

/// The line that the source is not at zero.
fn stuck_line(alloc: Global, id: &Name) -> Result<String, Memory>
    ensures { IfOk result (λ line. string_bytes line ≡ stuck_line id.now) }
{
    let id = id.text();
    Ok(format!(in alloc; "NO E21 {id}")?)
}

/// How an answered command came out.
fn kind_of(answer: &Answer) -> AnswerKind
    ensures { result ≡ kind_of answer.now }
{
    match answer {
        Answer::Stored { .. } | Answer::Same { .. } => AnswerKind::Done,
        Answer::No(refused) => match refused {
            Refused::Rule(_) | Refused::Full => AnswerKind::Conflict,
            Refused::Empty | Refused::Door | Refused::Charged(_) | Refused::RigFault => {
                AnswerKind::Gateway
            }
        },
    }
}
