//! A request is read from a connection, and not one byte behind it.

ghost use Rattle.std.specs.Prelude.{◌≡◌, IfOk, IfSome, OnErr};
ghost use Rattle.std.specs.Result.{result_err};
ghost use Rattle.base.specs.Causes.{HasCause};
ghost use Rattle.bench_edge.specs.Streams.{SameOtherHalf, CountsFailure};
ghost use Rattle.bench_edge.specs.Whole.{LostFront};
ghost use Rattle.http_exchange.specs.Heads.{ends_head, longest_head};
ghost use Rattle.http_exchange.specs.Requests.{longest_body, SubmitsOnly, commanded};
ghost use Rattle.http_exchange.specs.Bodies.{command_of};
ghost use Rattle.http_exchange.specs.Reading.{TakesByte, FrontOf, AsksLittle, TakesRest, TakesRequest, most_taken};

use crate::body::command_of;
use crate::head::asked;
use crate::page::Submission;
use crate::request::{Asked, Refusal, Request};
use base::{Bytes, Memory};
use bench_edge::{EdgeStop, Source, read_upto};
use std::alloc::Global;

/// The most bytes of a head, its empty line among them.
const LONGEST_HEAD: usize = 8192;

/// What stands at the front of a connection's bytes.
pub(crate) enum Front {
    /// A head, to its end.
    Head(Bytes),
    /// The first bytes do not hold the end of a head.
    Endless,
    /// The bytes end before the head does.
    Cut,
}

/// Reads a request, and no byte behind it: None where the connection's bytes end before the request does.
///
/// A connection's failed read and want of memory lose what was read.
pub fn read_request<S: Source>(alloc: Global, conn: &mut S) -> Result<Option<Request>, EdgeStop>
    ensures submits { IfOk result (λ request. IfSome request SubmitsOnly) }
    ensures request { IfOk result (TakesRequest (S.left conn.old) (S.left conn.new)) }
    ensures refused { OnErr result (LostFront (S.left conn.old) (S.left conn.new) most_taken) }
    ensures cause { HasCause (S.read_faults conn.old) (S.read_faults conn.new) (result_err result) EdgeStop.Failed }
    ensures counted { CountsFailure (S.read_faults conn.old) (S.read_faults conn.new) result }
    ensures apart { SameOtherHalf (S.got conn.old) (S.got conn.new) (S.write_faults conn.old) (S.write_faults conn.new) }
{
    match read_front(alloc, conn)? {
        Front::Head(head) => {
            let asked = asked(alloc, head.as_slice())?;
            read_rest(alloc, conn, asked)
        }
        Front::Endless => Ok(Some(Request::Refused(Refusal::Request))),
        Front::Cut => Ok(None),
    }
}

/// Reads a head to its end, or until it is too long.
fn read_front<S: Source>(alloc: Global, conn: &mut S) -> Result<Front, EdgeStop>
    ensures front { IfOk result (FrontOf (S.left conn.old) (S.left conn.new)) }
    ensures refused { OnErr result (LostFront (S.left conn.old) (S.left conn.new) longest_head) }
    ensures cause { HasCause (S.read_faults conn.old) (S.read_faults conn.new) (result_err result) EdgeStop.Failed }
    ensures counted { CountsFailure (S.read_faults conn.old) (S.read_faults conn.new) result }
    ensures apart { SameOtherHalf (S.got conn.old) (S.got conn.new) (S.write_faults conn.old) (S.write_faults conn.new) }
{
    let mut taken = Bytes::new(alloc);
    for _ in 0..LONGEST_HEAD {
        let Some(byte) = read_byte(conn)? else {
            return Ok(Front::Cut);
        };
        taken.push(byte)?;
        if ends_head(taken.as_slice()) {
            return Ok(Front::Head(taken));
        }
    }
    Ok(Front::Endless)
}

/// The next byte, or None at the end.
fn read_byte<S: Source>(conn: &mut S) -> Result<Option<u8>, EdgeStop>
    ensures byte { IfOk result (TakesByte (S.left conn.old) (S.left conn.new)) }
    ensures refused { OnErr result (LostFront (S.left conn.old) (S.left conn.new) 0) }
    ensures cause { HasCause (S.read_faults conn.old) (S.read_faults conn.new) (result_err result) EdgeStop.Failed }
    ensures counted { CountsFailure (S.read_faults conn.old) (S.read_faults conn.new) result }
    ensures apart { SameOtherHalf (S.got conn.old) (S.got conn.new) (S.write_faults conn.old) (S.write_faults conn.new) }
{
    let mut buf = [0u8; 1];
    let count = conn.read(&mut buf)?;
    if count == 0 {
        return Ok(None);
    }
    Ok(Some(buf[0]))
}

/// Whether the bytes end with an LF and an empty line behind it.
fn ends_head(bytes: &[u8]) -> bool
    ensures { result ≡ ends_head bytes.now }
{
    bytes.ends_with(b"\n\n") || bytes.ends_with(b"\n\r\n")
}

/// Reads what a head asks for besides, which is a body or nothing.
fn read_rest<S: Source>(
    alloc: Global,
    conn: &mut S,
    asked: Asked,
) -> Result<Option<Request>, EdgeStop>
    requires { AsksLittle asked }
    ensures submits { IfOk result (λ request. IfSome request SubmitsOnly) }
    ensures rest { IfOk result (TakesRest asked (S.left conn.old) (S.left conn.new)) }
    ensures refused { OnErr result (LostFront (S.left conn.old) (S.left conn.new) longest_body) }
    ensures cause { HasCause (S.read_faults conn.old) (S.read_faults conn.new) (result_err result) EdgeStop.Failed }
    ensures counted { CountsFailure (S.read_faults conn.old) (S.read_faults conn.new) result }
    ensures apart { SameOtherHalf (S.got conn.old) (S.got conn.new) (S.write_faults conn.old) (S.write_faults conn.new) }
{
    match asked {
        Asked::Known(request) => Ok(Some(request)),
        Asked::Body { submission, length } => read_body(alloc, conn, submission, length),
    }
}

/// Reads a body, and gives the command that it submits.
fn read_body<S: Source>(
    alloc: Global,
    conn: &mut S,
    submission: Submission,
    length: usize,
) -> Result<Option<Request>, EdgeStop>
    ensures submits { IfOk result (λ request. IfSome request SubmitsOnly) }
    ensures rest { IfOk result (TakesRest (Asked.Body submission length) (S.left conn.old) (S.left conn.new)) }
    ensures refused { OnErr result (LostFront (S.left conn.old) (S.left conn.new) length) }
    ensures cause { HasCause (S.read_faults conn.old) (S.read_faults conn.new) (result_err result) EdgeStop.Failed }
    ensures counted { CountsFailure (S.read_faults conn.old) (S.read_faults conn.new) result }
    ensures apart { SameOtherHalf (S.got conn.old) (S.got conn.new) (S.write_faults conn.old) (S.write_faults conn.new) }
{
    let body = read_upto(alloc, conn, length)?;
    if body.len() < length {
        return Ok(None);
    }
    let request = submitted(alloc, submission, body.as_slice())?;
    Ok(Some(request))
}

/// What a body asks.
fn submitted(alloc: Global, submission: Submission, body: &[u8]) -> Result<Request, Memory>
    ensures request { IfOk result (λ request. request ≡ commanded (command_of submission body.now)) }
    ensures submits { IfOk result SubmitsOnly }
{
    match command_of(alloc, submission, body)? {
        Some(command) => Ok(Request::Command(command)),
        None => Ok(Request::Refused(Refusal::Request)),
    }
}
