//! The replies, as texts.

ghost use Rattle.std.specs.Prelude.{◌≡◌, IfOk, string_bytes};
ghost use Rattle.http_exchange.specs.Replies.{first_line, allow_line, type_line, length_line, json_text, reply_bytes};
ghost use Rattle.http_exchange.specs.Replies.{refusal_reply, stop_reply, report_reply, answer_reply};

use crate::page::Verb;
use crate::request::Refusal;
use base::{Memory, Text};
use http::StatusCode;
use std::alloc::Global;

/// How a command came out.
#[derive(Clone, Copy, Debug, PartialEq, Eq)]
pub enum AnswerKind {
    /// Its record is stored, now or before.
    Done,
    /// A rule or a full journal refuses it.
    Conflict,
    /// The fixture could not do it.
    Gateway,
}

/// Why the station stops.
#[derive(Clone, Copy, Debug, PartialEq, Eq)]
pub enum Stop {
    Disk,
    Memory,
}

/// The first line of a reply, the method that is allowed where another was asked, and the type of the body.
#[derive(Clone, Copy)]
struct Start<'a> {
    status: u16,
    phrase: &'a str,
    allowed: Option<Verb>,
    kind: &'a str,
}

impl Refusal {
    ghost use Rattle.std.specs.Prelude.{◌≡◌};
    ghost use Rattle.http_exchange.specs.Replies.{refusal_reply, refusal_word};

    /// The status of its reply.
    pub fn status(self) -> u16
        ensures { result ≡ (refusal_reply self).status }
    {
        match self {
            Refusal::Request => StatusCode::BAD_REQUEST.as_u16(),
            Refusal::Coding => StatusCode::NOT_IMPLEMENTED.as_u16(),
            Refusal::NotFound => StatusCode::NOT_FOUND.as_u16(),
            Refusal::Method(_) => StatusCode::METHOD_NOT_ALLOWED.as_u16(),
            Refusal::Length => StatusCode::LENGTH_REQUIRED.as_u16(),
            Refusal::TooLong => StatusCode::PAYLOAD_TOO_LARGE.as_u16(),
        }
    }

    fn phrase(self) -> &'static str
        ensures { result.now ≡ (refusal_reply self).phrase }
    {
        match self {
            Refusal::Request => "Bad Request",
            Refusal::Coding => "Not Implemented",
            Refusal::NotFound => "Not Found",
            Refusal::Method(_) => "Method Not Allowed",
            Refusal::Length => "Length Required",
            Refusal::TooLong => "Content Too Large",
        }
    }

    /// The method that is allowed, where another was asked.
    fn allowed(self) -> Option<Verb>
        ensures { result ≡ (refusal_reply self).allowed }
    {
        match self {
            Refusal::Method(verb) => Some(verb),
            _ => None,
        }
    }

    /// The word for it in the body.
    fn word(self) -> &'static str
        ensures { result.now ≡ refusal_word self }
    {
        match self {
            Refusal::Request => "request",
            Refusal::Coding => "coding",
            Refusal::NotFound => "not found",
            Refusal::Method(_) => "method",
            Refusal::Length => "length",
            Refusal::TooLong => "too long",
        }
    }
}

impl AnswerKind {
    ghost use Rattle.std.specs.Prelude.{◌≡◌, ℕ, List};
    ghost use Rattle.http_exchange.specs.Replies.{answer_reply};

    /// The status of its reply.
    pub fn status(self) -> u16
        ensures { (line : List ℕ) → result ≡ (answer_reply self line).status }
    {
        match self {
            AnswerKind::Done => StatusCode::OK.as_u16(),
            AnswerKind::Conflict => StatusCode::CONFLICT.as_u16(),
            AnswerKind::Gateway => StatusCode::BAD_GATEWAY.as_u16(),
        }
    }

    fn phrase(self) -> &'static str
        ensures { (line : List ℕ) → result.now ≡ (answer_reply self line).phrase }
    {
        match self {
            AnswerKind::Done => "OK",
            AnswerKind::Conflict => "Conflict",
            AnswerKind::Gateway => "Bad Gateway",
        }
    }
}

/// The reply to a request that is refused.
pub fn refusal_reply(alloc: Global, refusal: Refusal) -> Result<Text, Memory>
    ensures { IfOk result (λ text. text ≡ reply_bytes (refusal_reply refusal)) }
{
    let start = Start {
        status: refusal.status(),
        phrase: refusal.phrase(),
        allowed: refusal.allowed(),
        kind: "application/json",
    };
    let body = json_text(alloc, "error", refusal.word())?;
    reply_text(alloc, start, body.as_str())
}

/// The reply to a command that came out so, with its answer line.
pub fn answer_reply(alloc: Global, kind: AnswerKind, line: &str) -> Result<Text, Memory>
    ensures { IfOk result (λ text. text ≡ reply_bytes (answer_reply kind line.now)) }
{
    let start = Start {
        status: kind.status(),
        phrase: kind.phrase(),
        allowed: None,
        kind: "application/json",
    };
    let body = json_text(alloc, "answer", line)?;
    reply_text(alloc, start, body.as_str())
}

/// The reply with a report.
pub fn report_reply(alloc: Global, report: &str) -> Result<Text, Memory>
    ensures { IfOk result (λ text. text ≡ reply_bytes (report_reply report.now)) }
{
    let start = Start {
        status: AnswerKind::Done.status(),
        phrase: "OK",
        allowed: None,
        kind: "text/plain",
    };
    reply_text(alloc, start, report)
}

/// The reply where the station stops. It takes no memory.
pub fn stop_reply(stop: Stop) -> &'static [u8]
    ensures { result.now ≡ reply_bytes (stop_reply stop) }
{
    match stop {
        Stop::Disk => disk_reply(),
        Stop::Memory => memory_reply(),
    }
}

fn disk_reply() -> &'static [u8]
    ensures { result.now ≡ reply_bytes (stop_reply Stop.Disk) }
{
    b"HTTP/1.1 503 Service Unavailable\r\nContent-Type: application/json\r\nContent-Length: 16\r\nConnection: close\r\n\r\n{\"error\":\"disk\"}"
}

fn memory_reply() -> &'static [u8]
    ensures { result.now ≡ reply_bytes (stop_reply Stop.Memory) }
{
    b"HTTP/1.1 500 Internal Server Error\r\nContent-Type: application/json\r\nContent-Length: 18\r\nConnection: close\r\n\r\n{\"error\":\"memory\"}"
}

/// A reply with this body.
fn reply_text(alloc: Global, start: Start, body: &str) -> Result<Text, Memory>
    ensures { IfOk result (λ text. text ≡ reply_bytes (record {
      status = start.entry.status;
      phrase = start.entry.phrase.now;
      allowed = start.entry.allowed;
      kind = start.entry.kind.now;
      body = body.now;
    })) }
{
    let mut text = Text::new(alloc);
    text.push_str(first_line(alloc, start.status, start.phrase)?.as_str())?;
    text.push_str(allow_line(alloc, start.allowed)?.as_str())?;
    text.push_str(type_line(alloc, start.kind)?.as_str())?;
    text.push_str(length_line(alloc, body.len())?.as_str())?;
    text.push_str("Connection: close\r\n\r\n")?;
    text.push_str(body)?;
    Ok(text)
}

fn first_line(alloc: Global, status: u16, phrase: &str) -> Result<String, Memory>
    ensures { IfOk result (λ line. string_bytes line ≡ first_line status phrase.now) }
{
    Ok(format!(in alloc; "HTTP/1.1 {status} {phrase}\r\n")?)
}

fn type_line(alloc: Global, kind: &str) -> Result<String, Memory>
    ensures { IfOk result (λ line. string_bytes line ≡ type_line kind.now) }
{
    Ok(format!(in alloc; "Content-Type: {kind}\r\n")?)
}

fn length_line(alloc: Global, length: usize) -> Result<String, Memory>
    ensures { IfOk result (λ line. string_bytes line ≡ length_line length) }
{
    Ok(format!(in alloc; "Content-Length: {length}\r\n")?)
}

/// The line that names the method that is allowed.
fn allow_line(alloc: Global, allowed: Option<Verb>) -> Result<String, Memory>
    ensures { IfOk result (λ line. string_bytes line ≡ allow_line allowed) }
{
    match allowed {
        Some(verb) => {
            let name = verb.name();
            Ok(format!(in alloc; "Allow: {name}\r\n")?)
        }
        None => Ok(String::new(alloc)),
    }
}

/// An object with one member, whose text has no byte that JSON would escape.
fn json_text(alloc: Global, key: &str, text: &str) -> Result<String, Memory>
    ensures { IfOk result (λ body. string_bytes body ≡ json_text key.now text.now) }
{
    Ok(format!(in alloc; "{{\"{key}\":\"{text}\"}}")?)
}
