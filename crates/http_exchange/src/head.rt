//! What the head of a request asks. It is read by `httparse`, once.

ghost use Rattle.std.specs.Prelude.{◌≡◌, ◌≤◌, ◌<◌, IfOk, IfNone, IfSome, All, length, find, count_by, drop, Some};
ghost use Rattle.httparse.specs.Grammar.{RequestHead};
ghost use Rattle.httparse.specs.Spans.{IsRequestAt, IsRequestWithin, IsHeaderWithin, span_bytes};
ghost use Rattle.http_exchange.specs.Heads.{IsHead, same_name, most_fields};
ghost use Rattle.http_exchange.specs.Requests.{refused, sized, unit_asked, asked_by, HeadAsks};
ghost use Rattle.http_exchange.specs.Routes.{page_at};
ghost use Rattle.http_exchange.specs.HeadParts.{ArePartsOf, PostedAs, PageAskedAs};

use crate::page::{Page, Submission};
use crate::request::{Asked, Refusal, Request};
use crate::route::{is_verb, page_at, path_of};
use base::Memory;
use httparse::Status;
use httparse::spans::{HeaderSpan, RequestSpans, parse_request};
use lines::read_number;
use partition::Name;
use std::alloc::Global;
use std::str::from_utf8;

/// The most fields that a head may have.
const MOST_FIELDS: usize = 64;

/// The most bytes that a body may have.
const LONGEST_BODY: usize = 4096;

/// The greatest number of nine digits.
const LONGEST_TOLD: u64 = 999_999_999;

/// What the bytes ask that are to be a head.
pub(crate) fn asked(alloc: Global, head: &[u8]) -> Result<Asked, Memory>
    ensures { IfOk result (HeadAsks head.now) }
{
    let mut fields = [HeaderSpan::default(); MOST_FIELDS];
    match read_spans(head, &mut fields) {
        Some(spans) => asked_at(alloc, head, spans, &fields[..spans.headers]),
        None => Ok(refused(Refusal::Request)),
    }
}

/// Where the parts of a head are, if all of the bytes are one with at most as many fields as there is room for.
fn read_spans(bytes: &[u8], fields: &mut [HeaderSpan]) -> Option<RequestSpans>
    requires { length fields.old ≡ most_fields }
    ensures none { IfNone result ((h : RequestHead) → ¬ (IsHead bytes.now h)) }
    ensures head { IfSome result (λ r. (h : RequestHead) × IsHead bytes.now h × IsRequestAt bytes.now fields.new r h) }
    ensures within { IfSome result (IsRequestWithin bytes.now fields.new) }
{
    match parse_request(bytes, fields) {
        Ok(Status::Complete(spans)) if spans.len == bytes.len() => Some(spans),
        _ => None,
    }
}

/// The checks on a head, in their order.
fn asked_at(
    alloc: Global,
    bytes: &[u8],
    spans: RequestSpans,
    fields: &[HeaderSpan],
) -> Result<Asked, Memory>
    requires path { (spans.path.start ≤ spans.path.end) × (spans.path.end ≤ length bytes.now) }
    requires method { (spans.method.start ≤ spans.method.end) × (spans.method.end ≤ length bytes.now) }
    requires fields { All (IsHeaderWithin (length bytes.now)) fields.now }
    ensures { (h : RequestHead) → ArePartsOf bytes.now spans fields.now h → IfOk result (λ asked. asked ≡ asked_by h) }
{
    if first_named(bytes, fields, b"transfer-encoding").is_some() {
        return Ok(refused(Refusal::Coding));
    }
    let path = match from_utf8(spans.path.of(bytes)) {
        Ok(target) => path_of(target),
        Err(_) => return Ok(refused(Refusal::Request)),
    };
    let Some(page) = page_at(alloc, path)? else {
        return Ok(refused(Refusal::NotFound));
    };
    if !is_verb(alloc, spans.method.of(bytes), page.verb()) {
        return Ok(refused(Refusal::Method(page.verb())));
    }
    Ok(page_asked(page, path, bytes, fields))
}

/// What a page is asked.
fn page_asked(page: Page, path: &str, bytes: &[u8], fields: &[HeaderSpan]) -> Asked
    requires path { page_at path.now ≡ Some page }
    requires fields { All (IsHeaderWithin (length bytes.now)) fields.now }
    ensures { PageAskedAs page path.now bytes.now fields.now result }
{
    match page {
        Page::Submit(submission) => posted(submission, bytes, fields),
        Page::Unit => unit_asked(path),
        Page::Report => Asked::Known(Request::Lot),
    }
}

/// A submission has one Content-Length, and that is a length.
fn posted(submission: Submission, bytes: &[u8], fields: &[HeaderSpan]) -> Asked
    requires { All (IsHeaderWithin (length bytes.now)) fields.now }
    ensures { PostedAs submission bytes.now fields.now result }
{
    let Some(first) = first_named(bytes, fields, b"content-length") else {
        return refused(Refusal::Length);
    };
    if count_named(bytes, fields, b"content-length") > 1 {
        return refused(Refusal::Request);
    }
    match read_number(first.value.of(bytes), 0, LONGEST_TOLD) {
        Some(length) => sized(submission, length as usize),
        None => refused(Refusal::Request),
    }
}

/// A body of so many bytes.
fn sized(submission: Submission, length: usize) -> Asked
    ensures { result ≡ sized submission length }
{
    if length > LONGEST_BODY {
        return refused(Refusal::TooLong);
    }
    Asked::Body { submission, length }
}

/// The report of a unit, whose serial is a name.
fn unit_asked(path: &str) -> Asked
    requires { 7 ≤ length path.now }
    ensures { result ≡ unit_asked (drop 7 path.now) }
{
    match Name::read(&path.as_bytes()[7..]) {
        Some(serial) => Asked::Known(Request::Unit(serial)),
        None => refused(Refusal::NotFound),
    }
}

fn refused(refusal: Refusal) -> Asked
    ensures { result ≡ refused refusal }
{
    Asked::Known(Request::Refused(refusal))
}

/// The first field with this name.
fn first_named(bytes: &[u8], fields: &[HeaderSpan], name: &[u8]) -> Option<HeaderSpan>
    requires { All (IsHeaderWithin (length bytes.now)) fields.now }
    ensures { result ≡ find (λ f. same_name (span_bytes bytes.now f.name) name.now) fields.now }
{
    fields
        .iter()
        .copied()
        .find(|field| is_named(bytes, field, name))
}

/// How many fields have this name.
fn count_named(bytes: &[u8], fields: &[HeaderSpan], name: &[u8]) -> usize
    requires { All (IsHeaderWithin (length bytes.now)) fields.now }
    ensures { result ≡ count_by (λ f. same_name (span_bytes bytes.now f.name) name.now) fields.now }
{
    fields
        .iter()
        .filter(|field| is_named(bytes, field, name))
        .count()
}

/// Whether a field has this name, in any case.
fn is_named(bytes: &[u8], field: &HeaderSpan, name: &[u8]) -> bool
    requires { IsHeaderWithin (length bytes.now) field.now }
    ensures { result ≡ same_name (span_bytes bytes.now field.now.name) name.now }
{
    field.name.of(bytes).eq_ignore_ascii_case(name)
}
