//! What requests ask, and the bytes of replies, typed from the rules.

use crate::{
    AnswerKind, Refusal, Request, Stop, Verb, answer_reply, read_request, refusal_reply,
    report_reply, stop_reply,
};
use base::{Bytes, Counts, Text};
use bench_edge::{EdgeStop, MemSource};
use serials::Command;
use std::test::Fail;

const SMALL: &str =
    "POST /tests HTTP/1.1\r\nHost: 127.0.0.1:8080\r\nUser-Agent: curl/8.5.0\r\nAccept: */*\r\n\
    Content-Type: application/json\r\nContent-Length: 26\r\n\r\n{\"id\":\"S1\",\"serial\":\"SN1\"}";

fn read(rt: &impl AllocGlobal, bytes: &[u8], failing: u64) -> Result<Option<Request>, EdgeStop> {
    let bytes = Bytes::from_slice(rt.alloc(), bytes)?;
    let failing = Counts::from_slice(rt.alloc(), &[failing])?;
    read_request(rt.alloc(), &mut MemSource::new(bytes, failing))
}

// The status of a refusal, 200 for what is asked of the station, and 0 for a cut.
fn status(rt: &impl AllocGlobal, bytes: &[u8]) -> Result<u16, Fail> {
    Ok(match read(rt, bytes, 0)? {
        Some(Request::Refused(refusal)) => refusal.status(),
        Some(_) => 200,
        None => 0,
    })
}

fn post(rt: &impl AllocGlobal, path: &str, length: &str, body: &str) -> Result<String, Fail> {
    Ok(format!(in rt.alloc(); "POST {path} HTTP/1.1\r\n{length}\r\n{body}")?)
}

#[test]
fn the_first_check_that_applies_decides(rt: HostRuntime) -> Result<(), Fail> {
    let table = [
        (SMALL, 200),
        ("GET /report HTTP/1.1\n\n", 200),
        ("GET /units/SN1?now HTTP/1.0\r\n\r\n", 200),
        ("GET /units/S%4E1 HTTP/1.1\r\n\r\n", 404),
        ("GET /units/ HTTP/1.1\r\n\r\n", 404),
        ("GET /x HTTP/1.1\r\n\r\n", 404),
        ("PUT /x HTTP/1.1\r\nTransfer-Encoding: chunked\r\n\r\n", 501),
        ("DELETE /x HTTP/1.1\r\n\r\n", 404),
        ("DELETE /tests HTTP/1.1\r\n\r\n", 405),
        ("POST /report HTTP/1.1\r\n\r\n", 405),
        ("POST /tests HTTP/1.1\r\n\r\n", 411),
        (
            "POST /tests HTTP/1.1\r\nContent-Length: 2\r\ncontent-length: 2\r\n\r\n{}",
            400,
        ),
        ("POST /tests HTTP/1.1\r\nContent-Length: 02\r\n\r\n{}", 400),
        ("POST /tests HTTP/1.1\r\nContent-Length: +2\r\n\r\n{}", 400),
        (
            "POST /tests HTTP/1.1\r\nContent-Length: 1000000000\r\n\r\n",
            400,
        ),
        ("POST /tests HTTP/1.1\r\nContent-Length: 4097\r\n\r\n", 413),
        ("POST /tests HTTP/1.1\r\nContent-Length: 4096\r\n\r\n", 0),
        ("POST /tests HTTP/1.1\r\nContent-Length: 2\r\n\r\n[]", 400),
        ("\n\nGET /report HTTP/1.1\r\n\r\n", 400),
        ("nonsense\r\n\r\n", 400),
        ("GET /report HTTP/1.1\r\n", 0),
    ];
    for (text, want) in table {
        assert_eq!(rt; status(&rt, text.as_bytes())?, want);
    }
    Ok(())
}

#[test]
fn a_request_that_is_cut_asks_nothing(rt: HostRuntime) -> Result<(), Fail> {
    let bytes = SMALL.as_bytes();
    for end in 0..bytes.len() {
        assert_eq!(rt; status(&rt, &bytes[..end])?, 0);
    }
    let failed = read(&rt, bytes, 9);
    assert!(rt; matches!(failed, Err(EdgeStop::Failed)));
    Ok(())
}

#[test]
fn bodies_name_a_unit_and_perhaps_who_and_where(rt: HostRuntime) -> Result<(), Fail> {
    let table = [
        ("{\"id\":\"S1\",\"serial\":\"SN1\",\"more\":[1]}", 200),
        (
            "{\"id\":\"S1\",\"serial\":\"SN1\",\"operator\":\"OP7\"}",
            400,
        ),
        (
            "{\"id\":\"S1\",\"serial\":\"SN1\",\"operator\":\"OP7\",\"fixture\":\"FX2\"}",
            200,
        ),
        (
            "{\"id\":\"S1\",\"serial\":\"SN1\",\"operator\":\"OP7\",\"fixture\":2}",
            400,
        ),
        ("{\"id\":\"S1\",\"serial\":\"S N\"}", 400),
        ("{\"id\":\"S1\"}", 400),
    ];
    for (body, want) in table {
        let length = format!(in rt.alloc(); "Content-Length: {}\r\n", body.len())?;
        let request = post(&rt, "/tests", length.as_str(), body)?;
        assert_eq!(rt; status(&rt, request.as_bytes())?, want);
    }
    let length = "Content-Length: 43\r\n";
    let body = "{\"id\":\"R1\",\"serial\":\"SN1\",\"operator\":\"OP7\"}";
    let request = post(&rt, "/rework", length, body)?;
    let asked = read(&rt, request.as_bytes(), 0)?;
    assert!(rt; matches!(asked, Some(Request::Command(Command::Rework { .. }))));
    Ok(())
}

// A request for the report of the lot, with so many fields of so many bytes each.
fn get_with(rt: &impl AllocGlobal, fields: usize, width: usize) -> Result<Text, Fail> {
    let mut text = Text::from_text(rt.alloc(), "GET /report HTTP/1.1\n")?;
    for _ in 0..fields {
        text.push_str("a:")?;
        for _ in 0..width {
            text.push_str("x")?;
        }
        text.push_str("\n")?;
    }
    text.push_str("\n")?;
    Ok(text)
}

#[test]
fn heads_end_within_8192_bytes_and_have_64_fields(rt: HostRuntime) -> Result<(), Fail> {
    for (fields, want) in [(64, 200), (65, 400)] {
        assert_eq!(rt; status(&rt, get_with(&rt, fields, 1)?.as_bytes())?, want);
    }
    for (length, want) in [(8191, 200), (8192, 200), (8193, 400)] {
        let text = get_with(&rt, 1, length - 25)?;
        assert_eq!(rt; text.len(), length);
        assert_eq!(rt; status(&rt, text.as_bytes())?, want);
    }
    Ok(())
}

#[test]
fn bodies_nest_127_deep(rt: HostRuntime) -> Result<(), Fail> {
    for (depth, want) in [(126, 200), (127, 400)] {
        let mut body = Text::from_text(rt.alloc(), "{\"id\":\"S1\",\"serial\":\"SN1\",\"more\":")?;
        for _ in 0..depth {
            body.push_str("[")?;
        }
        for _ in 0..depth {
            body.push_str("]")?;
        }
        body.push_str("}")?;
        let length = format!(in rt.alloc(); "Content-Length: {}\r\n", body.len())?;
        let request = post(&rt, "/tests", length.as_str(), body.as_str())?;
        assert_eq!(rt; status(&rt, request.as_bytes())?, want);
    }
    Ok(())
}

#[test]
fn replies_are_these_bytes(rt: HostRuntime) -> Result<(), Fail> {
    let answer = answer_reply(rt.alloc(), AnswerKind::Done, "OK 3 S1 PASS")?;
    assert_eq!(rt;
        answer.as_str(),
        "HTTP/1.1 200 OK\r\nContent-Type: application/json\r\nContent-Length: 25\r\nConnection: close\r\n\r\n{\"answer\":\"OK 3 S1 PASS\"}"
    );
    let method = refusal_reply(rt.alloc(), Refusal::Method(Verb::Post))?;
    assert_eq!(rt;
        method.as_str(),
        "HTTP/1.1 405 Method Not Allowed\r\nAllow: POST\r\nContent-Type: application/json\r\n\
        Content-Length: 18\r\nConnection: close\r\n\r\n{\"error\":\"method\"}"
    );
    let report = report_reply(rt.alloc(), "UNIT SN1\n")?;
    assert_eq!(rt;
        report.as_str(),
        "HTTP/1.1 200 OK\r\nContent-Type: text/plain\r\nContent-Length: 9\r\nConnection: close\r\n\r\nUNIT SN1\n"
    );
    assert!(rt; stop_reply(Stop::Memory).ends_with(b"{\"error\":\"memory\"}"));
    Ok(())
}
