//! Requests, served behind a script that adopted a program and enrolled a unit.

ghost use Rattle.std.specs.Prelude.{IfOk};
ghost use Rattle.door_edge.specs.Conns.{IsNew};

use crate::desk::{Came, ONE, answered, served};
use crate::ending::End;
use base::{Bytes, Counts};
use door_edge::{ConnList, MemConn, MemDoor};
use std::alloc::Global;
use std::test::Fail;

const TEST: &str =
    "POST /tests HTTP/1.1\r\nHost: 127.0.0.1:8080\r\nUser-Agent: curl/8.5.0\r\nAccept: */*\r\n\
     Content-Type: application/json\r\nContent-Length: 26\r\n\r\n{\"id\":\"S1\",\"serial\":\"SN1\"}";

/// The same, cut in its body.
const CUT: &str =
    "POST /tests HTTP/1.1\r\nHost: 127.0.0.1:8080\r\nUser-Agent: curl/8.5.0\r\nAccept: */*\r\n\
     Content-Type: application/json\r\nContent-Length: 26\r\n\r\n{\"id\":\"S1\"";

const UNKNOWN: &str = "GET /units/SN9 HTTP/1.1\r\n\r\n";

const PASSED: &str =
    "HTTP/1.1 200 OK\r\nContent-Type: application/json\r\nContent-Length: 25\r\nConnection: close\r\n\r\n{\"answer\":\"OK 3 S1 PASS\"}";

const PASSED_BEFORE: &str =
    "HTTP/1.1 200 OK\r\nContent-Type: application/json\r\nContent-Length: 27\r\nConnection: close\r\n\r\n{\"answer\":\"SAME 3 S1 PASS\"}";

const NOT_FOUND: &str =
    "HTTP/1.1 404 Not Found\r\nContent-Type: application/json\r\nContent-Length: 21\r\nConnection: close\r\n\r\n{\"error\":\"not found\"}";

/// How many bytes a record of a test that passed takes in the journal.
const RECORD: usize = 23;

/// Two requests, the call of the door that fails, counted from 1 (0: none), and the write to the first connection that does, the
/// status, the lines, the two replies, and by how many bytes the journal grew.
#[derive(Clone, Copy)]
struct Day {
    requests: (&'static str, &'static str),
    failing: u64,
    unwritten: u64,
    status: u8,
    lines: &'static str,
    replies: (&'static str, &'static str),
    grown: usize,
}

const DAYS: [Day; 5] = [
    Day {
        requests: (TEST, TEST),
        failing: 0,
        unwritten: 0,
        status: 0,
        lines: "conn 1 200\nconn 2 200\n",
        replies: (PASSED, PASSED_BEFORE),
        grown: RECORD,
    },
    Day {
        requests: (TEST, TEST),
        failing: 0,
        unwritten: 1,
        status: 0,
        lines: "conn 1 cut\nconn 2 200\n",
        replies: ("", PASSED_BEFORE),
        grown: RECORD,
    },
    Day {
        requests: (CUT, UNKNOWN),
        failing: 0,
        unwritten: 0,
        status: 0,
        lines: "conn 1 cut\nconn 2 404\n",
        replies: ("", NOT_FOUND),
        grown: 0,
    },
    Day {
        requests: (TEST, TEST),
        failing: 1,
        unwritten: 0,
        status: 11,
        lines: "network fault\n",
        replies: ("", ""),
        grown: 0,
    },
    Day {
        requests: (TEST, TEST),
        failing: 3,
        unwritten: 0,
        status: 11,
        lines: "conn 1 200\nnetwork fault\n",
        replies: (PASSED, ""),
        grown: RECORD,
    },
];

/// A connection that says these bytes, whose write of this number fails.
fn conn_of(alloc: Global, request: &[u8], unwritten: u64) -> Result<MemConn, Fail>
    ensures { IfOk result IsNew }
{
    let bytes = Bytes::from_slice(alloc, request)?;
    let reads = Counts::new(alloc);
    let writes = Counts::from_slice(alloc, &[unwritten])?;
    Ok(MemConn::new(alloc, bytes, reads, writes))
}

/// The door that a day's two requests come through.
fn door_of(alloc: Global, day: &Day) -> Result<MemDoor, Fail> {
    let mut conns = ConnList::new(alloc);
    let first = conn_of(alloc, day.requests.0.as_bytes(), day.unwritten)?;
    conns.push(first)?;
    let second = conn_of(alloc, day.requests.1.as_bytes(), 0)?;
    conns.push(second)?;
    let failing = Counts::from_slice(alloc, &[day.failing])?;
    Ok(MemDoor::new(alloc, conns, failing))
}

/// What was written to a finished connection; nothing where it is not finished.
fn reply(door: &MemDoor, place: usize) -> &[u8] {
    match door.finished().as_slice().get(place) {
        Some(conn) => conn.written(),
        None => b"".as_slice(),
    }
}

const BEGIN: &str = "adopt A1\nenrol N1 SN1\n";

#[test]
fn requests_are_served_in_order(rt: HostRuntime) -> Result<(), Fail> {
    let began = answered(rt.alloc(), ONE, BEGIN, b"")?;
    assert_eq!(rt; began.text.as_slice(), b"OK 1 A1\nOK 2 N1\n".as_slice());
    let line = "serve --port 8080 --count 2";
    for day in DAYS {
        let mut door = door_of(rt.alloc(), &day)?;
        let came = served(rt.alloc(), ONE, line, began.image.as_slice(), &mut door)?;
        assert_eq!(rt; came.status, day.status);
        assert_eq!(rt; came.end, End::Zero);
        assert_eq!(rt; came.text.as_slice(), day.lines.as_bytes());
        assert_eq!(rt; reply(&door, 0), day.replies.0.as_bytes());
        assert_eq!(rt; reply(&door, 1), day.replies.1.as_bytes());
        let grown = came.image.len().saturating_sub(began.image.len());
        assert_eq!(rt; grown, day.grown);
    }
    Ok(())
}

/// What serving one connection came to, and its reply.
#[derive(Drop)]
struct Replied {
    came: Came,
    reply: Bytes,
}

/// Serves one connection that says these bytes.
fn reply_to(alloc: Global, request: &[u8], journal: &[u8]) -> Result<Replied, Fail> {
    let conn = conn_of(alloc, request, 0)?;
    let mut conns = ConnList::new(alloc);
    conns.push(conn)?;
    let mut door = MemDoor::new(alloc, conns, Counts::new(alloc));
    let came = served(
        alloc,
        ONE,
        "serve --port 8080 --count 1",
        journal,
        &mut door,
    )?;
    let text = Bytes::from_slice(alloc, reply(&door, 0))?;
    Ok(Replied { came, reply: text })
}

#[test]
fn a_request_cut_anywhere_has_no_reply_and_adds_no_record(rt: HostRuntime) -> Result<(), Fail> {
    let began = answered(rt.alloc(), ONE, BEGIN, b"")?;
    let journal = began.image.as_slice();
    let request = TEST.as_bytes();
    for len in 0..request.len() {
        let Replied { came, reply } = reply_to(rt.alloc(), &request[..len], journal)?;
        assert_eq!(rt; came.status, 0, "{len}");
        assert_eq!(rt; came.text.as_slice(), b"conn 1 cut\n".as_slice(), "{len}");
        assert_eq!(rt; reply.len(), 0, "{len}");
        assert_eq!(rt; came.image.as_slice(), journal, "{len}");
    }
    Ok(())
}
