//! A connection in memory: what it has to say, and what was said to it.

ghost use Rattle.std.specs.Prelude.{◌≡◌, ◌↔◌, ◌<◌, min, Some, length, Contains, Err, IfOk};
ghost use Rattle.std.specs.Result.{result_err, IsOkUnless};
ghost use Rattle.std.specs.Io.{ReadsAtMost};
ghost use Rattle.std.specs.Io.KnownBytes.{ReadConsumes, WriteAppends};
ghost use Rattle.base.specs.Causes.{HasCause};
ghost use Rattle.bench_edge.specs.Streams.{TakesSome, SameOtherHalf, CountsFailure, one_more};

use base::{Bytes, Counts, Memory};
use bench_edge::{EdgeStop, MemSink, MemSource, Sink, Source, Stream};
use std::alloc::Global;
use std::marker::Model;

/// A connection in memory, which fails at the reads and the writes that two lists name.
#[derive(Drop)]
pub struct MemConn {
    input: MemSource,
    output: MemSink,
}

impl Stream for MemConn {
    ghost left = { λ c. Some c.input.left };

    ghost read_faults = { λ c. c.input.faults };

    ghost got = { λ c. Some c.output.got };

    ghost write_faults = { λ c. c.output.faults };
}

impl MemConn {
    ghost use Rattle.std.specs.Prelude.{◌≡◌, []};
    ghost use Rattle.door_edge.specs.Conns.{IsNew};

    /// A connection that says these bytes, and whose reads and writes of these numbers, counted from 1, fail.
    pub fn new(alloc: Global, bytes: Bytes, failing_reads: Counts, failing_writes: Counts) -> Self
        ensures input { result.input ≡ record { left = bytes; failing = failing_reads; calls = 0; faults = 0 } }
        ensures output { result.output ≡ record { got = []; failing = failing_writes; calls = 0; faults = 0 } }
        ensures fresh { IsNew result }
    {
        MemConn {
            input: MemSource::new(bytes, failing_reads),
            output: MemSink::new(alloc, failing_writes),
        }
    }

    /// What was written to it.
    pub fn written(&self) -> &[u8]
        ensures { result.now ≡ self.now.output.got }
    {
        self.output.bytes()
    }
}

impl Source for MemConn {
    fn read(&mut self, buf: &mut [u8]) -> Result<usize, EdgeStop>
        requires { 0 < length buf.old }
        ensures bound { ReadsAtMost result buf.new }
        ensures bytes { ReadConsumes (Some self.old.input.left) (Some self.new.input.left) result buf.new }
        ensures cause { HasCause self.old.input.faults self.new.input.faults (result_err result) EdgeStop.Failed }
        ensures apart { SameOtherHalf (Some self.old.output.got) (Some self.new.output.got) self.old.output.faults self.new.output.faults }
        ensures full { IfOk result (λ n. n ≡ min (length self.old.input.left) (length buf.new)) }
        ensures called { self.new.input.calls ≡ one_more self.old.input.calls }
        ensures fails { (result ≡ Err EdgeStop.Failed) ↔ Contains self.old.input.failing self.new.input.calls }
        ensures counted { CountsFailure self.old.input.faults self.new.input.faults result }
        ensures only { IsOkUnless result EdgeStop.Failed }
        ensures kept { self.new.input.failing ≡ self.old.input.failing }
        ensures other_half { self.new.output ≡ self.old.output }
    {
        self.input.read(buf)
    }
}

impl Sink for MemConn {
    fn write(&mut self, bytes: &[u8]) -> Result<usize, EdgeStop>
        requires { 0 < length bytes.now }
        ensures bound { TakesSome result bytes.now }
        ensures bytes { WriteAppends (Some self.old.output.got) (Some self.new.output.got) result bytes.now }
        ensures cause { HasCause self.old.output.faults self.new.output.faults (result_err result) EdgeStop.Failed }
        ensures apart { SameOtherHalf (Some self.old.input.left) (Some self.new.input.left) self.old.input.faults self.new.input.faults }
        ensures full { IfOk result (λ n. n ≡ length bytes.now) }
        ensures called { self.new.output.calls ≡ one_more self.old.output.calls }
        ensures fails { (result ≡ Err EdgeStop.Failed) ↔ Contains self.old.output.failing self.new.output.calls }
        ensures counted { CountsFailure self.old.output.faults self.new.output.faults result }
        ensures kept { self.new.output.failing ≡ self.old.output.failing }
        ensures other_half { self.new.input ≡ self.old.input }
    {
        self.output.write(bytes)
    }
}

/// A list of connections. Contracts see the list, and how many more it has room for.
#[derive(Drop)]
pub struct ConnList {
    items: Vec<MemConn>,
}

impl Model for ConnList {
    ghost use Rattle.std.specs.Prelude.{◌-◌, vec_len, vec_capacity};
    ghost use Rattle.door_edge.specs.Conns.{Conns};

    ghost Value = { Conns };

    ghost view = { λ l. record { items = l.items.items; room = vec_capacity l.items - vec_len l.items } };
}

impl ConnList {
    ghost use Rattle.std.specs.Prelude.{◌≡◌, ◌≤◌, ◌+◌, ◌∷◌, ◌++◌, [], All, MatchOption, OnOk, OnErr};
    ghost use Rattle.door_edge.specs.Conns.{IsNew};

    /// The empty list.
    pub fn new(alloc: Global) -> Self
        ensures items { result.items ≡ [] }
        ensures fresh { All IsNew result.items }
    {
        ConnList {
            items: Vec::new(alloc),
        }
    }

    pub fn as_slice(&self) -> &[MemConn]
        ensures { result.now ≡ self.now.items }
    {
        self.items.as_slice()
    }

    /// Puts a connection behind the others.
    pub fn push(&mut self, conn: MemConn) -> Result<(), Memory>
        ensures ok { OnOk result (self.new.items ≡ self.old.items ++ conn ∷ []) }
        ensures err { OnErr result (self.new.items ≡ self.old.items) }
        ensures fresh { All IsNew self.old.items → IsNew conn → All IsNew self.new.items }
    {
        self.items.push(conn)?;
        Ok(())
    }

    /// Takes the first connection off.
    pub(crate) fn take_first(&mut self) -> Option<MemConn>
        ensures { MatchOption result ((self.old.items ≡ []) × (self.new.items ≡ [])) (λ c. self.old.items ≡ c ∷ self.new.items) }
    {
        if self.items.is_empty() {
            return None;
        }
        Some(self.items.remove(0))
    }

    /// Makes room for one more.
    pub(crate) fn make_room(&mut self) -> Result<(), Memory>
        ensures items { self.new.items ≡ self.old.items }
        ensures ok { OnOk result (1 ≤ self.new.room) }
    {
        self.items.reserve(1)?;
        Ok(())
    }

    /// Puts a connection behind the others, where there is room.
    pub(crate) fn push_in_room(&mut self, conn: MemConn)
        requires { 1 ≤ self.old.room }
        ensures items { self.new.items ≡ self.old.items ++ conn ∷ [] }
        ensures room { self.old.room ≤ self.new.room + 1 }
    {
        match self.items.push(conn) {
            Ok(()) => {}
            Err(_) => unreachable!(),
        }
    }
}
