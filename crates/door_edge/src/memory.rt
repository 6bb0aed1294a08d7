//! A door in memory.

ghost use Rattle.std.specs.Prelude.{◌≡◌, ◌↔◌, ◌≤◌, ◌+◌, ◌-◌, ◌^◌, min, IsTrue, [], All, Contains};
ghost use Rattle.door_edge.specs.Conns.{IsNew};

use crate::conn::{ConnList, MemConn};
use crate::door::Door;
use base::Counts;
use bench_edge::EdgeStop;
use std::alloc::Global;
use std::marker::Model;

/// A door that a list of connections comes through.
#[derive(Drop)]
pub struct MemDoor {
    waiting: ConnList,
    done: ConnList,
    failing: Counts,
    calls: u64,
    faults: u64,
}

impl Model for MemDoor {
    ghost use Rattle.std.specs.Prelude.{All};
    ghost use Rattle.door_edge.specs.Conns.{AtDoor, IsNew};

    ghost Value = { AtDoor };

    ghost view = { λ d. record {
      waiting = d.waiting.items;
      done = d.done.items;
      room = d.done.room;
      failing = d.failing;
      calls = d.calls;
      faults = d.faults;
    } };

    ghost invariant = { λ d. All IsNew d.waiting.items };
}

impl MemDoor {
    /// A door that these connections come through, whose calls of these numbers fail.
    pub fn new(alloc: Global, conns: ConnList, failing: Counts) -> Self
        requires { All IsNew conns.items }
        ensures waiting { result.waiting ≡ conns.items }
        ensures done { result.done ≡ [] }
        ensures failing { result.failing ≡ failing }
        ensures counts { (result.calls ≡ 0) × (result.faults ≡ 0) }
    {
        MemDoor {
            waiting: conns,
            done: ConnList::new(alloc),
            failing,
            calls: 0,
            faults: 0,
        }
    }

    /// The finished connections in order.
    pub fn finished(&self) -> &ConnList
        ensures { result.now.items ≡ self.now.done }
    {
        &self.done
    }

    // Counts a call, and answers whether it is to fail.
    fn is_to_fail(&mut self) -> bool
        ensures counted { self.new.calls ≡ min (self.old.calls + 1) (2 ^ 64 - 1) }
        ensures fails { IsTrue result ↔ Contains self.old.failing self.new.calls }
        ensures kept { self.new ≡ record self.old { calls = self.new.calls } }
    {
        self.calls = self.calls.saturating_add(1);
        self.failing.contains(self.calls)
    }

    fn fail(&mut self) -> EdgeStop
        ensures counted { self.new ≡ record self.old { faults = min (self.old.faults + 1) (2 ^ 64 - 1) } }
        ensures later { self.old.faults ≤ self.new.faults }
        ensures value { result ≡ EdgeStop.Failed }
    {
        self.faults = self.faults.saturating_add(1);
        EdgeStop::Failed
    }
}

impl Door for MemDoor {
    ghost use Rattle.std.specs.Prelude.{◌⊎◌, Err, IfOk, OnErr};
    ghost use Rattle.std.specs.Result.{result_err, IsOkUnless};
    ghost use Rattle.base.specs.Causes.{HasCause};
    ghost use Rattle.bench_edge.specs.Streams.{CountsFailure, one_more};
    ghost use Rattle.door_edge.specs.Conns.{talk_of, told_done, told_waiting};
    ghost use Rattle.door_edge.specs.Doors.{TakesFirst, IsFresh};

    type Conn = MemConn;

    ghost door_faults = { λ d. d.faults };

    ghost room = { λ d. d.room };

    ghost waiting = { told_waiting };

    ghost done = { told_done };

    fn listen(&mut self, _port: u16) -> Result<(), EdgeStop>
        ensures cause { HasCause self.old.faults self.new.faults (result_err result) EdgeStop.Failed }
        ensures counted { CountsFailure self.old.faults self.new.faults result }
        ensures waiting { told_waiting self.new ≡ told_waiting self.old }
        ensures done { told_done self.new ≡ told_done self.old }
        ensures called { self.new.calls ≡ one_more self.old.calls }
        ensures fails { (result ≡ Err EdgeStop.Failed) ↔ Contains self.old.failing self.new.calls }
        ensures only { IsOkUnless result EdgeStop.Failed }
        ensures kept { self.new ≡ record self.old { calls = self.new.calls; faults = self.new.faults } }
    {
        if self.is_to_fail() {
            return Err(self.fail());
        }
        Ok(())
    }

    fn accept(&mut self) -> Result<MemConn, EdgeStop>
        ensures cause { HasCause self.old.faults self.new.faults (result_err result) EdgeStop.Failed }
        ensures counted { CountsFailure self.old.faults self.new.faults result }
        ensures first { IfOk result (λ c. TakesFirst (told_waiting self.old) (told_waiting self.new) (talk_of c)) }
        ensures fresh { IfOk result (λ c. IsFresh (talk_of c)) }
        ensures room { IfOk result (λ _. 1 ≤ self.new.room) }
        ensures waiting { OnErr result (told_waiting self.new ≡ told_waiting self.old) }
        ensures done { told_done self.new ≡ told_done self.old }
        ensures called { self.new.calls ≡ one_more self.old.calls }
        ensures fails { Contains self.old.failing self.new.calls → result ≡ Err EdgeStop.Failed }
        ensures only { result ≡ Err EdgeStop.Failed → Contains self.old.failing self.new.calls ⊎ (self.old.waiting ≡ []) }
        ensures kept { self.new.failing ≡ self.old.failing }
    {
        if self.is_to_fail() {
            return Err(self.fail());
        }
        self.done.make_room()?;
        match self.waiting.take_first() {
            Some(conn) => Ok(conn),
            None => Err(self.fail()),
        }
    }

    fn finish(&mut self, conn: MemConn) {
        self.done.push_in_room(conn);
    }
}
