//! What a door means.

ghost use Rattle.std.specs.Prelude.{◌≡◌, ◌≤◌, ℕ, List, Option, IfOk, OnErr};
ghost use Rattle.std.specs.Result.{result_err};
ghost use Rattle.base.specs.Causes.{HasCause};
ghost use Rattle.bench_edge.specs.Streams.{CountsFailure};
ghost use Rattle.door_edge.specs.Doors.{Talk, TakesFirst, IsFresh, with_done, Finished};

use bench_edge::{EdgeStop, Sink, Source};

/// Where connections come in, one after another.
pub trait Door {
    type Conn: Source + Sink + Drop;

    /// How often a call failed. It stands still at the last number of 64 bits.
    ghost door_faults: { Self → ℕ };

    /// How many finished connections there is room for.
    ghost room: { Self → ℕ };

    /// The bytes of each connection that waits, in order, where it tells them.
    ghost waiting: { Self → Option (List (List ℕ)) };

    /// The finished connections in order, where it tells them.
    ghost done: { Self → Option (List Talk) };

    /// Waits for connections on this port from now on.
    fn listen(&mut self, port: u16) -> Result<(), EdgeStop>
        ensures cause { HasCause (Self.door_faults self.old) (Self.door_faults self.new) (result_err result) EdgeStop.Failed }
        ensures counted { CountsFailure (Self.door_faults self.old) (Self.door_faults self.new) result }
        ensures waiting { Self.waiting self.new ≡ Self.waiting self.old }
        ensures done { Self.done self.new ≡ Self.done self.old };

    /// The next connection: the first of those that wait. After it there is room for one that is finished.
    fn accept(&mut self) -> Result<Self::Conn, EdgeStop>
        ensures cause { HasCause (Self.door_faults self.old) (Self.door_faults self.new) (result_err result) EdgeStop.Failed }
        ensures counted { CountsFailure (Self.door_faults self.old) (Self.door_faults self.new) result }
        ensures first { IfOk result (λ c. TakesFirst (Self.waiting self.old) (Self.waiting self.new)
            (record { left = Self.Conn.left c; got = Self.Conn.got c; read_faults = Self.Conn.read_faults c; write_faults = Self.Conn.write_faults c })) }
        ensures fresh { IfOk result (λ c. IsFresh
            (record { left = Self.Conn.left c; got = Self.Conn.got c; read_faults = Self.Conn.read_faults c; write_faults = Self.Conn.write_faults c })) }
        ensures room { IfOk result (λ _. 1 ≤ Self.room self.new) }
        ensures waiting { OnErr result (Self.waiting self.new ≡ Self.waiting self.old) }
        ensures done { Self.done self.new ≡ Self.done self.old };

    /// Takes a connection back, and puts it behind those that are finished.
    fn finish(&mut self, conn: Self::Conn)
        requires { 1 ≤ Self.room self.old }
        ensures done { Self.done self.new ≡ with_done (Self.done self.old)
            (record {
              left = Self.Conn.left conn;
              got = Self.Conn.got conn;
              read_faults = Self.Conn.read_faults conn;
              write_faults = Self.Conn.write_faults conn;
            }) }
        ensures rest { Finished (Self.waiting self.old) (Self.waiting self.new)
            (Self.door_faults self.old) (Self.door_faults self.new) (Self.room self.old) (Self.room self.new) };
}
