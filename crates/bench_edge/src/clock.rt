//! What tells the time: a clock over a list of moments, and the real one.

ghost use Rattle.std.specs.Prelude.{None, List, ℕ, Option};
ghost use Rattle.bench_edge.specs.Clocks.{Ticks};

use base::Counts;
use std::marker::Model;
use std::time::{self, SystemTime};

/// What tells the time, in seconds since the beginning of 1970. It cannot fail.
pub trait Clock {
    /// The moments that it will tell, where it tells them; the last one repeats, and where there is none it tells 0.
    ghost moments: { Self → Option (List ℕ) };

    /// The moment now.
    fn now(&mut self) -> u64
        ensures { Ticks (Self.moments self.old) (Self.moments self.new) result };
}

/// A clock of these moments, the last of which repeats. A contract sees the list that is left.
#[derive(Debug, Drop)]
pub struct MemClock {
    moments: Counts,
    at: usize,
}

impl Model for MemClock {
    ghost use Rattle.std.specs.Prelude.{List, ℕ, ◌≤◌, length, drop};

    ghost Value = { List ℕ };

    ghost view = { λ c. drop c.at c.moments };

    ghost invariant = { λ c. c.at ≤ length c.moments };
}

impl MemClock {
    ghost use Rattle.std.specs.Prelude.{◌≡◌};

    /// A clock that tells these moments in order.
    pub fn new(moments: Counts) -> Self
        ensures { result ≡ moments }
    {
        MemClock { moments, at: 0 }
    }
}

impl Clock for MemClock {
    ghost use Rattle.std.specs.Prelude.{Some};

    ghost moments = { λ moments. Some moments };

    fn now(&mut self) -> u64 {
        let left = &self.moments.as_slice()[self.at..];
        let Some(now) = left.first().copied() else {
            return 0;
        };
        if left.len() > 1 {
            self.at += 1;
        }
        now
    }
}

/// The clock of the system, which tells 0 where it cannot be read. What it will tell is not told.
#[derive(Drop)]
pub struct RealClock<R: time::Clock> {
    rt: R,
}

impl<R: time::Clock> RealClock<R> {
    /// The clock of this runtime.
    pub fn new(rt: R) -> Self {
        RealClock { rt }
    }
}

impl<R: time::Clock> Clock for RealClock<R> {
    ghost moments = { λ _. None };

    fn now(&mut self) -> u64 {
        let Ok(now) = SystemTime::now(&self.rt) else {
            return 0;
        };
        match now.duration_since(SystemTime::UNIX_EPOCH) {
            Ok(since) => since.as_secs(),
            Err(_) => 0,
        }
    }
}
