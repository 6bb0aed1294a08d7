//! Standard input as a source.

ghost use Rattle.std.specs.Prelude.{◌≡◌, ◌<◌, None, length};
ghost use Rattle.std.specs.Result.{result_err, IsOkUnless};
ghost use Rattle.std.specs.Io.{ReadsAtMost};
ghost use Rattle.std.specs.Io.KnownBytes.{ReadConsumes};
ghost use Rattle.base.specs.Causes.{HasCause};
ghost use Rattle.bench_edge.specs.Streams.{SameOtherHalf, CountsFailure};

use crate::stream::{EdgeStop, Source, Stream};
use std::io::{Input, Read};
use std::marker::Model;

/// Standard input. What it has left is not told.
///
/// A contract sees how many of its reads failed.
#[derive(Drop)]
pub struct StdIn<R: Input> {
    rt: R,
    faults: u64,
}

impl<R: Input> Model for StdIn<R> {
    ghost use Rattle.std.specs.Prelude.{ℕ};

    ghost Value = { ℕ };

    ghost view = { λ s. s.faults };
}

impl<R: Input> Stream for StdIn<R> {
    ghost left = { λ _. None };

    ghost read_faults = { λ faults. faults };

    ghost got = { λ _. None };

    ghost write_faults = { λ _. 0 };
}

impl<R: Input> StdIn<R> {
    /// Standard input, of which nothing was read yet.
    pub fn new(rt: R) -> Self
        ensures { result ≡ 0 }
    {
        StdIn { rt, faults: 0 }
    }
}

impl<R: Input> Source for StdIn<R> {
    fn read(&mut self, buf: &mut [u8]) -> Result<usize, EdgeStop>
        requires { 0 < length buf.old }
        ensures bound { ReadsAtMost result buf.new }
        ensures bytes { ReadConsumes None None result buf.new }
        ensures cause { HasCause self.old self.new (result_err result) EdgeStop.Failed }
        ensures apart { SameOtherHalf None None 0 0 }
        ensures counted { CountsFailure self.old self.new result }
        ensures only { IsOkUnless result EdgeStop.Failed }
    {
        let mut input = self.rt.reader();
        match input.read(buf) {
            Ok(count) => Ok(count),
            Err(_) => {
                self.faults = self.faults.saturating_add(1);
                Err(EdgeStop::Failed)
            }
        }
    }
}
