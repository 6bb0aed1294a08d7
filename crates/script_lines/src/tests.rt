//! Scripts read to their end, with memory at hand.

use crate::{LineStop, NextLine, next_line};
use base::{Bytes, Counts, Text};
use bench_edge::MemSource;
use std::test::Fail;

/// The lines of a script, each with its number, and how it ends.
fn read_all(rt: &impl AllocGlobal, script: &[u8], failing: u64) -> Result<Text, Fail> {
    let bytes = Bytes::from_slice(rt.alloc(), script)?;
    let mut input = MemSource::new(bytes, Counts::from_slice(rt.alloc(), &[failing])?);
    let mut pending = Bytes::new(rt.alloc());
    let mut seen = Text::new(rt.alloc());
    for number in 1..9 {
        let ends = match next_line(rt.alloc(), &mut input, &mut pending, number) {
            Ok(NextLine::Line(line)) => {
                seen.push_str(format!(in rt.alloc(); "{number}:{} ", line.len())?.as_str())?;
                continue;
            }
            Ok(NextLine::Last(line)) => format!(in rt.alloc(); "{number}:{} last", line.len())?,
            Ok(NextLine::End) => format!(in rt.alloc(); "end")?,
            Err(LineStop::Failed) => format!(in rt.alloc(); "failed, {} kept", pending.len())?,
            Err(LineStop::TooLong) => format!(in rt.alloc(); "too long")?,
            Err(LineStop::Memory) => format!(in rt.alloc(); "memory")?,
        };
        seen.push_str(ends.as_str())?;
        break;
    }
    Ok(seen)
}

#[test]
fn lines_are_given_one_by_one_and_measured_with_their_cr(rt: HostRuntime) -> Result<(), Fail> {
    let mut most = Bytes::from_slice(rt.alloc(), [b'a'; 199].as_slice())?;
    most.append(b"\r\n")?;
    let mut long = Bytes::from_slice(rt.alloc(), [b'a'; 200].as_slice())?;
    long.append(b"\r\n")?;
    for (script, failing, want) in [
        (b"".as_slice(), 0, "end"),
        (b"\n\n", 0, "1:0 2:0 end"),
        (b"adopt A1\r\n# b\nlast", 0, "1:9 2:3 3:4 last"),
        (b"adopt A1\nrest", 2, "1:8 failed, 4 kept"),
        (most.as_slice(), 0, "1:200 end"),
        (long.as_slice(), 0, "too long"),
        ([b'a'; 201].as_slice(), 0, "too long"),
        ([b'a'; 200].as_slice(), 0, "1:200 last"),
    ] {
        assert_eq!(rt; read_all(&rt, script, failing)?.as_str(), want);
    }
    Ok(())
}
