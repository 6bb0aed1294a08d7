//! Each list once, with memory at hand.

use crate::{Bytes, Counts, Memory, Text};
use std::test::Fail;

#[test]
fn lists_keep_what_they_are_given(rt: HostRuntime) -> Result<(), Fail> {
    let mut bytes = Bytes::from_slice(rt.alloc(), b"ab")?;
    bytes.push(b'c')?;
    bytes.append(b"de")?;
    assert_eq!(rt; bytes.as_slice(), b"abcde".as_slice());
    let mut counts = Counts::from_slice(rt.alloc(), &[1, 9])?;
    counts.push(4)?;
    assert_eq!(rt; counts.as_slice(), [1, 9, 4].as_slice());
    assert!(rt; counts.contains(9) && !counts.contains(2));
    let mut text = Text::from_text(rt.alloc(), "net ")?;
    text.push_str("GND")?;
    assert_eq!(rt; text.as_str(), "net GND");
    Ok(())
}
