//! A disk that fails at each of its calls.

use crate::bench::{MAY, disk_of, harness, loaded, run, wires};
use std::test::Fail;

/// The calls of a run over an empty disk: mounting, and three records.
const CALLS: u64 = 18;

#[test]
fn a_stop_at_any_call_leaves_what_was_answered_or_one_more(rt: HostRuntime) -> Result<(), Fail> {
    let alloc = rt.alloc();
    let script = "adopt A1\nenrol N1 SN1\ntest S1 SN1\n";
    for call in 1..CALLS + 2 {
        for pick in 0..4u8 {
            let came = run(
                alloc,
                harness(alloc, "", "")?.as_str(),
                wires(alloc, "")?.as_str(),
                disk_of(alloc, b"", &[call])?,
                MAY,
                script,
            )?;
            assert_eq!(rt; came.answered == 3, call > CALLS, "{call}");
            let found = loaded(
                alloc,
                disk_of(alloc, came.disk.image(pick)?.as_slice(), &[])?,
            )?;
            assert!(rt;
                found.answered == came.answered
                    || found.answered == came.answered.saturating_add(1),
                "{call} {pick}"
            );
        }
    }
    Ok(())
}
