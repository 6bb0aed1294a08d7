//! Damaged journals: what is refused, and what is mended.

use crate::desk::{ONE, answered};
use crate::ending::End;
use std::test::Fail;

/// One calibration until the end of June 2024.
const WHOLE: &[u8] = b"WHTSJRN1\x01\0\0\0\x10\x03\0\0\0\0\x66\x31\x86\0\x02C1\0\0\x4d\xc0\0";

/// It stores a calibration and none that ends no later.
const CALIBRATE: &str = "calibrate C1 2024-06-30\ncalibrate C2 2024-06-30\n";

/// What that answers where no calibration is there, and where the first one is.
const STORED: &str = "OK 1 C1\nNO E19 C2 2024-06-30\n";

const FOUND: &str = "SAME 1 C1\nNO E19 C2 2024-06-30\n";

/// The file, and the line of the refusal.
type Refusal = (&'static [u8], &'static str);

const REFUSED: [Refusal; 5] = [
    // an empty entry
    (
        b"WHTSJRN1\x01\0\0\0\0\0",
        "journal refused 4 record 1 at 8\n",
    ),
    // a length past the end
    (
        b"WHTSJRN1\x01\xff\xff\xff\xff",
        "journal refused 2 record 1 at 8\n",
    ),
    // the whole file cut to 28 bytes
    (
        b"WHTSJRN1\x01\0\0\0\x10\x03\0\0\0\0\x66\x31\x86\0\x02C1\0\0\x4d",
        "journal refused 2 record 1 at 8\n",
    ),
    // and to 20
    (
        b"WHTSJRN1\x01\0\0\0\x10\x03\0\0\0\0\x66\x31",
        "journal refused 2 record 1 at 8\n",
    ),
    // an entry of a kind that no record has
    (
        b"WHTSJRN1\x01\0\0\0\x10\x09\0\0\0\0\x66\x31\x86\0\x02C1\0\0\x4d\xc0\0",
        "journal refused 4 record 1 at 8\n",
    ),
];

#[test]
fn a_damaged_journal_is_refused_and_left_as_it_is(rt: HostRuntime) -> Result<(), Fail> {
    for (file, line) in REFUSED {
        for script in ["", CALIBRATE] {
            let came = answered(rt.alloc(), ONE, script, file)?;
            assert_eq!(rt; came.status, 5, "{file:?}");
            assert_eq!(rt; came.text.as_slice(), line.as_bytes(), "{file:?}");
            assert_eq!(rt; came.end, End::NoRig, "{file:?}");
            assert_eq!(rt; came.image.as_slice(), file);
        }
    }
    Ok(())
}

/// The file, what a run without a command makes of it, and the answers to the calibrations then.
type Repair = (&'static [u8], &'static [u8], &'static str);

const MENDED: [Repair; 5] = [
    (b"", b"WHTSJRN1\0", STORED),
    (b"WHTSJRN1\x01", b"WHTSJRN1\0", STORED),
    (WHOLE, WHOLE, FOUND),
    // without its last gate
    (
        b"WHTSJRN1\x01\0\0\0\x10\x03\0\0\0\0\x66\x31\x86\0\x02C1\0\0\x4d\xc0",
        WHOLE,
        FOUND,
    ),
    // with a first gate that is neither open nor closed
    (
        b"WHTSJRN1\x37\0\0\0\x10\x03\0\0\0\0\x66\x31\x86\0\x02C1\0\0\x4d\xc0\0",
        b"WHTSJRN1\0\0\0\0\x10\x03\0\0\0\0\x66\x31\x86\0\x02C1\0\0\x4d\xc0\0",
        STORED,
    ),
];

#[test]
fn a_journal_that_was_cut_at_a_gate_is_mended(rt: HostRuntime) -> Result<(), Fail> {
    for (file, mended, answer) in MENDED {
        let came = answered(rt.alloc(), ONE, "", file)?;
        assert_eq!(rt; came.status, 0, "{file:?}");
        assert_eq!(rt; came.text.as_slice(), b"".as_slice(), "{file:?}");
        assert_eq!(rt; came.image.as_slice(), mended);
        let next = answered(rt.alloc(), ONE, CALIBRATE, mended)?;
        assert_eq!(rt; next.status, 0, "{file:?}");
        assert_eq!(rt; next.text.as_slice(), answer.as_bytes(), "{file:?}");
        assert_eq!(rt; next.image.as_slice(), WHOLE);
    }
    Ok(())
}
