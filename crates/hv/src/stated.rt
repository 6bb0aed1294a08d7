//! The reading that a fault states.

ghost use Rattle.std.specs.Prelude.{◌≡◌, IfSome};
ghost use Rattle.wirelist.specs.Ranges.{IsReading};
ghost use Rattle.hv.specs.Stated.{stated_leak};

use rig::Leak;

/// The picosiemens of a leak, and none for an arc.
pub(crate) fn stated(leak: Leak) -> Option<u64>
    ensures leak { result ≡ stated_leak leak }
    ensures in_range { IfSome result IsReading }
{
    match leak {
        Leak::Arc => None,
        Leak::PicoSiemens(g) => Some(g),
    }
}
