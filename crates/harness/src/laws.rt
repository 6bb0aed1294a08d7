//! What the definitions mean, each as the contract of a function that does nothing.

ghost use Rattle.harness.specs.Laws.{HarnessLaw};

/// A harness file has one list of rows at most, is refused for one cause at most, and never both.
pub fn a_harness_is_read_in_one_way(bytes: &[u8])
    ensures { HarnessLaw bytes.now }
{}
