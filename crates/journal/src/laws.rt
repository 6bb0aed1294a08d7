//! What the format means, as the contract of a function that does nothing.
ghost use Rattle.journal.specs.Laws.{HasOneReading};

/// A file holds one list of entries, and covers at most one entry behind it.
pub fn a_file_has_one_reading(file: &[u8])
    ensures { HasOneReading file.now }
{}
