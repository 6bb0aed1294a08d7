//! What an opening means, as the contract of a function that does nothing.
ghost use Rattle.ledger.specs.Laws.{OpensInOneWay};

/// A file keeps one list of records or is refused for one cause, so that an answer that speaks of the file is the only one.
pub fn a_file_is_opened_in_one_way(file: &[u8])
    ensures { OpensInOneWay file.now }
{}
