//! The law of the spelling, as the contract of a function that does nothing.

ghost use Rattle.records.specs.Laws.{SpellingLaw};

/// No bytes spell two records: two records in range with the same bytes are equal.
pub fn spelling_determines_the_record()
    ensures { SpellingLaw }
{}
