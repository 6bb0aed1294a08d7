//! What the step means, as the contract of a function that does nothing.

ghost use Rattle.station.specs.Laws.{RepeatLaw};

/// A command whose id some record has is answered `Same`, or refused with that record's number, and leaves the records as they are.
pub fn a_repeated_id_adds_nothing()
    ensures { RepeatLaw }
{}
