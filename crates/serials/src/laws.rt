//! What the definitions mean, as contracts of functions that do nothing.

ghost use Rattle.serials.specs.Laws.{TakenIdLaw, DateLaw};

/// A command whose id some record has is the same or is refused with that record's number, so it adds nothing.
pub fn a_taken_id_adds_nothing()
    ensures { TakenIdLaw }
{}

/// A text is read as a day exactly where it is the day's date.
pub fn dates_are_read_as_they_are_printed()
    ensures { DateLaw }
{}
