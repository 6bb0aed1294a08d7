//! What a reader makes of a printed program, and how long its text can be.
//!
//! Each function here does nothing: its contract is a law of the canonical text of a program that a wirelist can give.
//! The text is what `wirelist::print` gives.
#![tactic(auto)]

ghost use Rattle.std.specs.Prelude.{◌≡◌, ◌<◌, length};
ghost use Rattle.csv.specs.Reading.{default_config, records, strip_bom};
ghost use Rattle.wirelist.specs.Canonical.{canonical, rows_of};
ghost use Rattle.wirelist.specs.Programs.{IsProgram};
ghost use Rattle.wirelist.specs.Ranges.{text_limit};
ghost use Rattle.wirelist.specs.declared.program.Program.{Program};

/// A printed program is read as the rows that it was printed from, field for field.
pub fn a_printed_program_is_read_back()
    ensures { (p : Program) → IsProgram p → records default_config (strip_bom (canonical p)) ≡ rows_of p }
{}

/// A printed program has fewer than 200,000 bytes: a net's row has at most 30 bytes and 5 for each point, the row of ignored
/// points 7 and 5 for each, a component's row 72, and the other rows have few.
pub fn a_printed_program_is_short()
    ensures { (p : Program) → IsProgram p → length (canonical p) < text_limit }
{}
