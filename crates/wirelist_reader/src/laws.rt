//! The law of reading and printing, the contract of a function that does nothing.

ghost use Rattle.wirelist.specs.Programs.{IsProgram};
ghost use Rattle.wirelist.specs.declared.program.Program.{Program};
ghost use Rattle.wirelist_reader.specs.Laws.{IsReadBack};

/// The canonical text of a program has no fault, and says that program.
pub fn a_printed_program_is_read_back()
    ensures { (p : Program) → IsProgram p → IsReadBack p }
{}
