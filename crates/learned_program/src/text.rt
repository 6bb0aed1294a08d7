//! The text of the learned program.

ghost use Rattle.std.specs.Prelude.{◌≡◌, ◌<◌, length, IfOk};
ghost use Rattle.learned_program.specs.LearnedProgram.{learned_text};

use crate::program_of;
use base::{Bytes, Memory};
use partition::Partition;
use std::alloc::Global;
use wirelist::print;

/// The canonical text of the program of a unit whose points have these classes; there is at least one point.
pub fn text_of(alloc: Global, partition: &Partition) -> Result<Bytes, Memory>
    requires { 0 < length partition.now }
    ensures { IfOk result (λ text. text ≡ learned_text partition.now) }
{
    let program = program_of(alloc, partition)?;
    print(alloc, &program)
}
