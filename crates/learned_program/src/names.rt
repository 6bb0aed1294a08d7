//! The names of learned nets.

ghost use Rattle.std.specs.Prelude.{◌≡◌, map, IfOk};
ghost use Rattle.std.specs.List.{range_with_len};
ghost use Rattle.learned_program.specs.LearnedProgram.{learned_name};

use base::Memory;
use partition::Name;
use std::alloc::Global;
use wirelist::Names;

/// The names N1, N2 and so on, this many.
pub fn names_of(alloc: Global, count: u32) -> Result<Names, Memory>
    ensures { IfOk result (λ names. names ≡ map learned_name (range_with_len 1 count)) }
{
    let mut names = Names::new(alloc);
    for i in 0..count {
        names.push(name_of(alloc, i + 1)?)?;
    }
    Ok(names)
}

/// `N` and the number.
fn name_of(alloc: Global, number: u32) -> Result<Name, Memory>
    ensures { IfOk result (λ name. name ≡ learned_name number) }
{
    let text = format!(in alloc; "N{number}")?;
    let Some(name) = Name::read(text.as_bytes()) else {
        unreachable!()
    };
    Ok(name)
}
