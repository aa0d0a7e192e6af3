//! Looks up variables and items of arrays. A missing one counts as 0.
ghost use Rattle.std.specs.Prelude.{◌≡◌, length, slice_index};
ghost use Rattle.arachne_program.specs.Program.{source_of};
ghost use Rattle.arachne_program.specs.Value.{array_at};

use arachne_program::Program;

#[inline(always)]
pub fn variable_in(environment: &[u64], variable: u64) -> u64
    ensures { result ≡ slice_index environment.now variable }
{
    match environment.get(variable as usize) {
        Some(value) => *value,
        None => 0,
    }
}

#[inline(always)]
pub fn length_in(program: &Program, array: u64) -> u64
    ensures { result ≡ length (array_at (source_of program.now).arrays array) }
{
    match program.arrays.get(array as usize) {
        Some(items) => items.len() as u64,
        None => 0,
    }
}

#[inline(always)]
pub fn item_in(program: &Program, array: u64, index: u64) -> u64
    ensures { result ≡ slice_index (array_at (source_of program.now).arrays array) index }
{
    match program.arrays.get(array as usize) {
        Some(items) => match items.get(index as usize) {
            Some(item) => *item,
            None => 0,
        },
        None => 0,
    }
}
