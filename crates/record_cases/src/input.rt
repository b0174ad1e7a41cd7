// The kinds of words that the cases' input has.
ghost use Rattle.std.specs.Prelude.{◌≡◌, ◌<◌};

use case_input::Input;

// A count, or a place of the input, so small that no place is out of reach.
pub(crate) fn small(input: &mut Input) -> usize
    ensures { result < 0x10_0000 }
{
    (input.word() % 0x10_0000) as usize
}

pub(crate) fn narrow(input: &mut Input) -> u32 {
    (input.word() % 0x1_0000_0000) as u32
}

pub(crate) fn flag(input: &mut Input) -> bool {
    input.word() == 1
}
