// What a reader takes from the front of a holder's bytes, and where it stops.
ghost use Rattle.std.specs.Prelude.{◌≡◌};
ghost use Rattle.contents.specs.Taken.{exactly_taken};

use answer::{Refusal, Refused};

// What was read, and the next place.
#[derive(Clone, Copy)]
pub struct Taken<T> {
    pub val: T,
    pub next: usize,
}

// What is all of its holder, which stops at end: what stands after it is an extra element.
pub(crate) fn exactly<T: Copy>(read: Taken<T>, end: usize) -> Result<T, Refused>
    ensures { result ≡ exactly_taken read end }
{
    if read.next != end {
        return Err(Refused(Refusal::WrongElement, read.next));
    }
    Ok(read.val)
}
