// One number for an answer: a refusal's number, or 0, in the low byte, and above it a place, count or length.
ghost use Rattle.std.specs.Prelude.{◌≡◌};
ghost use Rattle.sculldrip.specs.Packed.{word, packed, of_answer};

use answer::Refused;

// The rest is capped at what 56 bits hold, so that nothing wraps; no length or place of a buffer is that large.
fn word(number: u8, rest: usize) -> u64
    ensures { result ≡ word number rest }
{
    if 0xff_ffff_ffff_ffff < rest {
        return u64::from(number) + 256 * 0xff_ffff_ffff_ffff;
    }
    u64::from(number) + 256 * (rest as u64)
}

// The number for what a call answers: 0 and what stands beside it, or a refusal's number and place.
pub(crate) fn word_of(answer: Result<usize, Refused>) -> u64
    ensures { result ≡ packed (of_answer answer) }
{
    match answer {
        Ok(beside) => word(0, beside),
        Err(Refused(refusal, place)) => word(refusal.number(), place),
    }
}
