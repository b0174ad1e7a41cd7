// Runs the cases that its standard input holds, each a record with what is asked of it: to be written, a use, an
// enrolment, or an octet field. Writes for each its name and the answer. scripts/record_cases.py makes both files, with
// each expected answer beside its case.
//
// The input, of words of eight octets, starts with how many cases there are, and for each five words: what is asked (0 to be
// written, 1 a use, 2 an enrolment, 3 an octet field), its name's place and length, its record's place, and the place of what
// goes with it.
#![tactic(auto)]

mod input;
mod record;
mod rule;
mod write;

ghost use Rattle.std.specs.Prelude.{◌≡◌, ◌<◌, length};

use crate::input::small;
use crate::record::held_at;
use crate::rule::{say_enrolment, say_octets, say_use};
use crate::write::{Texts, say_write};
use case_input::{Input, read_full};
use std::io;

// Runs the next case of the input s. What is asked is a word, of which each gets an answer, so no enum has it.
fn one_case(
    rt: &HostRuntime,
    s: &[u8],
    cases: &mut Input,
    out: &mut [u8],
    texts: &mut Texts,
) -> io::Result<()> {
    let kind = small(cases);
    let mut name = Input::at(s, small(cases));
    rt.write_all(name.octets(small(cases)))?;
    print!(rt; ": ")?;
    let held = held_at(Input::at(s, small(cases)));
    let mut with = Input::at(s, small(cases));
    match kind {
        0 => say_write(rt, &held, small(&mut with), out, texts),
        1 => say_use(rt, &held, &mut with),
        2 => say_enrolment(rt, &held, &mut with),
        _ => say_octets(rt, &held, &mut with),
    }
}

fn all_cases(rt: &HostRuntime, s: &[u8], out: &mut [u8], texts: &mut Texts) -> io::Result<()> {
    let mut cases = Input { rest: s };
    for _ in 0..small(&mut cases) {
        one_case(rt, s, &mut cases, out, texts)?;
    }
    Ok(())
}

// N zeros. What is promised is how many, which lending them as a slice asks for.
fn zeros<const N: usize>() -> [u8; N]
    ensures { N ≡ length result }
{
    [0; N]
}

fn main(rt: HostRuntime) -> io::Result<()> {
    // Fixed memory: no heap, so the input is what its buffer holds, and each text has room for any listing.
    let mut input = zeros::<524288>();
    let mut out = [0; 10240];
    let mut read = zeros::<589824>();
    let mut written = zeros::<589824>();
    let n = read_full(&rt, &mut input)?;
    let mut texts = Texts {
        read: &mut read,
        written: &mut written,
    };
    all_cases(&rt, &input[..n], &mut out, &mut texts)
}
