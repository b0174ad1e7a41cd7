// The schema pass: what an extension says, read into a record (document 01, "KeyDescription", refusals 8 to 14).
#![tactic(auto)]

mod eight;
mod field;
mod fields;

ghost use Rattle.std.specs.Prelude.{◌≡◌};
ghost use Rattle.reader.specs.Reading.{Answered};

pub use crate::eight::empty_record;
use crate::eight::{Opening, read_opening, record_of};
use crate::fields::read_list;
use answer::{Refusal, Refused};
use records::Record;

// What an accepted extension says, its octet parts taken from the bytes that were read, and how many elements it has.
#[derive(Clone, Copy)]
pub struct Reading {
    pub elements: usize,
    pub said: Record,
}

// Reads one extension: the first pass, and then the schema. Any bytes get an answer, and nothing lent is changed. The record
// is made once, and its lists are filled where they stand: each function that handed them on would copy them.
pub fn read(s: &[u8]) -> Result<Reading, Refused>
    ensures { Answered s.now result }
{
    let Opening {
        elements,
        head,
        next,
        stop,
    } = read_opening(s)?;
    let version = head.attestation.version;
    let mut said = record_of(head);
    let middle = read_list(&s[..stop], next, version, &mut said.software)?;
    let end = read_list(&s[..stop], middle, version, &mut said.hardware)?;
    if end != stop {
        return Err(Refused(Refusal::WrongElement, end));
    }
    if stop != s.len() {
        return Err(Refused(Refusal::SpareBytes, stop));
    }
    Ok(Reading { elements, said })
}
