// The eight elements of a KeyDescription but for its two lists: what stands before them.
ghost use Rattle.std.specs.Prelude.{◌≡◌};
ghost use Rattle.records.specs.Empty.{empty_record};
ghost use Rattle.reader.specs.Eight.{Opens, record_with};

use crate::fields::empty_list;
use answer::Refused;
use contents::element::{Span, open_tagged};
use contents::head::{Head, read_head};
use contents::taken::Taken;
use der::walk::{Limits, walk};
use records::{Part, Record, Security};

// All before the lists: the count of elements, the first six of the eight, the first list's place and where the eight are to
// stop.
#[derive(Clone, Copy)]
pub(crate) struct Opening {
    pub(crate) elements: usize,
    pub(crate) head: Head,
    pub(crate) next: usize,
    pub(crate) stop: usize,
}

// The first pass, the outermost SEQUENCE, and the first six of the eight in it.
pub(crate) fn read_opening(s: &[u8]) -> Result<Opening, Refused>
    ensures { Opens s.now result }
{
    let elements = walk(s, Limits::extension())?;
    let Span { body, stop } = open_tagged(s, 0, 1, 16)?;
    let Taken { val, next } = read_head(&s[..stop], body)?;
    Ok(Opening {
        elements,
        head: val,
        next,
        stop,
    })
}

// A record that says nothing.
pub fn empty_record() -> Record
    ensures { result ≡ empty_record }
{
    let none = Security {
        version: 0,
        level: 0,
    };
    let nowhere = Part { start: 0, len: 0 };
    let list = empty_list();
    Record {
        attestation: none,
        keymint: none,
        challenge: nowhere,
        unique: nowhere,
        software: list,
        hardware: list,
    }
}

// The record of the six, with no field in either list.
pub(crate) fn record_of(head: Head) -> Record
    ensures { result ≡ record_with head }
{
    Record {
        attestation: head.attestation,
        keymint: head.keymint,
        challenge: head.challenge,
        unique: head.unique,
        ..empty_record()
    }
}
