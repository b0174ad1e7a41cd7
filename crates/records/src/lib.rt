// A record: what an extension says, as plain values and flags, with each octet part as a place in a buffer that the
// caller keeps. A caller may set any of it to anything; nothing here relies on its being well-shaped.
//
// Flags stand beside values, a count beside slots, and starts beside lengths, where an Option, a Vec or a slice would rule such
// records out: cases/writer.jsonl gives 17 members and parts outside their buffer, and the theorems equal_contents and
// not_looked_at speak of what stands where nothing is looked at. Versions and levels are numbers for the same reason.
#![tactic(auto)]

use schema::ROWS;

// Octets of the buffer, from start on. Document 01's "octet part".
#[repr(C)]
#[derive(Clone, Copy)]
pub struct Part {
    pub start: usize,
    pub len: usize,
}

// "A set holds at most 16 numbers to 2^32-1, kept with their count". Slots from count on are never looked at.
#[repr(C)]
#[derive(Clone, Copy)]
pub struct NumberSet {
    pub members: [u32; 16],
    pub count: usize,
}

// Field 704. The hash is looked at only where hashed is set.
#[repr(C)]
#[derive(Clone, Copy)]
pub struct RootOfTrust {
    pub key: Part,
    pub hash: Part,
    pub state: u32,
    pub locked: bool,
    pub hashed: bool,
}

// One list of fields, by the rows of the schema's table. Where a row's field is absent its values are never looked at.
// A number stands in values; an octet field's start in values and its length in sizes; each set and 704 in its own. The order
// leaves few gaps, so that an empty list is cleared in few strokes.
#[repr(C)]
#[derive(Clone, Copy)]
pub struct FieldList {
    pub present: [bool; ROWS],
    pub root: RootOfTrust,
    pub values: [u64; ROWS],
    pub sizes: [u64; ROWS],
    pub purpose: NumberSet,
    pub digest: NumberSet,
    pub padding: NumberSet,
    pub mgf: NumberSet,
}

// A version and its security level: of the attestation, and of KeyMint.
#[repr(C)]
#[derive(Clone, Copy)]
pub struct Security {
    pub version: u32,
    pub level: u32,
}

#[repr(C)]
#[derive(Clone, Copy)]
pub struct Record {
    pub attestation: Security,
    pub keymint: Security,
    pub challenge: Part,
    pub unique: Part,
    pub software: FieldList,
    pub hardware: FieldList,
}
