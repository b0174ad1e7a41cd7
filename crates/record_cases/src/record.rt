// A record and its buffer, as the input has them: both versions with their levels, challenge, unique; how many fields the
// software list has and how many octets they take here, and the same of the hardware list; how long the buffer is; then
// the fields of the one and of the other, and the buffer. A field is its number, 1 where it is present, its value or start
// or count, its length, how many words follow, and those: a set's slots, or the rest of 704.
use crate::input::{flag, narrow, small};
use case_input::Input;
use reader::empty_record;
use records::{FieldList, NumberSet, Part, Record, RootOfTrust, Security};

// A record and the buffer that its parts lie in.
#[derive(Drop)]
pub(crate) struct Held<'a> {
    pub(crate) record: Record,
    pub(crate) buffer: &'a [u8],
}

fn part_of(input: &mut Input) -> Part {
    Part {
        start: input.word() as usize,
        len: input.word() as usize,
    }
}

fn security_of(input: &mut Input) -> Security {
    Security {
        version: narrow(input),
        level: narrow(input),
    }
}

// A set of this count, whose slots come next. Slots that are not told hold what stands there.
fn set_of(slots: Input, count: u64) -> NumberSet {
    let mut input = slots;
    let mut members = [0; 16];
    for member in &mut members {
        *member = narrow(&mut input);
    }
    NumberSet {
        members,
        count: count as usize,
    }
}

// A root of trust with this key, whose other values come next.
fn root_of(others: Input, key: Part) -> RootOfTrust {
    let mut input = others;
    RootOfTrust {
        key,
        locked: flag(&mut input),
        state: narrow(&mut input),
        hashed: flag(&mut input),
        hash: part_of(&mut input),
    }
}

// Puts the next field into a list. A number that the table lacks has no place in a list.
fn put_field(list: &mut FieldList, input: &mut Input) {
    let number = input.word() as usize;
    let present = flag(input);
    let value = input.word();
    let size = input.word();
    let words = small(input);
    match number {
        1 => list.purpose = set_of(*input, value),
        5 => list.digest = set_of(*input, value),
        6 => list.padding = set_of(*input, value),
        203 => list.mgf = set_of(*input, value),
        704 => {
            let key = Part {
                start: value as usize,
                len: size as usize,
            };
            list.root = root_of(*input, key);
        }
        _ => (),
    }
    if let Some(row) = schema::row_of(number) {
        list.present[row] = present;
        list.values[row] = value;
        list.sizes[row] = size;
    }
    input.octets(8 * words);
}

// The list of the next n fields.
fn list_of(fields: Input, n: usize) -> FieldList {
    let mut input = fields;
    let mut list = empty_record().software;
    for _ in 0..n {
        put_field(&mut list, &mut input);
    }
    list
}

// The record that comes next, and its buffer.
pub(crate) fn held_at<'a>(place: Input<'a>) -> Held<'a> {
    let mut input = place;
    let attestation = security_of(&mut input);
    let keymint = security_of(&mut input);
    let challenge = part_of(&mut input);
    let unique = part_of(&mut input);
    let software_fields = small(&mut input);
    let software_size = small(&mut input);
    let hardware_fields = small(&mut input);
    let hardware_size = small(&mut input);
    let size = small(&mut input);
    let software = list_of(input, software_fields);
    input.octets(software_size);
    let hardware = list_of(input, hardware_fields);
    input.octets(hardware_size);
    Held {
        record: Record {
            attestation,
            keymint,
            challenge,
            unique,
            software,
            hardware,
        },
        buffer: input.octets(size),
    }
}
