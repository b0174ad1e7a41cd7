// How many octets each piece of an encoding has, counted up to 8,193. Nothing here asks that a record be well-shaped:
// sets are cut at their 16 slots and parts at the end of the buffer, as a record's content is. A record and its buffer go side by
// side, as the public functions take them.
#![tactic(auto)]

ghost use Rattle.std.specs.Prelude.{◌≡◌, ℕ, ◌+◌, get_or};
ghost use Rattle.codec.specs.Integer.{integer_element};
ghost use Rattle.codec.specs.Element.{chain_octets};
ghost use Rattle.schema.specs.Rows.{of_kind};
ghost use Rattle.schema.specs.Content.{enumerated_element, octets_element, root_content, value_element, field_element, nums, trust};
ghost use Rattle.records.specs.Content.{octets_at, part_of, members_of, root_of, value_at, fields_of};
ghost use Rattle.sizes.specs.Plain.{plain_value};
ghost use Rattle.sizes.specs.Size.{capped, element_size, Sized, security_octets, head_elements, Measured};

use der::walk::EXTENSION_BYTES;
use der_write::{identifier_size, integer_size, length_size};
use octet_fields::part_octets;
use records::{FieldList, NumberSet, Part, Record, RootOfTrust, Security};
use schema::{Kind, ROWS, Row};
use shape::set_of;

// Stands for every size over the limit: sizes are answers of public functions that cannot fail.
const PAST_LIMIT: usize = EXTENSION_BYTES + 1;

// Of the fields of each list and of the eight elements, without their headers; and of the whole encoding.
#[derive(Clone, Copy, Debug, PartialEq, Eq)]
pub struct Sizes {
    pub software: usize,
    pub hardware: usize,
    pub eight: usize,
    pub whole: usize,
}

// The sum of two sizes; it cannot wrap.
fn add(a: usize, b: usize) -> usize
    ensures { result ≡ capped (a + b) }
{
    a.saturating_add(b).min(PAST_LIMIT)
}

// An element of this tag number with body content octets.
fn element_size(number: usize, body: usize) -> usize
    ensures { result ≡ element_size number body }
{
    add(identifier_size(number) + length_size(body), body)
}

// An INTEGER or ENUMERATED.
fn number_size(x: u64) -> usize
    ensures integer { Sized (integer_element x) result }
    ensures enumerated { Sized (enumerated_element x) result }
{
    2 + integer_size(x)
}

// The OCTET STRING of a part.
fn part_size(s: &[u8], p: Part) -> usize
    ensures { Sized (octets_element (part_of s.now p)) result }
{
    element_size(4, part_octets(s, p).len())
}

// The members of a set, without the set's header.
pub fn members_size(g: NumberSet) -> usize
    ensures { Sized (chain_octets integer_element (members_of g)) result }
{
    g.members
        .iter()
        .take(g.count)
        .fold(0, |n, member| add(n, number_size(u64::from(*member))))
}

pub fn set_size(g: NumberSet) -> usize
    ensures { Sized (value_element (nums (members_of g))) result }
{
    element_size(17, members_size(g))
}

// What RootOfTrust's SEQUENCE holds.
pub fn root_content_size(s: &[u8], t: RootOfTrust) -> usize
    ensures { Sized (root_content (root_of (octets_at s.now) t)) result }
{
    let key = part_size(s, t.key);
    let locked = add(key, 3);
    let fixed = add(locked, number_size(u64::from(t.state)));
    if t.hashed {
        return add(fixed, part_size(s, t.hash));
    }
    fixed
}

pub fn root_size(s: &[u8], t: RootOfTrust) -> usize
    ensures { Sized (value_element (trust (root_of (octets_at s.now) t))) result }
{
    element_size(16, root_content_size(s, t))
}

// The value of a field that is neither a set nor 704.
pub fn plain_size(s: &[u8], kind: Kind, value: u64, size: u64) -> usize
    ensures { Sized (value_element (plain_value s.now (of_kind kind) value size)) result }
{
    match kind {
        Kind::Number32 | Kind::Number64 => number_size(value),
        Kind::Octets => part_size(
            s,
            Part {
                start: value as usize,
                len: size as usize,
            },
        ),
        _ => 2,
    }
}

// The value of a list's field, by its row and the two numbers that the list keeps for it. A list goes by value as its
// callers have it: a reference to it costs 2 KB of stack, since the record that holds it is then copied first.
fn value_size(s: &[u8], l: FieldList, row: Row, value: u64, size: u64) -> usize
    ensures { (place : ℕ) → value ≡ get_or l.values place 0 → size ≡ get_or l.sizes place 0
        → Sized (value_element (value_at l (octets_at s.now) row.number (of_kind row.kind) place)) result }
{
    match row.kind {
        Kind::Set => set_size(set_of(row.number, l.purpose, l.digest, l.padding, l.mgf)),
        Kind::Root => root_size(s, l.root),
        kind => plain_size(s, kind, value, size),
    }
}

// The present fields of a list, without the list's header.
fn fields_size(s: &[u8], l: FieldList) -> usize
    ensures { Sized (chain_octets field_element (fields_of l (octets_at s.now))) result }
{
    let mut n = 0;
    for place in 0..ROWS {
        if l.present[place] {
            let row = schema::row_at(place);
            let value = value_size(s, l, row, l.values[place], l.sizes[place]);
            n = add(n, element_size(row.number, value));
        }
    }
    n
}

// A version and its level.
fn security_size(v: Security) -> usize
    ensures { Sized (security_octets v.version v.level) result }
{
    add(
        number_size(u64::from(v.version)),
        number_size(u64::from(v.level)),
    )
}

// The six elements before the lists.
fn head_size(s: &[u8], r: Record) -> usize
    ensures { Sized (head_elements s.now r.attestation r.keymint r.challenge r.unique) result }
{
    let versions = add(security_size(r.attestation), security_size(r.keymint));
    let parts = add(part_size(s, r.challenge), part_size(s, r.unique));
    add(versions, parts)
}

// All that the writer needs to know before it writes.
pub fn sizes_of(s: &[u8], r: Record) -> Sizes
    ensures { Measured r s.now result }
{
    let head = head_size(s, r);
    let software = fields_size(s, r.software);
    let hardware = fields_size(s, r.hardware);
    let lists = add(element_size(16, software), element_size(16, hardware));
    let eight = add(head, lists);
    Sizes {
        software,
        hardware,
        eight,
        whole: element_size(16, eight),
    }
}
