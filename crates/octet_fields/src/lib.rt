// Octet fields of a record, by list and number, as parts of the caller's extension.
#![tactic(auto)]

ghost use Rattle.std.specs.Prelude.{◌≡◌, length};
ghost use Rattle.schema.specs.Table.{rows, index_of};
ghost use Rattle.records.specs.Content.{part_of};
ghost use Rattle.octet_fields.specs.AskedRow.{asked_part, asked_at};
ghost use Rattle.octet_fields.specs.Asked.{asked_octets, octet_field_of, start_asked, start_within, moved_on, of_asked};

use answer::{Refusal, Refused};
use records::{FieldList, Part, Record};
use schema::Kind;
use shape::parts::part_inside;

// A present octet field's part, where it lies within len bytes.
fn ask_part(part: Part, len: usize) -> Result<Option<Part>, Refused>
    ensures { of_asked result ≡ asked_part part len }
{
    if part_inside(part, len) {
        Ok(Some(part))
    } else {
        Err(Refused(Refusal::IllShaped, 0))
    }
}

// The part of a list's octet field of this number, within len bytes.
fn ask_list(l: &FieldList, number: usize, len: usize) -> Result<Option<Part>, Refused>
    ensures { of_asked result ≡ asked_at l.now (index_of rows number) len }
{
    let Some(k) = schema::row_of(number) else {
        return Ok(None);
    };
    if !l.present[k] {
        return Ok(None);
    }
    match schema::row_at(k).kind {
        Kind::Octets => {
            let part = Part {
                start: l.values[k] as usize,
                len: l.sizes[k] as usize,
            };
            ask_part(part, len)
        }
        _ => Ok(None),
    }
}

// The part that holds an octet field of a record, asked for by list and number, in a buffer of len bytes; none where the
// field is absent.
pub fn ask_octets(
    r: Record,
    hardware: bool,
    number: usize,
    len: usize,
) -> Result<Option<Part>, Refused>
    ensures { of_asked result ≡ asked_octets r hardware number len }
{
    if hardware {
        ask_list(&r.hardware, number, len)
    } else {
        ask_list(&r.software, number, len)
    }
}

// The very octets of s that hold the field; none where it is absent or lies outside s. An empty slice stands for none, since its
// clauses `octets` and `place` are of a slice, which may not change; ask_octets tells the cases apart.
pub fn octet_field(s: &[u8], r: Record, hardware: bool, number: usize) -> &[u8]
    ensures octets { result.now ≡ octet_field_of s.now r hardware number }
    ensures place { result.ref_ptr ≡ moved_on s.entry.ref_ptr (start_asked (asked_octets r hardware number (length s.now))) }
{
    match ask_octets(r, hardware, number, s.len()) {
        Ok(Some(part)) => &s[part.start..part.start + part.len],
        Ok(None) => &s[..0],
        Err(_) => &s[..0],
    }
}

// The octets of a part, as the very bytes of the buffer; what lies outside it is left out.
pub fn part_octets(s: &[u8], p: Part) -> &[u8]
    ensures octets { result.now ≡ part_of s.now p }
    ensures place { result.ref_ptr ≡ moved_on s.entry.ref_ptr (start_within p.start (length s.now)) }
{
    let n = s.len();
    if n <= p.start {
        return &s[n..];
    }
    let end = p.start + p.len.min(n - p.start);
    &s[p.start..end]
}
