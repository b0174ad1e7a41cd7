// The octets of each piece of an encoding, put one after the other into a lent output. The writer has found the size before,
// so that what is put fits; what becomes of octets that would not is left open. So a put answers no refusal, which none meets.
ghost use Rattle.std.specs.Prelude.{◌≡◌, ℕ, ◌<◌, get_or};
ghost use Rattle.codec.specs.Integer.{integer_element};
ghost use Rattle.codec.specs.Element.{chain_octets};
ghost use Rattle.schema.specs.Rows.{of_kind};
ghost use Rattle.schema.specs.Content.{enumerated_element, octets_element, boolean_element, root_content, value_element, field_element, list_element, encode, nums, trust, field};
ghost use Rattle.records.specs.Content.{octets_at, part_of, members_of, root_of, value_at, fields_of, content_of};
ghost use Rattle.sizes.specs.Plain.{plain_value};
ghost use Rattle.sizes.specs.Size.{Sized, security_octets, head_elements, Measured};
ghost use Rattle.writer.specs.Put.{Puts};
ghost use Rattle.writer.specs.Output.{Adds, AddsHeader};

use octet_fields::part_octets;
use records::{FieldList, NumberSet, Part, Record, RootOfTrust, Security};
use schema::{Kind, ROWS, Row};
use shape::set_of;
use sizes::{Sizes, members_size, plain_size, root_content_size, root_size, set_size};

// A lent output, and the place where the next octet goes. The buffer of the record's parts goes beside it where it is needed: in
// it each clause would have to say that the buffer stays.
#[derive(Drop)]
struct Output<'a> {
    octets: &'a mut [u8],
    at: usize,
}

impl Output<'_> {
    // The header of an element with size content octets. The form is class and bit 6 of the first octet: 0 for a universal
    // tag, 1 for one that holds elements, 5 for the context tag of a field.
    fn put_header(&mut self, form: u8, number: usize, size: usize)
        requires { (form < 8) × (number < 16384) }
        ensures { AddsHeader self.old form number size self.new }
    {
        self.at = der_write::put_header(self.octets, self.at, form, number, size).unwrap_or(
            self.at,
        );
    }

    fn put_integer(&mut self, x: u64)
        ensures { Adds self.old (integer_element x) self.new }
    {
        self.at = der_write::put_integer(self.octets, self.at, x).unwrap_or(self.at);
    }

    // An INTEGER, with the identifier of an ENUMERATED.
    fn put_enumerated(&mut self, x: u32)
        ensures { Adds self.old (enumerated_element x) self.new }
    {
        let first = self.at;
        self.put_integer(u64::from(x));
        if first < self.octets.len() {
            self.octets[first] = 10;
        }
    }

    // All of t.
    fn put_bytes(&mut self, t: &[u8])
        ensures { Adds self.old t.now self.new }
    {
        if let Some(end) = self.at.checked_add(t.len())
            && end <= self.octets.len()
        {
            der_write::copy_octets(&mut self.octets[self.at..end], t);
            self.at = end;
        }
    }

    // "BOOLEAN is 00 or FF".
    fn put_boolean(&mut self, b: bool)
        ensures { Adds self.old (boolean_element b) self.new }
    {
        let octet = if b { 0xff } else { 0x00 };
        self.put_header(0, 1, 1);
        self.put_bytes(&[octet]);
    }

    // The OCTET STRING of a part.
    fn put_part(&mut self, s: &[u8], p: Part)
        ensures { Adds self.old (octets_element (part_of s.now p)) self.new }
    {
        let t = part_octets(s, p);
        self.put_header(0, 4, t.len());
        self.put_bytes(t);
    }

    // The members of a set, as many as its count and its slots allow.
    fn put_members(&mut self, g: NumberSet)
        ensures { Adds self.old (chain_octets integer_element (members_of g)) self.new }
    {
        for member in g.members.iter().take(g.count) {
            self.put_integer(u64::from(*member));
        }
    }

    // SET OF INTEGER, also where it is empty.
    fn put_set(&mut self, g: NumberSet)
        ensures { Adds self.old (value_element (nums (members_of g))) self.new }
    {
        self.put_header(1, 17, members_size(g));
        self.put_members(g);
    }

    // What RootOfTrust's SEQUENCE holds: key, locked, state and, where there is one, hash.
    fn put_root_content(&mut self, s: &[u8], t: RootOfTrust)
        ensures { Adds self.old (root_content (root_of (octets_at s.now) t)) self.new }
    {
        self.put_part(s, t.key);
        self.put_boolean(t.locked);
        self.put_enumerated(t.state);
        if t.hashed {
            self.put_part(s, t.hash);
        }
    }

    fn put_root(&mut self, s: &[u8], t: RootOfTrust)
        ensures { Adds self.old (value_element (trust (root_of (octets_at s.now) t))) self.new }
    {
        self.put_header(1, 16, root_content_size(s, t));
        self.put_root_content(s, t);
    }

    // The value of a field that is neither a set nor 704.
    fn put_plain(&mut self, s: &[u8], kind: Kind, value: u64, size: u64)
        ensures { Adds self.old (value_element (plain_value s.now (of_kind kind) value size)) self.new }
    {
        match kind {
            Kind::Number32 | Kind::Number64 => self.put_integer(value),
            Kind::Octets => self.put_part(
                s,
                Part {
                    start: value as usize,
                    len: size as usize,
                },
            ),
            _ => self.put_header(0, 5, 0),
        }
    }

    // A list's field, by its row and the two numbers that the list keeps for it: the context tag around its value. A list, and
    // a record, goes by value as its callers have it: a reference to either costs 2 KB of stack, since it is then copied first.
    fn put_field(&mut self, s: &[u8], l: FieldList, row: Row, value: u64, size: u64)
        requires { row.number < 16384 }
        ensures { (place : ℕ) → value ≡ get_or l.values place 0 → size ≡ get_or l.sizes place 0
            → Adds self.old (field_element (field row.number (value_at l (octets_at s.now) row.number (of_kind row.kind) place))) self.new }
    {
        match row.kind {
            Kind::Set => {
                let g = set_of(row.number, l.purpose, l.digest, l.padding, l.mgf);
                self.put_header(5, row.number, set_size(g));
                self.put_set(g);
            }
            Kind::Root => {
                self.put_header(5, row.number, root_size(s, l.root));
                self.put_root(s, l.root);
            }
            kind => {
                self.put_header(5, row.number, plain_size(s, kind, value, size));
                self.put_plain(s, kind, value, size);
            }
        }
    }

    // The present fields of a list.
    fn put_fields(&mut self, s: &[u8], l: FieldList)
        ensures { Adds self.old (chain_octets field_element (fields_of l (octets_at s.now))) self.new }
    {
        for place in 0..ROWS {
            if l.present[place] {
                let row = schema::row_at(place);
                self.put_field(s, l, row, l.values[place], l.sizes[place]);
            }
        }
    }

    // A list: its present fields, of which there are size octets.
    fn put_list(&mut self, s: &[u8], l: FieldList, size: usize)
        requires { Sized (chain_octets field_element (fields_of l (octets_at s.now))) size }
        ensures { Adds self.old (list_element (fields_of l (octets_at s.now))) self.new }
    {
        self.put_header(1, 16, size);
        self.put_fields(s, l);
    }

    // A version and its level.
    fn put_security(&mut self, v: Security)
        ensures { Adds self.old (security_octets v.version v.level) self.new }
    {
        self.put_integer(u64::from(v.version));
        self.put_enumerated(v.level);
    }

    // The six elements before the lists.
    fn put_head(&mut self, s: &[u8], r: Record)
        ensures { Adds self.old (head_elements s.now r.attestation r.keymint r.challenge r.unique) self.new }
    {
        self.put_security(r.attestation);
        self.put_security(r.keymint);
        self.put_part(s, r.challenge);
        self.put_part(s, r.unique);
    }
}

// The whole encoding, at the front of the output, by the sizes that were found; the place after it.
pub(crate) fn put_extension(out: &mut [u8], s: &[u8], r: Record, z: Sizes) -> usize
    requires { Measured r s.now z }
    ensures { Puts out.old 0 (encode (content_of r s.now)) out.new result }
{
    let mut output = Output { octets: out, at: 0 };
    output.put_header(1, 16, z.eight);
    output.put_head(s, r);
    output.put_list(s, r.software, z.software);
    output.put_list(s, r.hardware, z.hardware);
    output.at
}
