// The listing of a record or a refusal as text (document 01, "One extension, whole"), put into a lent output.
//
// Each method of Text writes its text from the text's place on, nothing past the output's end. Its contract, Puts or one
// that specs/Lines.antt names, also bounds the text's length, so that list_record knows without counting when all of it
// fits; and it says that the output is the one that was lent. What is listed and its buffer go side by side, as the public
// functions take them.
#![tactic(auto)]

ghost use Rattle.std.specs.Prelude.{◌≡◌, [], ◌∷◌, ◌+◌, ◌*◌, ◌<◌, ◌≤◌, length};
ghost use Rattle.schema.specs.Table.{row_count};
ghost use Rattle.records.specs.Content.{part_of, members_of};
ghost use Rattle.listing.specs.Text.{dash, decimal, hex_digit, hex_text, octets_text, more_numbers, numbers_text, locked_text, state_text, named, count_line};
ghost use Rattle.listing.specs.Put.{output, puts, Puts};
ghost use Rattle.listing.specs.Room.{of_listed};
ghost use Rattle.listing.specs.Lines.{PutsNumbers, PutsOctets, PutsRoot, PutsValue, PutsField, PutsList, PutsHead, PutsRecord, record_listed, record_left, refusal_listed, refusal_left};

use answer::{Refusal, Refused};
use octet_fields::part_octets;
use records::{FieldList, NumberSet, Part, Record, RootOfTrust};
use schema::{Kind, ROWS, Row};
use shape::set_of;

// Text that is put into a lent output, and the place where the next octet of it goes.
#[derive(Drop)]
struct Text<'a> {
    out: &'a mut [u8],
    at: usize,
}

impl Text<'_> {
    // One octet, unless the output is full.
    fn octet(&mut self, b: u8)
        ensures { Puts self.old (b ∷ []) 1 self.new }
    {
        if self.at < self.out.len() {
            self.out[self.at] = b;
            self.at += 1;
        }
    }

    // All of text.
    fn text(&mut self, text: &[u8])
        ensures { Puts self.old text.now (length text.now) self.new }
    {
        for b in text {
            self.octet(*b);
        }
    }

    // A number in decimal.
    // By hand: it goes into lent octets with no heap, one octet at a time, and decimal_spells says what these spell.
    fn decimal(&mut self, n: u64)
        ensures { Puts self.old (decimal n) 20 self.new }
    {
        if n < 10 {
            self.octet(b'0' + n as u8);
        } else {
            self.decimal(n / 10);
            self.octet(b'0' + (n % 10) as u8);
        }
    }

    // Octets as lower-case hex.
    // By hand, as decimal is: it goes into lent octets with no heap, one octet at a time.
    fn hex(&mut self, s: &[u8])
        ensures { Puts self.old (hex_text s.now) (2 * length s.now) self.new }
    {
        self.at = put_hex(self.out, self.at, s);
    }

    // What stands for empty octets or an empty set.
    fn none(&mut self)
        ensures { Puts self.old dash 1 self.new }
    {
        self.text(b"-");
    }

    // A part of s, "-" where it has no octets. What lies outside s is left out.
    fn part(&mut self, s: &[u8], part: Part)
        ensures { Puts self.old (octets_text (part_of s.now part)) (2 * length s.now + 1) self.new }
    {
        let octets = part_octets(s, part);
        if octets.is_empty() {
            self.none();
        } else {
            self.hex(octets);
        }
    }

    // Numbers, each after a space.
    fn more(&mut self, numbers: &[u32])
        ensures { Puts self.old (more_numbers numbers.now) (21 * length numbers.now) self.new }
    {
        for n in numbers {
            self.octet(b' ');
            self.decimal(u64::from(*n));
        }
    }

    // The members of a set, as many as its count and its slots allow, "-" where it has none.
    fn set(&mut self, g: &NumberSet)
        ensures { Puts self.old (numbers_text (members_of g.now)) 335 self.new }
    {
        let members = &g.members[..g.count.min(16)];
        match members.split_first() {
            None => self.none(),
            Some((first, more)) => {
                self.decimal(u64::from(*first));
                self.more(more);
            }
        }
    }

    // A root of trust's locked and state, each after a space.
    fn state(&mut self, locked: bool, state: u32)
        ensures { Puts self.old (state_text locked state) 23 self.new }
    {
        self.octet(b' ');
        self.octet(locked_digit(locked));
        self.octet(b' ');
        self.decimal(u64::from(state));
    }

    // Field 704: key, locked, state and, where there is one, hash.
    fn root(&mut self, s: &[u8], root: &RootOfTrust)
        ensures { PutsRoot self.old s.now root.now self.new }
    {
        self.part(s, root.key);
        self.state(root.locked, root.state);
        if root.hashed {
            self.octet(b' ');
            self.part(s, root.hash);
        }
    }

    // A number after its word.
    fn named(&mut self, word: &[u8], n: u64)
        ensures { Puts self.old (named word.now n) (length word.now + 20) self.new }
    {
        self.text(word);
        self.decimal(n);
    }

    // A line of two numbers, each after its word.
    fn numbers(&mut self, first: &[u8], a: u64, second: &[u8], b: u64)
        ensures { PutsNumbers self.old first.now a second.now b self.new }
    {
        self.named(first, a);
        self.named(second, b);
        self.octet(b'\n');
    }

    // A line of a part of s, after its word.
    fn octets(&mut self, word: &[u8], s: &[u8], part: Part)
        ensures { PutsOctets self.old word.now s.now part self.new }
    {
        self.text(word);
        self.part(s, part);
        self.octet(b'\n');
    }

    // The value of a row of a list, by its kind.
    fn value(&mut self, s: &[u8], l: &FieldList, place: usize, row: Row)
        requires { place < row_count }
        ensures { PutsValue self.old s.now l.now place row self.new }
    {
        match row.kind {
            Kind::Set => self.set(&set_of(row.number, l.purpose, l.digest, l.padding, l.mgf)),
            Kind::Number32 | Kind::Number64 => self.decimal(l.values[place]),
            Kind::Null => self.text(b"yes"),
            Kind::Octets => {
                let part = Part {
                    start: l.values[place] as usize,
                    len: l.sizes[place] as usize,
                };
                self.part(s, part);
            }
            Kind::Root => self.root(s, &l.root),
        }
    }

    // The line of a present row, after its list's word.
    fn field(&mut self, word: &[u8], s: &[u8], l: &FieldList, place: usize)
        requires { (length word.now ≤ 9) × (place < row_count) }
        ensures { PutsField self.old word.now s.now l.now place self.new }
    {
        let row = schema::row_at(place);
        self.named(word, row.number as u64);
        self.octet(b' ');
        self.value(s, l, place, row);
        self.octet(b'\n');
    }

    // The lines of a list's present fields, each after the list's word.
    fn list(&mut self, word: &[u8], s: &[u8], l: &FieldList)
        requires { length word.now ≤ 9 }
        ensures { PutsList self.old word.now s.now l.now self.new }
    {
        for place in 0..ROWS {
            if l.present[place] {
                self.field(word, s, l, place);
            }
        }
    }

    // The lines before the fields.
    fn head(&mut self, s: &[u8], r: &Record)
        ensures { PutsHead self.old s.now r.now.attestation r.now.keymint r.now.challenge r.now.unique self.new }
    {
        let attestation = r.attestation;
        let keymint = r.keymint;
        self.numbers(
            b"version ",
            u64::from(attestation.version),
            b" level ",
            u64::from(attestation.level),
        );
        self.numbers(
            b"keymint ",
            u64::from(keymint.version),
            b" level ",
            u64::from(keymint.level),
        );
        self.octets(b"challenge ", s, r.challenge);
        self.octets(b"unique ", s, r.unique);
    }

    // The last line: how many elements.
    fn count(&mut self, count: usize)
        ensures { Puts self.old (count_line count) 30 self.new }
    {
        self.named(b"elements ", count as u64);
        self.octet(b'\n');
    }

    // All the lines of a record.
    fn whole_record(&mut self, s: &[u8], r: &Record, count: usize)
        ensures { PutsRecord self.old s.now r.now count self.new }
    {
        self.head(s, r);
        self.list(b"software ", s, &r.software);
        self.list(b"hardware ", s, &r.hardware);
        self.count(count);
    }
}

// Octets as lower-case hex, from a place of the output on; the next place. The text is one of its own, since the place of one that is
// lent is loaded and stored anew at each octet.
fn put_hex(out: &mut [u8], at: usize, s: &[u8]) -> usize
    ensures is { output out.new result ≡ puts (output out.old at) (hex_text s.now) }
    ensures few { length (hex_text s.now) ≤ 2 * length s.now }
{
    let mut text = Text { out, at };
    for b in s {
        let b = *b;
        text.octet(hex_digit(b / 16));
        text.octet(hex_digit(b % 16));
    }
    text.at
}

// A digit of lower-case hex.
fn hex_digit(n: u8) -> u8
    requires { n < 16 }
    ensures { result ≡ hex_digit n }
{
    b"0123456789abcdef"[usize::from(n)]
}

// "locked 0 or 1".
fn locked_digit(locked: bool) -> u8
    ensures { (result ∷ []) ≡ locked_text locked }
{
    if locked { b'1' } else { b'0' }
}

// What an output must have for a record: so much, and so much for each octet that its parts lie in; and for a refusal.
const RECORD_ROOM: usize = 32_768;

const OCTET_ROOM: usize = 56;

const REFUSAL_ROOM: usize = 64;

// Lists a record whose octet parts lie in s, of an extension of count elements, and says how long the text is that now
// stands at the front of the output. Parts are cut at the end of s, and sets at their 16 slots. The output must have 32,768
// octets and 56 for each of s, which is enough for any record; a shorter one is refused, and is as it was.
pub fn list_record(r: Record, count: usize, s: &[u8], out: &mut [u8]) -> Result<usize, Refused>
    ensures answer { of_listed result ≡ record_listed r count s.now out.old }
    ensures output { out.new ≡ record_left r count s.now out.old }
{
    let room = out.len();
    if room < RECORD_ROOM {
        return Err(Refused(Refusal::OutputShort, 0));
    }
    if (room - RECORD_ROOM) / OCTET_ROOM < s.len() {
        return Err(Refused(Refusal::OutputShort, 0));
    }
    let mut text = Text { out, at: 0 };
    text.whole_record(s, &r, count);
    Ok(text.at)
}

// Lists a refusal. The output must have 64 octets. The number is a u8 and no Refusal: any number is listed, and a narrower
// type would ask more of callers.
pub fn list_refusal(number: u8, place: usize, out: &mut [u8]) -> Result<usize, Refused>
    ensures answer { of_listed result ≡ refusal_listed number place out.old }
    ensures output { out.new ≡ refusal_left number place out.old }
{
    if out.len() < REFUSAL_ROOM {
        return Err(Refused(Refusal::OutputShort, 0));
    }
    let mut text = Text { out, at: 0 };
    text.numbers(b"refused ", u64::from(number), b" at ", place as u64);
    Ok(text.at)
}
