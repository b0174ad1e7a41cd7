// INTEGER, ENUMERATED, OCTET STRING, BOOLEAN and NULL, each an element opened and its content.
ghost use Rattle.std.specs.Prelude.{◌≡◌, ℕ, ◌<◌, ◌≤◌, length, slice_index};
ghost use Rattle.std.proofs.Math.Seq.{slice};
ghost use Rattle.codec.specs.Shortest.{big_endian};
ghost use Rattle.codec.specs.Integer.{integer_of};
ghost use Rattle.schema.specs.Decode.{read_octets, read_boolean, read_null, as_place};
ghost use Rattle.contents.specs.Taken.{TakenInside};
ghost use Rattle.contents.specs.Leaf.{read_number, ShortNumber, within_top, of_value, of_number, of_octets, of_boolean, of_null, OctetsInside};

use crate::element::{Span, open_tagged};
use crate::taken::Taken;
use answer::{Refusal, Refused};
use records::Part;

// The number that at most eight octets spell, the highest first. A sum, since `from_be_bytes` takes eight and no fewer.
fn spelled(octets: &[u8]) -> u64
    requires { length octets.now ≤ 8 }
    ensures { result ≡ big_endian octets.now }
{
    let mut value: u64 = 0;
    for x in octets {
        value = value * 256 + u64::from(*x);
    }
    value
}

// A number whose first octet is not 00: where it takes more than eight octets it is above any top.
fn within_top(octets: &[u8], top: u64) -> Option<u64>
    requires { (0 < length octets.now) × (1 ≤ slice_index octets.now 0) }
    ensures { (p : ℕ) → of_value p result ≡ within_top top p (big_endian octets.now) }
{
    if 8 < octets.len() {
        return None;
    }
    let value = spelled(octets);
    if top < value {
        return None;
    }
    Some(value)
}

// The content of an INTEGER or ENUMERATED: the number that it spells, where that is shortest, not negative and within its top.
fn value_of(octets: &[u8], top: u64) -> Option<u64>
    ensures { (p : ℕ) → of_value p result ≡ integer_of top 10 p octets.now }
{
    let a = *octets.first()?;
    if 128 <= a {
        return None;
    }
    if octets.len() == 1 {
        if top < u64::from(a) {
            return None;
        }
        return Some(u64::from(a));
    }
    if a == 0 {
        if octets[1] < 128 {
            return None;
        }
        return within_top(&octets[1..], top);
    }
    within_top(octets, top)
}

// An INTEGER (tag 2) or ENUMERATED (tag 10), within its top, of any length.
pub(crate) fn long_number(s: &[u8], at: usize, tag: usize, top: u64) -> Result<Taken<u64>, Refused>
    ensures is { of_number s.now (length s.now) result ≡ read_number tag top at (slice at (length s.now) s.now) }
    ensures inside { TakenInside at (length s.now) result }
{
    let Span { body, stop } = open_tagged(s, at, 0, tag)?;
    let val = value_of(&s[body..stop], top).ok_or(Refused(Refusal::BadContent, at))?;
    Ok(Taken { val, next: stop })
}

// The number of the next element, where its content is one octet below 128.
fn short_number(s: &[u8], at: usize, tag: usize) -> Option<u8>
    ensures { ShortNumber s.now at (length s.now) tag result }
{
    let end = s.len();
    if 31 <= tag || end <= at || end - at < 3 {
        return None;
    }
    if usize::from(s[at]) != tag || s[at + 1] != 1 {
        return None;
    }
    let n = s[at + 2];
    if 128 <= n {
        return None;
    }
    Some(n)
}

// An INTEGER (tag 2) or ENUMERATED (tag 10), within its top; many have one octet.
pub(crate) fn read_number(s: &[u8], at: usize, tag: usize, top: u64) -> Result<Taken<u64>, Refused>
    ensures is { of_number s.now (length s.now) result ≡ read_number tag top at (slice at (length s.now) s.now) }
    ensures inside { TakenInside at (length s.now) result }
{
    if let Some(n) = short_number(s, at, tag) {
        let val = u64::from(n);
        if val <= top {
            return Ok(Taken { val, next: at + 3 });
        }
    }
    long_number(s, at, tag, top)
}

// An OCTET STRING, whose content stays where it is.
pub(crate) fn read_octets(s: &[u8], at: usize) -> Result<Taken<Part>, Refused>
    ensures is { of_octets s.now (length s.now) result ≡ read_octets as_place at (slice at (length s.now) s.now) }
    ensures inside { OctetsInside at (length s.now) result }
{
    let Span { body, stop } = open_tagged(s, at, 0, 4)?;
    let len = stop - body;
    Ok(Taken {
        val: Part { start: body, len },
        next: stop,
    })
}

// A BOOLEAN: 00 or FF, and nothing else.
pub(crate) fn read_boolean(s: &[u8], at: usize) -> Result<Taken<bool>, Refused>
    ensures is { of_boolean s.now (length s.now) result ≡ read_boolean at (slice at (length s.now) s.now) }
    ensures inside { TakenInside at (length s.now) result }
{
    let Span { body, stop } = open_tagged(s, at, 0, 1)?;
    if stop - body != 1 {
        return Err(Refused(Refusal::BadContent, at));
    }
    let a = s[body];
    if a == 0 {
        return Ok(Taken {
            val: false,
            next: stop,
        });
    }
    if a == 255 {
        return Ok(Taken {
            val: true,
            next: stop,
        });
    }
    Err(Refused(Refusal::BadContent, at))
}

// A NULL, which has no content.
pub(crate) fn read_null(s: &[u8], at: usize) -> Result<Taken<()>, Refused>
    ensures is { of_null s.now (length s.now) result ≡ read_null at (slice at (length s.now) s.now) }
    ensures inside { TakenInside at (length s.now) result }
{
    let Span { body, stop } = open_tagged(s, at, 0, 5)?;
    if body != stop {
        return Err(Refused(Refusal::BadContent, at));
    }
    Ok(Taken {
        val: (),
        next: stop,
    })
}
