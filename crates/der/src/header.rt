// Identifier and length of an element (document 01, "DER as walked"), read at a place of its holder: the bytes from the first
// to the holder's end, so that places are those of all bytes. A refusal inside names the octet at fault; `reported_place` decides what
// a caller sees.
ghost use Rattle.std.specs.Prelude.{◌≡◌, ◌≤◌, length, take};
ghost use Rattle.std.proofs.Math.Seq.{slice};
ghost use Rattle.codec.specs.Header.{read_high_number, read_identifier, read_length, read_header};
ghost use Rattle.der.specs.Short.{ShortAt, ExtentAt};
ghost use Rattle.der.specs.Header.{OctetAt, of_identifier, of_length, of_header, IdentifierInside, LengthInside, HeaderInside, octet_header, reported_as};

use answer::{Refusal, Refused};

// An identifier: the three high bits of its first octet (the lowest of them is bit 6, "holds elements"), its tag
// number and the next place.
#[derive(Clone, Copy)]
pub(crate) struct Identifier {
    pub(crate) form: u8,
    pub(crate) number: usize,
    pub(crate) next: usize,
}

// A length and the next place.
#[derive(Clone, Copy)]
pub(crate) struct Length {
    pub(crate) size: usize,
    pub(crate) body: usize,
}

// A header, and where the content begins, which stands whole before the holder's end.
#[derive(Clone, Copy)]
pub struct Header {
    pub form: u8,
    pub number: usize,
    pub size: usize,
    pub body: usize,
}

// The octet at at. Octets are taken one at a time, so that running out before a bad octet is RunsOut.
fn octet(s: &[u8], at: usize) -> Result<u8, Refused>
    ensures { OctetAt s.now at result }
{
    s.get(at).copied().ok_or(Refused(Refusal::RunsOut, at))
}

// A tag number from 31 on, of one or two octets from at on.
fn read_high_number(s: &[u8], form: u8, at: usize) -> Result<Identifier, Refused>
    ensures is { of_identifier s.now (length s.now) result ≡ read_high_number form at (slice at (length s.now) s.now) }
    ensures inside { IdentifierInside at (length s.now) result }
{
    let b = octet(s, at)?;
    if b < 128 {
        if b < 31 {
            return Err(Refused(Refusal::BadIdentifier, at));
        }
        return Ok(Identifier {
            form,
            number: usize::from(b),
            next: at + 1,
        });
    }
    if b <= 128 {
        return Err(Refused(Refusal::BadIdentifier, at));
    }
    let p = at + 1;
    let c = octet(s, p)?;
    if 128 <= c {
        return Err(Refused(Refusal::BadIdentifier, p));
    }
    let high = usize::from(b & 0x7f);
    Ok(Identifier {
        form,
        number: high << 7 | usize::from(c),
        next: p + 1,
    })
}

fn read_identifier(s: &[u8], at: usize) -> Result<Identifier, Refused>
    ensures is { of_identifier s.now (length s.now) result ≡ read_identifier at (slice at (length s.now) s.now) }
    ensures inside { IdentifierInside at (length s.now) result }
{
    let a = octet(s, at)?;
    let form = a / 32;
    let low = a & 31;
    if low == 31 {
        return read_high_number(s, form, at + 1);
    }
    Ok(Identifier {
        form,
        number: usize::from(low),
        next: at + 1,
    })
}

// A length against the rules is at fault from its first octet on.
fn read_length(s: &[u8], at: usize) -> Result<Length, Refused>
    ensures is { of_length s.now (length s.now) result ≡ read_length at (slice at (length s.now) s.now) }
    ensures inside { LengthInside at (length s.now) result }
{
    let a = octet(s, at)?;
    let p = at + 1;
    if a < 128 {
        return Ok(Length {
            size: usize::from(a),
            body: p,
        });
    }
    if a == 129 {
        let b = octet(s, p)?;
        if b < 128 {
            return Err(Refused(Refusal::BadLength, at));
        }
        return Ok(Length {
            size: usize::from(b),
            body: p + 1,
        });
    }
    if a == 130 {
        let b = octet(s, p)?;
        if b < 1 {
            return Err(Refused(Refusal::BadLength, at));
        }
        let q = p + 1;
        let c = octet(s, q)?;
        // By a shift: an array of the two octets would be made for it.
        return Ok(Length {
            size: usize::from(b) << 8 | usize::from(c),
            body: q + 1,
        });
    }
    Err(Refused(Refusal::BadLength, at))
}

// An identifier of one octet or of three, which most have; of any other nothing is said.
pub(crate) fn short_at(s: &[u8], at: usize) -> Option<Identifier>
    ensures { ShortAt s.now at (length s.now) result }
{
    let a = *s.get(at)?;
    let form = a / 32;
    let low = a & 31;
    if low != 31 {
        return Some(Identifier {
            form,
            number: usize::from(low),
            next: at + 1,
        });
    }
    if s.len() - at < 4 {
        return None;
    }
    let b = s[at + 1];
    if b <= 128 {
        return None;
    }
    let c = s[at + 2];
    if 128 <= c {
        return None;
    }
    let upper = usize::from(b & 0x7f);
    Some(Identifier {
        form,
        number: upper << 7 | usize::from(c),
        next: at + 3,
    })
}

// The content after a length: from where to where it lies.
#[derive(Clone, Copy)]
pub(crate) struct Extent {
    pub(crate) body: usize,
    pub(crate) stop: usize,
}

// The content after the length at at; none where the length is against the rules or the content does not stand whole before
// the holder's end.
pub(crate) fn extent_at(s: &[u8], at: usize) -> Option<Extent>
    ensures { ExtentAt s.now at (length s.now) result }
{
    let Length { size, body } = read_length(s, at).ok()?;
    if s.len() - body < size {
        return None;
    }
    Some(Extent {
        body,
        stop: body + size,
    })
}

// The refusal that is reported of an element that starts at start, where the octet at its place is at fault.
fn reported_place(start: usize, fault: Refused) -> Refused
    ensures { result ≡ reported_as start fault }
{
    Refused(fault.0, start)
}

// The element's header, a fault at its own octet.
fn whole_header(s: &[u8], at: usize) -> Result<Header, Refused>
    ensures is { of_header s.now (length s.now) result ≡ octet_header at (slice at (length s.now) s.now) }
    ensures inside { HeaderInside at (length s.now) result }
{
    let Identifier { form, number, next } = read_identifier(s, at)?;
    let Length { size, body } = read_length(s, next)?;
    if s.len() - body < size {
        return Err(Refused(Refusal::RunsOut, body));
    }
    Ok(Header {
        form,
        number,
        size,
        body,
    })
}

// The header of the element at at, up to the holder's end.
pub fn read_header(s: &[u8], at: usize) -> Result<Header, Refused>
    ensures is { of_header s.now (length s.now) result ≡ read_header at (slice at (length s.now) s.now) }
    ensures inside { HeaderInside at (length s.now) result }
{
    whole_header(s, at).map_err(|fault| reported_place(at, fault))
}

// The bytes of s up to a holder's end, or all of them where that would lie past them. No crate here calls it: with it a caller
// that has an end asks what `read_header` answers of a holder.
pub fn holder(s: &[u8], end: usize) -> &[u8]
    ensures { result.now ≡ take end s.now }
{
    match s.get(..end) {
        Some(inner) => inner,
        None => s,
    }
}

// What `read_header` answers, sooner where the identifier has one octet or three, as a field's has.
pub fn quick_header(s: &[u8], at: usize) -> Result<Header, Refused>
    ensures is { of_header s.now (length s.now) result ≡ read_header at (slice at (length s.now) s.now) }
    ensures inside { HeaderInside at (length s.now) result }
{
    if let Some(Identifier { form, number, next }) = short_at(s, at) {
        if let Some(Extent { body, stop }) = extent_at(s, next) {
            return Ok(Header {
                form,
                number,
                size: stop - body,
                body,
            });
        }
    }
    read_header(s, at)
}
