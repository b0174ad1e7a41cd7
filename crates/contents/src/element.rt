// The next element of a holder, opened: its identifier and where its content lies. A holder's bytes are those from the first to
// its end.
ghost use Rattle.std.specs.Prelude.{◌≡◌, length};
ghost use Rattle.std.proofs.Math.Seq.{slice};
ghost use Rattle.contents.specs.Element.{opened, opened_as, of_element, of_tagged, ElementInside, TaggedInside, LiesAt};

use answer::{Refusal, Refused};
use der::header::{Header, read_header};

// An element: its identifier, and its content from body to stop.
#[derive(Clone, Copy)]
pub struct Element {
    pub form: u8,
    pub number: usize,
    pub body: usize,
    pub stop: usize,
}

// The content of an element of a known identifier, from body to stop.
#[derive(Clone, Copy)]
pub struct Span {
    pub body: usize,
    pub stop: usize,
}

// The next element. Where no octet is left in the holder, an element is missing there.
pub fn open_element(s: &[u8], at: usize) -> Result<Element, Refused>
    ensures is { of_element s.now (length s.now) result ≡ opened at (slice at (length s.now) s.now) }
    ensures inside { ElementInside at (length s.now) result }
{
    if s.len() <= at {
        return Err(Refused(Refusal::WrongElement, at));
    }
    let Header {
        form,
        number,
        size,
        body,
    } = read_header(s, at)?;
    Ok(Element {
        form,
        number,
        body,
        stop: body + size,
    })
}

// The next element, which must have just this identifier, whatever its header's form.
fn open_long(s: &[u8], at: usize, form: u8, number: usize) -> Result<Span, Refused>
    ensures is { of_tagged s.now (length s.now) result ≡ opened_as form number at (slice at (length s.now) s.now) }
    ensures inside { TaggedInside at (length s.now) result }
{
    let element = open_element(s, at)?;
    if element.form != form {
        return Err(Refused(Refusal::WrongElement, at));
    }
    if element.number != number {
        return Err(Refused(Refusal::WrongElement, at));
    }
    Ok(Span {
        body: element.body,
        stop: element.stop,
    })
}

// The content of the next element, where its identifier and its length have one octet each, as in most, and the identifier is
// just this one.
fn short_tagged(s: &[u8], at: usize, form: u8, number: usize) -> Option<Span>
    ensures { LiesAt s.now at (length s.now) form number result }
{
    let end = s.len();
    if 31 <= number || end <= at || end - at < 2 {
        return None;
    }
    if usize::from(s[at]) != usize::from(form) * 32 + number {
        return None;
    }
    let b = s[at + 1];
    if 128 <= b {
        return None;
    }
    let size = usize::from(b);
    if end - at - 2 < size {
        return None;
    }
    Some(Span {
        body: at + 2,
        stop: at + 2 + size,
    })
}

// The next element, which must have just this identifier; most headers have two octets. Form and number are any, and go by
// themselves: each call writes them out.
pub fn open_tagged(s: &[u8], at: usize, form: u8, number: usize) -> Result<Span, Refused>
    ensures is { of_tagged s.now (length s.now) result ≡ opened_as form number at (slice at (length s.now) s.now) }
    ensures inside { TaggedInside at (length s.now) result }
{
    match short_tagged(s, at, form, number) {
        Some(span) => Ok(span),
        None => open_long(s, at, form, number),
    }
}
