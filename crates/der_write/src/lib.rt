// The leaves of a writer: an element's header and an INTEGER, put at a place of a lent output. Each refuses what a
// reader would refuse, or a short output, and then changes not one byte; else it writes just its octets, and answers the
// place after them. `copy_octets` refuses nothing: it copies as much as there is room for.
#![tactic(auto)]

ghost use Rattle.std.specs.Prelude.{◌≡◌, ℕ, ◌+◌, ◌<◌, ◌≤◌, leb, length, take};
ghost use Rattle.codec.specs.Octets.{splice, left};
ghost use Rattle.codec.specs.Shortest.{low_octets, bits, integer_size, length_octets};
ghost use Rattle.codec.specs.Integer.{integer_element};
ghost use Rattle.codec.specs.Header.{identifier, identifier_octets, header_octets};
ghost use Rattle.der_write.specs.Write.{of_put, header_put, header_left, room_after, room_for};

use answer::{Refusal, Refused};

// How many significant bits x has.
fn significant_bits(x: u64) -> usize
    ensures { (result ≡ bits x) × (result ≤ 64) }
{
    (64 - x.leading_zeros()) as usize
}

// How many content octets the INTEGER x has.
pub fn integer_size(x: u64) -> usize
    ensures is { result ≡ integer_size x }
    ensures few { result ≤ 9 }
{
    significant_bits(x) / 8 + 1
}

// How many octets the length n has.
pub fn length_size(n: usize) -> usize
    ensures is { result ≡ length (length_octets n) }
    ensures few { (0 < result) × (result ≤ 9) }
{
    if n < 128 {
        return 1;
    }
    significant_bits(n as u64).div_ceil(8) + 1
}

// How many octets an identifier of this tag number has, whatever its form.
pub fn identifier_size(number: usize) -> usize
    ensures is { (form : ℕ) → result ≡ length (identifier_octets (identifier form number)) }
    ensures few { (0 < result) × (result ≤ 3) }
{
    match number {
        ..31 => 1,
        31..128 => 2,
        _ => 3,
    }
}

// The place after n octets from at on, where out has room for them; no sum wraps.
fn place_after(out: &[u8], at: usize, n: usize) -> Result<usize, Refused>
    ensures { of_put result ≡ room_after out.now at n }
{
    match at.checked_add(n) {
        Some(end) if end <= out.len() => Ok(end),
        _ => Err(Refused(Refusal::OutputShort, 0)),
    }
}

// As many octets of from as to has, at the front of to; what it has beyond them stays. A loop, which becomes memcpy:
// `copy_from_slice` goes by memmove, which whoever links the library would have to bring, too.
pub fn copy_octets(to: &mut [u8], from: &[u8])
    ensures { to.new ≡ splice to.old 0 (take (length to.old) from.now) }
{
    for k in 0..to.len().min(from.len()) {
        to[k] = from[k];
    }
}

// x, the highest octet first, in as many octets as out has: from the last to the first, since to copy so few takes longer.
fn put_octets(out: &mut [u8], x: u64)
    requires { length out.old ≤ 9 }
    ensures { out.new ≡ low_octets (length out.old) x }
{
    let mut rest = x;
    for k in (0..out.len()).rev() {
        out[k] = (rest % 256) as u8;
        rest /= 256;
    }
}

// An identifier, in just its octets; a number from 31 on is taken apart seven bits to an octet.
fn put_identifier(out: &mut [u8], form: u8, number: usize)
    requires { (form < 8) × (number < 16384) × (length out.old ≡ length (identifier_octets (identifier form number))) }
    ensures { out.new ≡ identifier_octets (identifier form number) }
{
    if number < 31 {
        out[0] = form * 32 + number as u8;
        return;
    }
    out[0] = form * 32 + 31;
    if number < 128 {
        out[1] = number as u8;
        return;
    }
    out[1] = (number >> 7 | 0x80) as u8;
    out[2] = (number & 0x7f) as u8;
}

// A length, in just its octets: one, or how many follow and then those.
fn put_length(out: &mut [u8], n: usize)
    requires { length out.old ≡ length (length_octets n) }
    ensures { out.new ≡ length_octets n }
{
    if n < 128 {
        out[0] = n as u8;
        return;
    }
    let k = length_size(n) - 1;
    out[0] = (128 + k) as u8;
    put_octets(&mut out[1..], n as u64);
}

// The header of an element, in just its octets.
fn write_header(out: &mut [u8], form: u8, number: usize, size: usize)
    requires { (form < 8) × (number < 16384) × (length out.old ≡ length (header_octets (identifier form number) size)) }
    ensures { out.new ≡ header_octets (identifier form number) size }
{
    let n = identifier_size(number);
    put_identifier(&mut out[..n], form, number);
    put_length(&mut out[n..], size);
}

// The header of an element with size content octets.
pub fn put_header(
    out: &mut [u8],
    at: usize,
    form: u8,
    number: usize,
    size: usize,
) -> Result<usize, Refused>
    ensures answer { of_put result ≡ header_put out.old at (identifier form number) size }
    ensures output { out.new ≡ header_left out.old at (identifier form number) size }
{
    if 8 <= form || 16384 <= number {
        return Err(Refused(Refusal::BadIdentifier, at));
    }
    if 65536 <= size {
        return Err(Refused(Refusal::BadLength, at));
    }
    let end = place_after(out, at, identifier_size(number) + length_size(size))?;
    write_header(&mut out[at..end], form, number, size);
    Ok(end)
}

// The INTEGER x of n content octets, in just its octets; most have one, or two, which are stored faster than copied.
fn write_integer(out: &mut [u8], x: u64, n: usize)
    requires { (n ≡ integer_size x) × (n ≤ 9) × (length out.old ≡ 2 + n) }
    ensures { out.new ≡ integer_element x }
{
    out[0] = 2;
    out[1] = n as u8;
    if n == 1 {
        out[2] = x as u8;
        return;
    }
    if n == 2 {
        out[2] = (x / 256) as u8;
        out[3] = (x % 256) as u8;
        return;
    }
    put_octets(&mut out[2..], x);
}

// The INTEGER x: 02, its length and its shortest content.
pub fn put_integer(out: &mut [u8], at: usize, x: u64) -> Result<usize, Refused>
    ensures answer { of_put result ≡ room_for out.old at (integer_element x) }
    ensures output { out.new ≡ left (room_for out.old at (integer_element x)) out.old at (integer_element x) }
{
    let n = integer_size(x);
    let end = place_after(out, at, 2 + n)?;
    write_integer(&mut out[at..end], x, n);
    Ok(end)
}
