// The first pass (document 01, "DER as walked"): nested elements within limits, no schema. One function walks an
// element, another the run of elements inside it; they call each other. A header's octets are read once, and the
// content of an element that holds none is not read at all.
ghost use Rattle.std.specs.Prelude.{◌≡◌, ℕ, ◌-◌, ◌≤◌, length, IfSome};
ghost use Rattle.std.proofs.Math.Seq.{slice};
ghost use Rattle.codec.specs.Tree.{walk_element, first_pass};
ghost use Rattle.der.specs.Quick.{PlainTo, SingleTo, QuickIs};
ghost use Rattle.der.specs.Walk.{of_step, of_run, of_walked, counted, run_counted, node_count, StepInside, extension_limits};

use crate::header::{Extent, Header, Identifier, extent_at, read_header, short_at};
use answer::{Refusal, Refused};

// "An extension has at most 8,192 bytes and 512 elements", "down to depth 8".
pub const EXTENSION_BYTES: usize = 8192;

const EXTENSION_DEPTH: usize = 8;

const EXTENSION_ELEMENTS: usize = 512;

// How much input is taken: bytes, levels of nesting and elements.
#[derive(Clone, Copy)]
pub struct Limits {
    pub bytes: usize,
    pub depth: usize,
    pub elements: usize,
}

impl Limits {
    pub fn extension() -> Self
        ensures { result ≡ extension_limits }
    {
        Limits {
            bytes: EXTENSION_BYTES,
            depth: EXTENSION_DEPTH,
            elements: EXTENSION_ELEMENTS,
        }
    }
}

// Past an element: the next place, and how many elements were met so far.
#[derive(Clone, Copy)]
pub(crate) struct Past {
    pub(crate) next: usize,
    pub(crate) met: usize,
}

// The element at at, where depth levels are left and met elements were met before. These and the most that may be met are no
// struct, since depth and met change each at a step of its own, and most nowhere.
#[cycle(walk_element_walk_run)]
fn walk_element(s: &[u8], at: usize, depth: usize, met: usize, most: usize) -> Result<Past, Refused>
    ensures is { of_step s.now (length s.now) result ≡ counted met (walk_element most depth met at (slice at (length s.now) s.now)) }
    ensures inside { StepInside at (length s.now) result }
{
    if depth == 0 {
        return Err(Refused(Refusal::TooDeep, at));
    }
    if most <= met {
        return Err(Refused(Refusal::TooManyElements, at));
    }
    let Header {
        form,
        size,
        body,
        ..
    } = read_header(s, at)?;
    let next = body + size;
    if form % 2 == 0 {
        return Ok(Past { next, met: met + 1 });
    }
    let met = walk_run(&s[..next], body, depth - 1, met + 1, most)?;
    Ok(Past { next, met })
}

// Where the element at at stops, where it is of the universal class, its tag number is below 31 and it holds none.
fn past_plain(s: &[u8], at: usize) -> Option<usize>
    ensures { IfSome result (PlainTo s.now at (length s.now)) }
{
    let a = *s.get(at)?;
    if 31 <= a {
        return None;
    }
    let Extent { stop, .. } = extent_at(s, at + 1)?;
    Some(stop)
}

// Where the element at at stops, where it holds just one, which holds none. An explicit tag around a number, NULL or
// octets is one.
fn past_single(s: &[u8], at: usize) -> Option<usize>
    ensures { IfSome result (SingleTo s.now at (length s.now)) }
{
    let Identifier { form, next, .. } = short_at(s, at)?;
    if form % 2 == 0 {
        return None;
    }
    let Extent { body, stop } = extent_at(s, next)?;
    if past_plain(&s[..stop], body)? != stop {
        return None;
    }
    Some(stop)
}

// The element at at, where it is one of these and no limit is near.
fn quick_step(s: &[u8], at: usize, depth: usize, met: usize, most: usize) -> Option<Past>
    ensures { QuickIs s.now most depth met at (length s.now) result }
{
    if depth < 2 || most < 2 || most - 2 < met {
        return None;
    }
    if let Some(next) = past_plain(s, at) {
        return Some(Past { next, met: met + 1 });
    }
    let next = past_single(s, at)?;
    Some(Past { next, met: met + 2 })
}

// The elements from at to the holder's end, one after the other: how many were met so far. The place moves by what an element
// takes, so no range has it.
#[cycle(walk_element_walk_run)]
fn walk_run(s: &[u8], at: usize, depth: usize, met: usize, most: usize) -> Result<usize, Refused>
    requires { at ≤ length s.now }
    ensures { (f : ℕ) → length s.now - at ≤ f → of_run result ≡ run_counted most depth f met at (slice at (length s.now) s.now) }
{
    let mut past = Past { next: at, met };
    while past.next < s.len() {
        past = match quick_step(s, past.next, depth, past.met, most) {
            Some(quick) => quick,
            None => walk_element(s, past.next, depth, past.met, most)?,
        };
    }
    Ok(past.met)
}

// Walks the one element that s is. Any bytes and any limits get an answer, how many elements were met or a refusal, and
// nothing is changed.
pub fn walk(s: &[u8], limits: Limits) -> Result<usize, Refused>
    ensures { of_walked result ≡ node_count (first_pass limits.bytes limits.depth limits.elements s.now) }
{
    if limits.bytes < s.len() {
        return Err(Refused(Refusal::TooLong, 0));
    }
    if s.is_empty() {
        return Err(Refused(Refusal::RunsOut, 0));
    }
    let Past { next, met } = walk_element(s, 0, limits.depth, 0, limits.elements)?;
    if next != s.len() {
        return Err(Refused(Refusal::SpareBytes, next));
    }
    Ok(met)
}
