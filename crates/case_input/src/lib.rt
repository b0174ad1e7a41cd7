// What the case programs read their cases by: octets, words and parts, from the front of what is left of an input. What lies
// past its end reads as 0, and a part that runs past it is empty, so that a case that was cut off has an answer too.
#![tactic(auto)]

ghost use Rattle.std.specs.Prelude.{◌≡◌, ◌-◌, ◌≤◌, length, drop, get_or, IfOk};
ghost use Rattle.case_input.specs.Input.{word_at_front, octets_at_front};

use std::io;
use std::io::Read;

// What is left of an input.
#[derive(Clone, Copy)]
pub struct Input<'a> {
    pub rest: &'a [u8],
}

impl<'a> Input<'a> {
    // The octets of s from a place on; none where it lies past the end.
    pub fn at(s: &'a [u8], place: usize) -> Self
        ensures { result.rest.now ≡ drop place s.now }
    {
        Input {
            rest: if place <= s.len() { &s[place..] } else { &[] },
        }
    }

    // The next octet.
    pub fn octet(&mut self) -> u8
        ensures value { result ≡ get_or self.old.rest.now 0 0 }
        ensures rest { self.new.rest.now ≡ drop 1 self.old.rest.now }
        ensures left { length self.new.rest.now ≡ length self.old.rest.now - 1 }
    {
        let Some((first, rest)) = self.rest.split_first() else {
            return 0;
        };
        self.rest = rest;
        *first
    }

    // The next eight octets as a number, highest first.
    pub fn word(&mut self) -> u64
        ensures value { result ≡ word_at_front self.old.rest.now }
        ensures rest { self.new.rest.now ≡ drop 8 self.old.rest.now }
        ensures left { length self.new.rest.now ≡ length self.old.rest.now - 8 }
    {
        u64::from_be_bytes([
            self.octet(),
            self.octet(),
            self.octet(),
            self.octet(),
            self.octet(),
            self.octet(),
            self.octet(),
            self.octet(),
        ])
    }

    // The next n octets; none where fewer are left.
    pub fn octets(&mut self, n: usize) -> &'a [u8]
        ensures octets { result.now ≡ octets_at_front n self.old.rest.now }
        ensures rest { self.new.rest.now ≡ drop n self.old.rest.now }
        ensures left { length self.new.rest.now ≡ length self.old.rest.now - n }
    {
        let octets = front(self.rest, n);
        *self = Input::at(self.rest, n);
        octets
    }
}

// The first n octets of s; none where it has fewer.
pub fn front(s: &[u8], n: usize) -> &[u8]
    ensures { result.now ≡ octets_at_front n s.now }
{
    s.get(..n).unwrap_or(&[])
}

// Reads until buf is full or the input ends, and answers how many octets stand at its front. The loop counts them, since a
// read may give fewer than were asked for.
pub fn read_full(rt: &HostRuntime, buf: &mut [u8]) -> io::Result<usize>
    ensures { IfOk result (λ n. n ≤ length buf.new) }
{
    let mut input = rt.stdin();
    let mut done: usize = 0;
    while done < buf.len() {
        let n = input.read(&mut buf[done..])?;
        if n == 0 {
            break;
        }
        done += n;
    }
    Ok(done)
}
