// Runs the cases that its standard input holds and writes a line for each: its name and the answer. scripts/der_cases.py
// makes both files, with each expected answer beside its case.
//
// A case is a kind (one octet), the length of its name (one octet), its name and words of eight octets, highest first:
// w: limits of bytes, depth and elements, how many octets follow, and those: the first pass over them.
// h: output length, place, form, number and size: what put_header answers and leaves.
// i: output length, place and number: what put_integer answers and leaves.
#![tactic(auto)]

ghost use Rattle.std.specs.Prelude.{◌<◌, ◌≤◌, length, IfOk};

use answer::Refused;
use case_input::{Input, read_full};
use der::walk::{Limits, walk};
use der_write::{put_header, put_integer};
use std::io;

// A number after what it is, or the refusal.
fn say_answer(rt: &HostRuntime, what: &str, answer: Result<usize, Refused>) -> io::Result<()> {
    match answer {
        Ok(n) => print!(rt; "{what} {n}"),
        Err(refused) => print!(rt; "{refused}"),
    }
}

// The next place or the refusal, and all of the output.
fn say_written(rt: &HostRuntime, answer: Result<usize, Refused>, out: &[u8]) -> io::Result<()> {
    say_answer(rt, "next", answer)?;
    for octet in out {
        print!(rt; " {octet:02x}")?;
    }
    println!(rt)
}

fn walk_case(rt: &HostRuntime, input: &mut Input) -> io::Result<()>
    ensures { length input.new.rest.now ≤ length input.old.rest.now }
{
    let limits = Limits {
        bytes: input.word() as usize,
        depth: input.word() as usize,
        elements: input.word() as usize,
    };
    let size = (input.word() % 0x1_0000_0000) as usize;
    say_answer(rt, "elements", walk(input.octets(size), limits))?;
    println!(rt)
}

fn header_case(rt: &HostRuntime, input: &mut Input) -> io::Result<()>
    ensures { length input.new.rest.now ≤ length input.old.rest.now }
{
    let mut out = [0xee; 16];
    let room = (input.word() % 17) as usize;
    let at = input.word() as usize;
    let form = (input.word() % 256) as u8;
    let number = input.word() as usize;
    let size = input.word() as usize;
    let answer = put_header(&mut out[..room], at, form, number, size);
    say_written(rt, answer, &out)
}

fn integer_case(rt: &HostRuntime, input: &mut Input) -> io::Result<()>
    ensures { length input.new.rest.now ≤ length input.old.rest.now }
{
    let mut out = [0xee; 16];
    let room = (input.word() % 17) as usize;
    let at = input.word() as usize;
    let answer = put_integer(&mut out[..room], at, input.word());
    say_written(rt, answer, &out)
}

// Runs the next case.
fn one_case(rt: &HostRuntime, input: &mut Input) -> io::Result<()>
    requires { 0 < length input.old.rest.now }
    ensures { length input.new.rest.now < length input.old.rest.now }
{
    let kind = input.octet();
    let size = usize::from(input.octet());
    rt.write_all(input.octets(size))?;
    print!(rt; ": ")?;
    match kind {
        b'w' => walk_case(rt, input),
        b'h' => header_case(rt, input),
        b'i' => integer_case(rt, input),
        _ => println!(rt; "no such kind"),
    }
}

// Runs cases until the input ends, which are not counted.
fn all_cases(rt: &HostRuntime, s: &[u8]) -> io::Result<()> {
    let mut input = Input { rest: s };
    while !input.rest.is_empty() {
        one_case(rt, &mut input)?;
    }
    Ok(())
}

fn main(rt: HostRuntime) -> io::Result<()> {
    // Fixed memory: no heap, so the input is what this buffer holds.
    let mut input = [0; 262144];
    let n = read_full(&rt, &mut input)?;
    all_cases(&rt, &input[..n])
}
