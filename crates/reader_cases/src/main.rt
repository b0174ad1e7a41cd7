// Runs the cases that its standard input holds and writes for each its name and the listing. scripts/reader_cases.py
// makes both files, with each expected listing beside its case.
//
// A case is the length of its name (one octet), its name, the length of the extension (two octets, highest first) and
// the extension.
#![tactic(auto)]

ghost use Rattle.std.specs.Prelude.{◌≡◌, ◌<◌, length};

use case_input::{Input, front, read_full};
use extension_text::list_bytes;
use std::io;

// Runs the next case.
fn one_case(rt: &HostRuntime, input: &mut Input, out: &mut [u8]) -> io::Result<()>
    requires { 0 < length input.old.rest.now }
    ensures shorter { length input.new.rest.now < length input.old.rest.now }
    ensures kept { length out.new ≡ length out.old }
{
    let size = usize::from(input.octet());
    rt.write_all(input.octets(size))?;
    println!(rt; ":")?;
    // Two octets at once: Input has single ones and words.
    let size = 256 * usize::from(input.octet()) + usize::from(input.octet());
    match list_bytes(input.octets(size), out) {
        Ok(n) => rt.write_all(front(out, n)),
        Err(_) => println!(rt; "short output"),
    }
}

// Runs cases until the input ends, which are not counted.
fn all_cases(rt: &HostRuntime, s: &[u8], out: &mut [u8]) -> io::Result<()> {
    let mut input = Input { rest: s };
    while !input.rest.is_empty() {
        one_case(rt, &mut input, out)?;
    }
    Ok(())
}

fn main(rt: HostRuntime) -> io::Result<()> {
    // Fixed memory: no heap, so the input is what its buffer holds, and the text has room for any listing of it.
    let mut input = [0; 262144];
    let mut text = [0; 491576];
    let n = read_full(&rt, &mut input)?;
    all_cases(&rt, &input[..n], &mut text)
}
