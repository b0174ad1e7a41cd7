// Rulings, and asking for an octet field.
use crate::input::{flag, small};
use crate::record::Held;
use case_input::Input;
use enrolment::enrol;
use octet_fields::ask_octets;
use records::Part;
use ruling::request::{Request, Token};
use ruling::{Permit, rule};
use std::io;

// There or not, type bits, time and challenge.
fn token_of(input: &mut Input) -> Option<Token> {
    flag(input).then_some(Token {
        kinds: input.word(),
        time: input.word(),
        challenge: input.word(),
    })
}

// Sixteen words, in the order of document 01's sentence.
fn request_of(input: &mut Input) -> Request {
    Request {
        purpose: input.word(),
        digest: input.word(),
        padding: input.word(),
        clock: input.word(),
        floor: input.word(),
        uptime: input.word(),
        handle: input.word(),
        token: token_of(input),
        locked: flag(input),
        present: flag(input),
        confirmed: flag(input),
        early_boot_over: flag(input),
        uses: input.word(),
    }
}

// Says how the use is ruled whose request comes next.
pub(crate) fn say_use(rt: &HostRuntime, held: &Held, input: &mut Input) -> io::Result<()> {
    match rule(held.record, request_of(input)) {
        Ok(
            Permit {
                hardware,
                hardware_bits,
                software,
                software_bits,
            },
        ) => {
            print!(rt; "permit hardware {hardware} of {hardware_bits}")?;
            println!(rt; " software {software} of {software_bits}")
        }
        Err(refused) => println!(rt; "{refused}"),
    }
}

// Says how the enrolment is ruled whose expected challenge comes next, after its length.
pub(crate) fn say_enrolment(rt: &HostRuntime, held: &Held, input: &mut Input) -> io::Result<()> {
    let size = small(input);
    match enrol(held.record, held.buffer, input.octets(size)) {
        Ok(()) => println!(rt; "yes"),
        Err(refused) => println!(rt; "{refused}"),
    }
}

// Says what asking for an octet field answers: the list, the number and the buffer's length come next.
pub(crate) fn say_octets(rt: &HostRuntime, held: &Held, input: &mut Input) -> io::Result<()> {
    let hardware = flag(input);
    let number = input.word() as usize;
    let size = input.word() as usize;
    match ask_octets(held.record, hardware, number, size) {
        Ok(Some(Part { start, len })) => println!(rt; "part {start} {len}"),
        Ok(None) => println!(rt; "absent"),
        Err(refused) => println!(rt; "{refused}"),
    }
}
