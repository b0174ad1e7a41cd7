// Writing: the answer, whether each byte that may not change is as it was, and the listing of what is read back.
use crate::record::Held;
use answer::Refused;
use case_input::front;
use listing::list_record;
use reader::Reading;
use std::io;

// The texts of what is read back and of what was written.
#[derive(Drop)]
pub(crate) struct Texts<'a> {
    pub(crate) read: &'a mut [u8],
    pub(crate) written: &'a mut [u8],
}

// What stands in the output before a write.
fn filler(place: usize) -> u8 {
    (place % 251) as u8
}

fn fill(out: &mut [u8]) {
    for (place, octet) in out.iter_mut().enumerate() {
        *octet = filler(place);
    }
}

// Says whether each byte of out from a place on is as it was.
fn say_kept(rt: &HostRuntime, out: &[u8], from: usize) -> io::Result<()> {
    let mut rest = out.iter().enumerate().skip(from);
    if rest.all(|(place, octet)| *octet == filler(place)) {
        println!(rt; "kept")
    } else {
        println!(rt; "changed")
    }
}

// The text that a listing left in out; none where it had no room.
fn listed(answer: Result<usize, Refused>, out: &[u8]) -> &[u8] {
    front(out, answer.unwrap_or(0))
}

// Says what was read back, and whether what was written lists the same.
fn say_texts(
    rt: &HostRuntime,
    texts: &Texts,
    read: Result<usize, Refused>,
    written: Result<usize, Refused>,
) -> io::Result<()> {
    let read = listed(read, texts.read);
    rt.write_all(read)?;
    if read == listed(written, texts.written) {
        println!(rt; "as written")
    } else {
        println!(rt; "other than written")
    }
}

// Lists what is read back from an encoding, and the record that was written.
fn say_reading(
    rt: &HostRuntime,
    held: &Held,
    encoding: &[u8],
    texts: &mut Texts,
) -> io::Result<()> {
    let Ok(Reading { elements, said }) = reader::read(encoding) else {
        return println!(rt; "not read");
    };
    let read = list_record(said, elements, encoding, texts.read);
    let written = list_record(held.record, elements, held.buffer, texts.written);
    say_texts(rt, texts, read, written)
}

// Says what writing the record into size bytes of the output answers and leaves, once that is filled, and what is read back.
pub(crate) fn say_write(
    rt: &HostRuntime,
    held: &Held,
    size: usize,
    out: &mut [u8],
    texts: &mut Texts,
) -> io::Result<()> {
    fill(out);
    let size = size.min(out.len());
    match writer::write(held.record, held.buffer, &mut out[..size]) {
        Ok(n) => {
            let encoding = front(out, n);
            print!(rt; "wrote {n} ")?;
            for octet in encoding {
                print!(rt; "{octet:02x}")?;
            }
            print!(rt; " rest ")?;
            say_kept(rt, out, n)?;
            say_reading(rt, held, encoding, texts)
        }
        Err(refused) => {
            print!(rt; "{refused} output ")?;
            say_kept(rt, out, 0)
        }
    }
}
