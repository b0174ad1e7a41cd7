// The C interface (include/sculldrip.h): every function takes anything and answers one number, and a refused call changes
// nothing that was lent. specs/Calls.antt says what each answers and leaves. Beside each export stands what it does as a
// Result; the export makes one number of that.
#![tactic(auto)]

mod packed;

ghost use Rattle.std.specs.Prelude.{◌≡◌, ◌≤◌, length};
ghost use Rattle.extension_text.specs.Bytes.{extension_left};
ghost use Rattle.sculldrip.specs.Packed.{of_answer};
ghost use Rattle.sculldrip.specs.Calls.{interface_version, elements, read_into, read_answer, ReadLeaves, write_image, write_answer, write_leaves, asked_beside, ask_answer, ask_leaves, request_of, rule_beside, rule_answer, rule_leaves, enrol_beside, enrol_answer, list_answer};

use crate::packed::word_of;
use answer::{Refusal, Refused};
use extension_text::list_bytes;
use image::{put_image, words_of};
use octet_fields::ask_octets;
use ruling::request::{Request, Token};

// The interface's version, as SCULLDRIP_VERSION in the header.
#[unsafe(no_mangle)]
pub extern "C" fn sculldrip_version() -> u64
    ensures { result ≡ interface_version }
{
    2
}

fn read_into(extension: &[u8], image: &mut [u64]) -> Result<usize, Refused>
    ensures answer { of_answer result ≡ elements (read_into extension.now image.old) }
    ensures output { ReadLeaves extension.now image.old image.new }
{
    if image.len() < 410 {
        return Err(Refused(Refusal::ShortImage, 0));
    }
    let reading = reader::read(extension)?;
    put_image(image, reading.said);
    Ok(reading.elements)
}

// Reads an extension into an image.
#[unsafe(no_mangle)]
pub extern "C" fn sculldrip_read(extension: &[u8], image: &mut [u64]) -> u64
    ensures answer { result ≡ read_answer extension.now image.old }
    ensures output { ReadLeaves extension.now image.old image.new }
{
    word_of(read_into(extension, image))
}

fn write_image(image: &[u64], buffer: &[u8], output: &mut [u8]) -> Result<usize, Refused>
    ensures answer { of_answer result ≡ write_image image.now buffer.now output.old }
    ensures output { output.new ≡ write_leaves image.now buffer.now output.old }
{
    let words = words_of(image)?;
    let r = words.record();
    writer::write(r, buffer, output)
}

// Writes the one encoding of an image's record at the front of the output.
#[unsafe(no_mangle)]
pub extern "C" fn sculldrip_write(image: &[u64], buffer: &[u8], output: &mut [u8]) -> u64
    ensures answer { result ≡ write_answer image.now buffer.now output.old }
    ensures output { output.new ≡ write_leaves image.now buffer.now output.old }
{
    word_of(write_image(image, buffer, output))
}

fn ask_image(
    image: &[u64],
    hardware: u64,
    number: u64,
    size: usize,
    part: &mut [u64],
) -> Result<usize, Refused>
    ensures answer { of_answer result ≡ asked_beside image.now hardware number size part.old }
    ensures output { part.new ≡ ask_leaves image.now hardware number size part.old }
{
    if part.len() < 2 {
        return Err(Refused(Refusal::ShortImage, 0));
    }
    let words = words_of(image)?;
    let r = words.record();
    let asked = ask_octets(r, hardware != 0, number as usize, size)?;
    // 0 for absent and 1 for there, as the C interface has them.
    match asked {
        None => Ok(0),
        Some(found) => {
            part[0] = found.start as u64;
            part[1] = found.len as u64;
            Ok(1)
        }
    }
}

// Asks for an octet field of an image's record; its place goes into part.
#[unsafe(no_mangle)]
pub extern "C" fn sculldrip_octets(
    image: &[u64],
    hardware: u64,
    number: u64,
    size: usize,
    part: &mut [u64],
) -> u64
    ensures answer { result ≡ ask_answer image.now hardware number size part.old }
    ensures output { part.new ≡ ask_leaves image.now hardware number size part.old }
{
    word_of(ask_image(image, hardware, number, size, part))
}

// The request whose words they are.
fn request_of(words: &[u64]) -> Request
    requires { 16 ≤ length words.now }
    ensures { result ≡ request_of words.now }
{
    let token = Token {
        kinds: words[8],
        time: words[9],
        challenge: words[10],
    };
    Request {
        purpose: words[0],
        digest: words[1],
        padding: words[2],
        clock: words[3],
        floor: words[4],
        uptime: words[5],
        handle: words[6],
        token: (words[7] != 0).then_some(token),
        locked: words[11] != 0,
        present: words[12] != 0,
        confirmed: words[13] != 0,
        early_boot_over: words[14] != 0,
        uses: words[15],
    }
}

fn rule_image(image: &[u64], request: &[u64], permit: &mut [u64]) -> Result<usize, Refused>
    ensures answer { of_answer result ≡ rule_beside image.now request.now permit.old }
    ensures output { permit.new ≡ rule_leaves image.now request.now permit.old }
{
    if request.len() < 16 {
        return Err(Refused(Refusal::ShortImage, 0));
    }
    if permit.len() < 4 {
        return Err(Refused(Refusal::ShortImage, 0));
    }
    let words = words_of(image)?;
    let r = words.record();
    let ruled = ruling::rule(r, request_of(request))?;
    permit[0] = u64::from(ruled.hardware);
    permit[1] = u64::from(ruled.hardware_bits);
    permit[2] = u64::from(ruled.software);
    permit[3] = u64::from(ruled.software_bits);
    Ok(0)
}

// Rules on a use of the key of an image's record; a permit's marks go into permit.
#[unsafe(no_mangle)]
pub extern "C" fn sculldrip_rule(image: &[u64], request: &[u64], permit: &mut [u64]) -> u64
    ensures answer { result ≡ rule_answer image.now request.now permit.old }
    ensures output { permit.new ≡ rule_leaves image.now request.now permit.old }
{
    word_of(rule_image(image, request, permit))
}

fn enrol_image(image: &[u64], buffer: &[u8], expected: &[u8]) -> Result<usize, Refused>
    ensures { of_answer result ≡ enrol_beside image.now buffer.now expected.now }
{
    let words = words_of(image)?;
    let r = words.record();
    enrolment::enrol(r, buffer, expected)?;
    Ok(0)
}

// Rules on taking on the key of an image's record.
#[unsafe(no_mangle)]
pub extern "C" fn sculldrip_enrol(image: &[u64], buffer: &[u8], expected: &[u8]) -> u64
    ensures answer { result ≡ enrol_answer image.now buffer.now expected.now }
{
    word_of(enrol_image(image, buffer, expected))
}

// Lists an extension, or its refusal, as text. A refusal asks for 64 octets; 491,520 are enough for any extension.
#[unsafe(no_mangle)]
pub extern "C" fn sculldrip_list(extension: &[u8], text: &mut [u8]) -> u64
    ensures answer { result ≡ list_answer extension.now text.old }
    ensures output { text.new ≡ extension_left extension.now text.old }
{
    word_of(list_bytes(extension, text))
}
