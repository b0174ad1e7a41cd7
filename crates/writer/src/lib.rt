// A record as its one encoding (document 01, "Numbers of the reader and writer"), at the front of a lent output.
#![tactic(auto)]

mod put;

ghost use Rattle.std.specs.Prelude.{◌≡◌};
ghost use Rattle.writer.specs.Written.{written, left_by, of_written};

use crate::put::put_extension;
use answer::{Refusal, Refused};
use der::walk::EXTENSION_BYTES;
use records::Record;
use shape::parts::parts_inside;
use shape::well_shaped;
use sizes::sizes_of;

// Writes the encoding of a record whose octet parts lie in s, and answers how long it is; or a refusal with its place, and
// the output is as it was. A record may be set to anything: one that is not well-shaped, or that has a part outside s, is
// refused. The size is found first, so that a refusal touches nothing.
pub fn write(r: Record, s: &[u8], out: &mut [u8]) -> Result<usize, Refused>
    ensures answer { of_written result ≡ written r s.now out.old }
    ensures output { out.new ≡ left_by r s.now out.old }
{
    if !well_shaped(r) {
        return Err(Refused(Refusal::IllShaped, 0));
    }
    if !parts_inside(r, s.len()) {
        return Err(Refused(Refusal::IllShaped, 0));
    }
    let sizes = sizes_of(s, r);
    if EXTENSION_BYTES < sizes.whole {
        return Err(Refused(Refusal::EncodingTooLong, 0));
    }
    if out.len() < sizes.whole {
        return Err(Refused(Refusal::OutputShort, 0));
    }
    Ok(put_extension(out, s, r, sizes))
}
