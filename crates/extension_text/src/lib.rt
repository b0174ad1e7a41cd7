// The listing of an extension's bytes as text (document 01, "One extension, whole"): what is read is listed.
#![tactic(auto)]

ghost use Rattle.std.specs.Prelude.{◌≡◌};
ghost use Rattle.listing.specs.Room.{of_listed};
ghost use Rattle.extension_text.specs.Bytes.{extension_listed, extension_left};

use answer::Refused;
use listing::{list_record, list_refusal};

// Lists the bytes s at the front of out. It is read first: a refusal asks for 64 octets, an accepted extension for 32,768
// and 56 for each of its bytes, so 491,520 are enough for any bytes. Where out has less the listing is refused with 21, and out
// stays as it was.
pub fn list_bytes(s: &[u8], out: &mut [u8]) -> Result<usize, Refused>
    ensures answer { of_listed result ≡ extension_listed s.now out.old }
    ensures output { out.new ≡ extension_left s.now out.old }
{
    match reader::read(s) {
        Ok(reading) => list_record(reading.said, reading.elements, s, out),
        Err(Refused(refusal, place)) => list_refusal(refusal.number(), place, out),
    }
}
