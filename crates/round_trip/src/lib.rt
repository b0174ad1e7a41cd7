// The reader and the writer, one after the other: write(read(b)) is b, and read(write(r)) equals r. Their contracts follow
// from those of `read` and `write` and the theorems of one_record alone.
#![tactic(auto)]

ghost use Rattle.std.specs.Prelude.{◌≡◌};
ghost use Rattle.codec.specs.Octets.{left};
ghost use Rattle.writer.specs.Written.{of_written, written, left_by};
ghost use Rattle.round_trip.specs.Again.{written_again, AnsweredAgain};

use answer::Refused;
use reader::Reading;
use records::Record;

// Reads an extension and writes its record: the same bytes, where they are accepted and the output has room for them.
pub fn write_again(s: &[u8], out: &mut [u8]) -> Result<usize, Refused>
    ensures answer { of_written result ≡ written_again s.now out.old }
    ensures output { out.new ≡ left (written_again s.now out.old) out.old 0 s.now }
{
    let reading = reader::read(s)?;
    writer::write(reading.said, s, out)
}

// Writes a record and reads it back from the output: an equal one. Where the write is refused, so is this, and nothing is read.
pub fn read_again(r: Record, s: &[u8], out: &mut [u8]) -> Result<Reading, Refused>
    ensures answer { AnsweredAgain r s.now (written r s.now out.old) out.new result }
    ensures output { out.new ≡ left_by r s.now out.old }
{
    let n = writer::write(r, s, out)?;
    reader::read(&out[..n])
}
