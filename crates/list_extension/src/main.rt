// Reads one extension from standard input and writes its listing (document 01, "One extension, whole"), once. The input
// stands in one buffer of 8,193 zeros, so that one byte too many is seen.
#![tactic(auto)]

ghost use Rattle.std.specs.Prelude.{◌≡◌, ◌≤◌, length};
ghost use Rattle.codec.specs.Octets.{splice};
ghost use Rattle.list_extension.specs.Shown.{shown};

use case_input::read_full;
use extension_text::list_bytes;
use std::io;

// The whole listing of any bytes s, at the front of a text that is never short; how long it is.
fn list_whole(s: &[u8], text: &mut [u8; 491520]) -> usize
    ensures answer { result ≡ length (shown s.now) }
    ensures output { text.new ≡ splice text.old 0 (shown s.now) }
    ensures inside { result ≤ length text.new }
{
    match list_bytes(s, text) {
        Ok(n) => n,
        Err(_) => 0,
    }
}

fn main(rt: HostRuntime) -> io::Result<()> {
    // Fixed memory: no heap.
    let mut input = [0u8; 8193];
    let mut text = [0u8; 491520];
    let n = read_full(&rt, &mut input)?;
    let m = list_whole(&input[..n], &mut text);
    rt.write_all(&text[..m])
}
