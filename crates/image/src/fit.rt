// Which words of an image are looked at, and whether they are those of a record.
ghost use Rattle.std.specs.Prelude.{◌≡◌, ◌≤◌, length};
ghost use Rattle.records.specs.Rows.{all_below};
ghost use Rattle.image.specs.Image.{at_most_at, set_fits, root_fits, list_fits, words_fit};

use crate::layout::{COUNT, DIGEST, HARDWARE, MGF, PADDING, PURPOSE, ROOT, SOFTWARE, VALUES};

// The most that 32 bits hold, and the most that a flag is.
const TOP32: u64 = 0xffff_ffff;

const SET: u64 = 1;

// Whether each word is at most top.
fn all_at_most(words: &[u64], top: u64) -> bool
    ensures { result ≡ all_below (at_most_at top words.now) (length words.now) }
{
    words.iter().all(|word| *word <= top)
}

// Whether the members of a set hold 32 bits, where its field's flag says that it is there; slots past its count are not
// looked at.
fn set_fits(flag: u64, words: &[u64]) -> bool
    requires { 17 ≤ length words.now }
    ensures { result ≡ set_fits flag words.now }
{
    let slots = words[COUNT].min(16) as usize;
    flag != SET || all_at_most(&words[..slots], TOP32)
}

// The same of a root of trust's flags and boot state.
fn root_fits(flag: u64, words: &[u64]) -> bool
    requires { 7 ≤ length words.now }
    ensures { result ≡ root_fits flag words.now }
{
    flag != SET || (words[2] <= SET && words[3] <= TOP32 && words[4] <= SET)
}

// Rows 0, 3, 4, 7 and 26 are those of 1, 5, 6, 203 and 704.
fn list_fits(words: &[u64]) -> bool
    requires { 201 ≤ length words.now }
    ensures { result ≡ list_fits words.now }
{
    all_at_most(&words[..VALUES], SET)
        && set_fits(words[0], &words[PURPOSE..])
        && set_fits(words[3], &words[DIGEST..])
        && set_fits(words[4], &words[PADDING..])
        && set_fits(words[7], &words[MGF..])
        && root_fits(words[26], &words[ROOT..])
}

// Whether the words that are looked at are those of a record: 32-bit words within their width, flags 0 or 1.
pub(crate) fn words_fit(image: &[u64]) -> bool
    requires { 410 ≤ length image.now }
    ensures { result ≡ words_fit image.now }
{
    all_at_most(&image[..4], TOP32)
        && list_fits(&image[SOFTWARE..])
        && list_fits(&image[HARDWARE..])
}
