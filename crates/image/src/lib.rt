// A record as the words of a caller's image, and an image's words as a record (include/sculldrip.h has the layout).
#![tactic(auto)]

mod fit;
mod from;
mod layout;
mod put;
mod words;

ghost use Rattle.std.specs.Prelude.{◌≡◌, ◌≤◌, length, IfOk};
ghost use Rattle.image.specs.Image.{record_of, record_in, of_imaged, image_put};
ghost use Rattle.image.specs.Words.{of_words};
ghost use Rattle.image.specs.Whole.{WholeRecord};

use crate::fit::words_fit;
use crate::from::record_from;
use crate::layout::IMAGE_WORDS;
use crate::put::put_words;
pub use crate::words::Words;
use answer::Refusal;
use records::Record;

// The words of an image, the very ones that are lent. It is refused where it has too few, and where one that is looked at is that
// of no record.
pub fn words_of(image: &[u64]) -> Result<Words, Refusal>
    ensures answer { of_words result ≡ record_in image.now }
    ensures lent { IfOk result (λ w. (w.words.now ≡ image.now) × (w.words.ref_ptr ≡ image.entry.ref_ptr)) }
{
    if image.len() < IMAGE_WORDS {
        return Err(Refusal::ShortImage);
    }
    if !words_fit(image) {
        return Err(Refusal::IllShaped);
    }
    Ok(Words { words: image })
}

impl Words<'_> {
    // The record that they are of: by itself, since a place for a record or a refusal is cleared before it is filled.
    pub fn record(self) -> Record
        ensures { result ≡ record_of self.entry.words.now }
    {
        record_from(self.words)
    }
}

// The record that an image is of, or why it is of none.
pub fn record_of(image: &[u64]) -> Result<Record, Refusal>
    ensures { of_imaged result ≡ record_in image.now }
{
    Ok(words_of(image)?.record())
}

// The words of a record into the first 410 of out; nothing where it has fewer. What stands after them stays.
pub fn put_image(out: &mut [u64], r: Record)
    ensures is { out.new ≡ image_put out.old r }
    ensures whole { 410 ≤ length out.old → WholeRecord r }
{
    if IMAGE_WORDS <= out.len() {
        put_words(out, &r);
    }
}
