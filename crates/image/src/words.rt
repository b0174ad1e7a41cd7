// An image's words, where they are those of a record.
ghost use Rattle.std.specs.Prelude.{◌≡◌, true, ◌≤◌, length};
ghost use Rattle.image.specs.Image.{words_fit};

// As many as an image has, or more, of which those that are looked at are those of a record.
#[derive(Clone, Copy)]
pub struct Words<'a> {
    pub words: &'a [u64],
    ghost enough: { 410 ≤ length words.now },
    ghost fit: { words_fit words.now ≡ true },
}
