// Where an image has its parts (include/sculldrip.h): in words, from its first one. The parts are slices whose clauses say how
// many words they have: an array of a part would come by `try_into`, with an arm for a refusal that never is.
pub(crate) const IMAGE_WORDS: usize = 410;

pub(crate) const SOFTWARE: usize = 8;

pub(crate) const HARDWARE: usize = 209;

// Where a list has its parts, from its own first word.
pub(crate) const VALUES: usize = 42;

pub(crate) const SIZES: usize = 84;

pub(crate) const PURPOSE: usize = 126;

pub(crate) const DIGEST: usize = 143;

pub(crate) const PADDING: usize = 160;

pub(crate) const MGF: usize = 177;

pub(crate) const ROOT: usize = 194;

// Where a set has its count, after its slots.
pub(crate) const COUNT: usize = 16;
