// The words of a record, put into a caller's image: each function puts at the front of the words that it is lent.
ghost use Rattle.std.specs.Prelude.{◌≡◌, map, ℕ, ◌≤◌, length};
ghost use Rattle.codec.specs.Octets.{splice};
ghost use Rattle.image.specs.Image.{flag_word, number_word, set_words, sets_words, root_words, head_words, list_words, image_of};

use crate::layout::{
    COUNT, DIGEST, HARDWARE, MGF, PADDING, PURPOSE, ROOT, SIZES, SOFTWARE, VALUES,
};
use records::{FieldList, NumberSet, Record, RootOfTrust};

// What one word of an image holds.
trait Word: Copy {
    ghost as_word: { Self → ℕ };

    fn word(self) -> u64
        ensures { result ≡ as_word self };
}

impl Word for bool {
    ghost as_word = { flag_word };

    fn word(self) -> u64 {
        u64::from(self)
    }
}

impl Word for u32 {
    ghost as_word = { number_word };

    fn word(self) -> u64 {
        u64::from(self)
    }
}

impl Word for u64 {
    ghost as_word = { λ n. n };

    fn word(self) -> u64 {
        self
    }
}

// The word of each. Words of 64 bits go this way too, since `copy_from_slice` would have whoever links the library bring memmove.
fn put_each<T: Word>(out: &mut [u64], xs: &[T])
    requires { length xs.now ≤ length out.old }
    ensures { out.new ≡ splice out.old 0 (map T.as_word xs.now) }
{
    for (k, x) in xs.iter().enumerate() {
        out[k] = (*x).word();
    }
}

fn put_set(out: &mut [u64], g: &NumberSet)
    requires { 17 ≤ length out.old }
    ensures is { out.new ≡ splice out.old 0 (set_words g.now) }
    ensures long { length (set_words g.now) ≡ 17 }
{
    put_each(out, &g.members);
    out[COUNT] = g.count as u64;
}

fn put_root(out: &mut [u64], t: &RootOfTrust)
    requires { 7 ≤ length out.old }
    ensures { out.new ≡ splice out.old 0 (root_words t.now) }
{
    out[0] = t.key.start as u64;
    out[1] = t.key.len as u64;
    out[2] = t.locked.word();
    out[3] = t.state.word();
    out[4] = t.hashed.word();
    out[5] = t.hash.start as u64;
    out[6] = t.hash.len as u64;
}

fn put_sets(out: &mut [u64], l: &FieldList)
    requires { 68 ≤ length out.old }
    ensures is { out.new ≡ splice out.old 0 (sets_words l.now) }
    ensures long { length (sets_words l.now) ≡ 68 }
{
    put_set(out, &l.purpose);
    put_set(&mut out[DIGEST - PURPOSE..], &l.digest);
    put_set(&mut out[PADDING - PURPOSE..], &l.padding);
    put_set(&mut out[MGF - PURPOSE..], &l.mgf);
}

fn put_list(out: &mut [u64], l: &FieldList)
    requires { 201 ≤ length out.old }
    ensures is { out.new ≡ splice out.old 0 (list_words l.now) }
    ensures long { length (list_words l.now) ≡ 201 }
{
    put_each(out, &l.present);
    put_each(&mut out[VALUES..], &l.values);
    put_each(&mut out[SIZES..], &l.sizes);
    put_sets(&mut out[PURPOSE..], l);
    put_root(&mut out[ROOT..], &l.root);
}

fn put_head(out: &mut [u64], r: &Record)
    requires { 8 ≤ length out.old }
    ensures { out.new ≡ splice out.old 0 (head_words r.now) }
{
    out[0] = r.attestation.version.word();
    out[1] = r.attestation.level.word();
    out[2] = r.keymint.version.word();
    out[3] = r.keymint.level.word();
    out[4] = r.challenge.start as u64;
    out[5] = r.challenge.len as u64;
    out[6] = r.unique.start as u64;
    out[7] = r.unique.len as u64;
}

// All 410 words; what stands after them in a longer image stays.
pub(crate) fn put_words(out: &mut [u64], r: &Record)
    requires { 410 ≤ length out.old }
    ensures { out.new ≡ splice out.old 0 (image_of r.now) }
{
    put_head(out, r);
    put_list(&mut out[SOFTWARE..], &r.software);
    put_list(&mut out[HARDWARE..], &r.hardware);
}
