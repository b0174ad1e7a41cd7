// The record of an image's words, whatever they are.
ghost use Rattle.std.specs.Prelude.{◌≡◌, ◌+◌, ◌≤◌, length};
ghost use Rattle.image.specs.Image.{low, part_from, security_from, set_from, root_from_words, list_from, record_of};

use crate::layout::{
    COUNT, DIGEST, HARDWARE, MGF, PADDING, PURPOSE, ROOT, SIZES, SOFTWARE, VALUES,
};
use records::{FieldList, NumberSet, Part, Record, RootOfTrust, Security};
use std::array;

// The low 32 bits of a word.
fn low(word: u64) -> u32
    ensures { result ≡ low word }
{
    (word % 0x1_0000_0000) as u32
}

fn set_from(words: &[u64]) -> NumberSet
    requires { 17 ≤ length words.now }
    ensures { result ≡ set_from words.now }
{
    NumberSet {
        members: array::from_fn(|k| low(words[k])),
        count: words[COUNT] as usize,
    }
}

fn part_from(words: &[u64], at: usize) -> Part
    requires { at + 2 ≤ length words.now }
    ensures { result ≡ part_from words.now at }
{
    Part {
        start: words[at] as usize,
        len: words[at + 1] as usize,
    }
}

fn root_from(words: &[u64]) -> RootOfTrust
    requires { 7 ≤ length words.now }
    ensures { result ≡ root_from_words words.now }
{
    RootOfTrust {
        key: part_from(words, 0),
        locked: words[2] == 1,
        state: low(words[3]),
        hashed: words[4] == 1,
        hash: part_from(words, 5),
    }
}

fn list_from(words: &[u64]) -> FieldList
    requires { 201 ≤ length words.now }
    ensures { result ≡ list_from words.now }
{
    FieldList {
        present: array::from_fn(|k| words[k] == 1),
        values: array::from_fn(|k| words[VALUES + k]),
        sizes: array::from_fn(|k| words[SIZES + k]),
        purpose: set_from(&words[PURPOSE..]),
        digest: set_from(&words[DIGEST..]),
        padding: set_from(&words[PADDING..]),
        mgf: set_from(&words[MGF..]),
        root: root_from(&words[ROOT..]),
    }
}

fn security_from(words: &[u64], at: usize) -> Security
    requires { at + 2 ≤ length words.now }
    ensures { result ≡ security_from words.now at }
{
    Security {
        version: low(words[at]),
        level: low(words[at + 1]),
    }
}

// The record whose words they are, a word that must hold 32 bits by its low 32 bits.
pub(crate) fn record_from(image: &[u64]) -> Record
    requires { 410 ≤ length image.now }
    ensures { result ≡ record_of image.now }
{
    Record {
        attestation: security_from(image, 0),
        keymint: security_from(image, 2),
        challenge: part_from(image, 4),
        unique: part_from(image, 6),
        software: list_from(&image[SOFTWARE..]),
        hardware: list_from(&image[HARDWARE..]),
    }
}
