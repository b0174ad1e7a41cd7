// What an explicit tag holds: exactly one element of the field's kind.
ghost use Rattle.std.specs.Prelude.{◌≡◌, true, false, length};
ghost use Rattle.std.proofs.Math.Seq.{slice};
ghost use Rattle.codec.specs.Element.{exactly};
ghost use Rattle.schema.specs.Rows.{of_kind};
ghost use Rattle.schema.specs.Content.{place_at};
ghost use Rattle.schema.specs.Decode.{read_octets, read_null, read_set, read_root, as_place};
ghost use Rattle.contents.specs.Leaf.{read_number};
ghost use Rattle.contents.specs.Set.{of_members};
ghost use Rattle.contents.specs.Root.{of_trust};
ghost use Rattle.contents.specs.Content.{of_plain, PlainRead};
ghost use Rattle.contents.specs.Kept.{SetKept, RootKept, PlainIn, PlainKept};

use crate::leaf::{long_number, read_null, read_octets};
use crate::root::read_root;
use crate::set::{one_member, read_set, set_of_one};
use crate::taken::exactly;
use answer::{Refusal, Refused};
use records::{NumberSet, RootOfTrust};
use schema::Kind;

// A plain field's content: a number in value; or a part of the bytes, its start in value and its length in size; or neither, of
// a NULL. The words are those of a record's `values` and `sizes`, which its row's kind reads.
#[derive(Clone, Copy)]
pub struct Plain {
    pub value: u64,
    pub size: u64,
}

// Numbers of one octet are as quick by the long way here, and it is shorter.
fn number_content(s: &[u8], at: usize, top: u64) -> Result<Plain, Refused>
    ensures is { of_plain (λ v z. v) result ≡ exactly 9 (read_number 2 top) at (slice at (length s.now) s.now) }
    ensures bounds { PlainIn true false (length s.now) result }
{
    let value = exactly(long_number(s, at, 2, top)?, s.len())?;
    Ok(Plain { value, size: 0 })
}

fn null_content(s: &[u8], at: usize) -> Result<Plain, Refused>
    ensures is { of_plain (λ v z. tt) result ≡ exactly 9 read_null at (slice at (length s.now) s.now) }
    ensures bounds { PlainIn false false (length s.now) result }
{
    exactly(read_null(s, at)?, s.len())?;
    Ok(Plain { value: 0, size: 0 })
}

fn octets_content(s: &[u8], at: usize) -> Result<Plain, Refused>
    ensures is { of_plain place_at result ≡ exactly 9 (read_octets as_place) at (slice at (length s.now) s.now) }
    ensures bounds { PlainIn true true (length s.now) result }
{
    let part = exactly(read_octets(s, at)?, s.len())?;
    Ok(Plain {
        value: part.start as u64,
        size: part.len as u64,
    })
}

// The content of a plain field, by its kind; a set and 704 are none.
pub fn plain_content(s: &[u8], at: usize, kind: Kind) -> Result<Plain, Refused>
    ensures is { PlainRead (of_kind kind) at (slice at (length s.now) s.now) result }
    ensures bounds { PlainKept (of_kind kind) (length s.now) result }
{
    match kind {
        Kind::Number32 => number_content(s, at, 0xffff_ffff),
        Kind::Number64 => number_content(s, at, 0xffff_ffff_ffff_ffff),
        Kind::Null => null_content(s, at),
        Kind::Octets => octets_content(s, at),
        _ => Err(Refused(Refusal::WrongElement, at)),
    }
}

// A set that is all of its holder's content; most hold one small number.
pub fn set_content(s: &[u8], at: usize) -> Result<NumberSet, Refused>
    ensures is { of_members result ≡ exactly 9 read_set at (slice at (length s.now) s.now) }
    ensures slots { SetKept result }
{
    if let Some(member) = one_member(s, at) {
        return Ok(set_of_one(u32::from(member)));
    }
    exactly(read_set(s, at)?, s.len())
}

// A root of trust that is all of its holder's content.
pub fn root_content(s: &[u8], at: usize, hashed: bool) -> Result<RootOfTrust, Refused>
    ensures is { of_trust result ≡ exactly 9 (read_root as_place hashed) at (slice at (length s.now) s.now) }
    ensures bounds { RootKept (length s.now) hashed result }
{
    exactly(read_root(s, at, hashed)?, s.len())
}
