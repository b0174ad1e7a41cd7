// Field 704's content: a boot key, whether it is locked, a boot state and, where the version has one, a boot hash.
ghost use Rattle.std.specs.Prelude.{◌≡◌, ◌≤◌, length};
ghost use Rattle.std.proofs.Math.Seq.{slice};
ghost use Rattle.schema.specs.Decode.{read_root, read_hash, as_place};
ghost use Rattle.contents.specs.Root.{of_hash, of_trust, of_root, trust_from, HashInside, RootAt, RootInside};

use crate::element::{Span, open_tagged};
use crate::leaf::{read_boolean, read_number, read_octets};
use crate::taken::{Taken, exactly};
use answer::Refused;
use records::{Part, RootOfTrust};

// The hash, where there is to be one.
fn read_hash(s: &[u8], at: usize, hashed: bool) -> Result<Taken<Option<Part>>, Refused>
    requires { at ≤ length s.now }
    ensures is { of_hash s.now (length s.now) result ≡ read_hash as_place hashed at (slice at (length s.now) s.now) }
    ensures inside { HashInside (length s.now) hashed result }
{
    if !hashed {
        return Ok(Taken {
            val: None,
            next: at,
        });
    }
    let hash = read_octets(s, at)?;
    Ok(Taken {
        val: Some(hash.val),
        next: hash.next,
    })
}

// The key, whether it is locked, the state and the hash: all that is left of the holder.
fn read_trust(s: &[u8], at: usize, hashed: bool) -> Result<RootOfTrust, Refused>
    ensures is { of_trust result ≡ trust_from hashed at (slice at (length s.now) s.now) }
    ensures inside { RootAt (length s.now) hashed result }
{
    let key = read_octets(s, at)?;
    let locked = read_boolean(s, key.next)?;
    let state = read_number(s, locked.next, 10, 3)?;
    let hash = exactly(read_hash(s, state.next, hashed)?, s.len())?;
    Ok(RootOfTrust {
        key: key.val,
        hash: hash.unwrap_or(Part { start: 0, len: 0 }),
        state: state.val as u32,
        locked: locked.val,
        hashed,
    })
}

// A SEQUENCE of them; hashed says whether the version has a boot hash.
pub(crate) fn read_root(s: &[u8], at: usize, hashed: bool) -> Result<Taken<RootOfTrust>, Refused>
    ensures is { of_root s.now (length s.now) result ≡ read_root as_place hashed at (slice at (length s.now) s.now) }
    ensures inside { RootInside at (length s.now) hashed result }
{
    let Span { body, stop } = open_tagged(s, at, 1, 16)?;
    let val = read_trust(&s[..stop], body, hashed)?;
    Ok(Taken { val, next: stop })
}
