// The first six of a KeyDescription's eight: two versions with their security levels, and two OCTET STRINGs.
ghost use Rattle.std.specs.Prelude.{◌≡◌, ◌≤◌, length};
ghost use Rattle.std.proofs.Math.Seq.{slice};
ghost use Rattle.schema.specs.Decode.{read_version};
ghost use Rattle.contents.specs.Taken.{TakenInside};
ghost use Rattle.contents.specs.Leaf.{of_number};
ghost use Rattle.contents.specs.Head.{level_after, read_attestation, read_keymint, read_names, read_head, of_secured, of_names, of_head, VersionInside, LevelInside, AttestationInside, NamesInside, HeadInside};

use crate::leaf::{read_number, read_octets};
use crate::taken::Taken;
use answer::{Refusal, Refused};
use records::{Part, Security};
use schema::version::{known_version, level_top};

// The challenge and the unique id.
#[derive(Clone, Copy)]
pub(crate) struct Names {
    pub(crate) challenge: Part,
    pub(crate) unique: Part,
}

// All six.
#[derive(Clone, Copy)]
pub struct Head {
    pub attestation: Security,
    pub keymint: Security,
    pub challenge: Part,
    pub unique: Part,
}

// The attestation's version.
pub(crate) fn read_version(s: &[u8], at: usize) -> Result<Taken<u64>, Refused>
    ensures is { of_number s.now (length s.now) result ≡ read_version at (slice at (length s.now) s.now) }
    ensures inside { VersionInside at (length s.now) result }
{
    let version = read_number(s, at, 2, 0xffff_ffff)?;
    if !known_version(version.val) {
        return Err(Refused(Refusal::UnknownVersion, at));
    }
    Ok(version)
}

// A security level, after the version that it goes with.
fn read_level(s: &[u8], at: usize, version: u32, top: u64) -> Result<Taken<Security>, Refused>
    requires { top ≤ 2 }
    ensures is { of_secured s.now (length s.now) result ≡ level_after version top at (slice at (length s.now) s.now) }
    ensures inside { LevelInside at (length s.now) version result }
{
    let level = read_number(s, at, 10, top)?;
    Ok(Taken {
        val: Security {
            version,
            level: level.val as u32,
        },
        next: level.next,
    })
}

// The attestation's version and level.
pub(crate) fn read_attestation(s: &[u8], at: usize) -> Result<Taken<Security>, Refused>
    ensures is { of_secured s.now (length s.now) result ≡ read_attestation at (slice at (length s.now) s.now) }
    ensures inside { AttestationInside at (length s.now) result }
{
    let read = read_version(s, at)?;
    let version = read.val as u32;
    read_level(s, read.next, version, level_top(version))
}

// KeyMint's version and level, the level as the attestation's version has it.
pub(crate) fn read_keymint(s: &[u8], at: usize, version: u32) -> Result<Taken<Security>, Refused>
    ensures is { of_secured s.now (length s.now) result ≡ read_keymint version at (slice at (length s.now) s.now) }
    ensures inside { TakenInside at (length s.now) result }
{
    let read = read_number(s, at, 2, 0xffff_ffff)?;
    read_level(s, read.next, read.val as u32, level_top(version))
}

// The challenge and the unique id.
pub(crate) fn read_names(s: &[u8], at: usize) -> Result<Taken<Names>, Refused>
    ensures is { of_names s.now (length s.now) result ≡ read_names at (slice at (length s.now) s.now) }
    ensures inside { NamesInside at (length s.now) result }
{
    let challenge = read_octets(s, at)?;
    let unique = read_octets(s, challenge.next)?;
    Ok(Taken {
        val: Names {
            challenge: challenge.val,
            unique: unique.val,
        },
        next: unique.next,
    })
}

// The first six of the eight.
pub fn read_head(s: &[u8], at: usize) -> Result<Taken<Head>, Refused>
    ensures is { of_head s.now (length s.now) result ≡ read_head at (slice at (length s.now) s.now) }
    ensures inside { HeadInside at (length s.now) result }
{
    let attestation = read_attestation(s, at)?;
    let keymint = read_keymint(s, attestation.next, attestation.val.version)?;
    let names = read_names(s, keymint.next)?;
    Ok(Taken {
        val: Head {
            attestation: attestation.val,
            keymint: keymint.val,
            challenge: names.val.challenge,
            unique: names.val.unique,
        },
        next: names.next,
    })
}
