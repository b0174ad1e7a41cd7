// The marks of a permit: which of sixteen tags a list holds and the ruling looked at, a bit each.
ghost use Rattle.std.specs.Prelude.{◌≡◌, ◌+◌, ◌*◌, ◌<◌, ◌^◌};
ghost use Rattle.ruling.specs.Ruling.{bit, held_tags, looked, mark_of, permit, permit_of};
ghost use Rattle.checks.specs.Code.{of_number_tag, or_zero};
ghost use Rattle.ruling.specs.Code.{of_rules, of_permit};

use crate::Permit;
use crate::rules::Rules;
use checks::{looks_at_digest, looks_at_key_size, looks_at_padding, signs};

// Which of the tags a list holds, bit 0's first.
#[tactic(auto, using(checks::proofs::Tags::known), unfolding(crate::specs::Ruling::held_tags))]
pub(crate) fn held_tags(l: &Rules) -> [bool; 16]
    ensures { result ≡ held_tags (of_rules l.now) }
{
    [
        l.purpose.is_some(),
        l.algorithm.is_some(),
        l.padding.is_some(),
        l.digest.is_some(),
        l.key_size.is_some(),
        l.active.is_some(),
        l.origination.is_some(),
        l.usage.is_some(),
        l.auth_type.is_some(),
        l.auth_timeout.is_some(),
        l.unlocked,
        l.presence,
        l.confirmation,
        l.early_boot,
        l.use_limit.is_some(),
        l.no_auth,
    ]
}

// Which of them were looked at, by the purpose, the algorithm, the padding, and whether either list has 504.
pub(crate) fn looked(p: u64, a: Option<u64>, m: u64, auth: bool) -> [bool; 16]
    ensures { result ≡ looked p (or_zero (of_number_tag a)) m auth }
{
    let padding = looks_at_padding(p);
    let digest = looks_at_digest(p, m);
    let key_size = a.is_some_and(|a| looks_at_key_size(p, a, m));
    let signed = signs(p);
    [
        true, true, padding, digest, key_size, true, signed, !signed, true, auth, true, true, true,
        true, true, !auth,
    ]
}

// A lower bit below those of a mark.
fn joined(mark: u16, lower: bool) -> u16
    requires { mark < 2 ^ 15 }
    ensures { result ≡ bit lower + 2 * mark }
{
    mark << 1 | u16::from(lower)
}

// "A bit is set exactly when that list holds the tag and it was looked at". Two arrays and not one of pairs, since
// HardwareExactly and SoftwareExactly speak of each alone.
pub(crate) fn mark_of(tags: [bool; 16], asked: [bool; 16]) -> u16
    ensures { result ≡ mark_of tags asked }
{
    let mut mark: u16 = 0;
    for i in (0..16).rev() {
        mark = joined(mark, tags[i] & asked[i]);
    }
    mark
}

// A permit of two marks, its bits counted.
#[tactic(auto, unfolding(crate::specs::Ruling::permit))]
fn counted(hardware: u16, software: u16) -> Permit
    ensures { of_permit result ≡ permit hardware software }
{
    Permit {
        hardware,
        hardware_bits: hardware.count_ones(),
        software,
        software_bits: software.count_ones(),
    }
}

// The security level Software. A level stays a number, since a record may hold any (records::Record).
const SOFTWARE: u32 = 0;

// "If either level is Software, the hardware bits join the software mark and the hardware mark is 0".
#[tactic(auto, unfolding(crate::specs::Ruling::permit_of, answer::specs::Answer::pick))]
pub(crate) fn permit(level: u32, keymint_level: u32, hardware: u16, software: u16) -> Permit
    ensures { of_permit result ≡ permit_of level keymint_level hardware software }
{
    if (level == SOFTWARE) | (keymint_level == SOFTWARE) {
        return counted(0, hardware | software);
    }
    counted(hardware, software)
}
