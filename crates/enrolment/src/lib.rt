// The enrolment ruling (document 01, "The enrolment ruling"): whether a key may be taken on, by its challenge, its security
// levels and what the hardware says of the device.
#![tactic(auto)]

ghost use Rattle.std.specs.Prelude.{◌≡◌};
ghost use Rattle.schema.specs.Content.{place_at};
ghost use Rattle.records.specs.Content.{fields_of};
ghost use Rattle.enrolment.specs.Enrolled.{challenge_met, generated, judged, enrolled, of_enrolment};

use answer::{Refusal, Refused};
use octet_fields::part_octets;
use records::{FieldList, Record};
use shape::parts::parts_inside;
use shape::well_shaped;

// The bytes of a challenge, at most.
const CHALLENGE_MAX: usize = 128;

// 1 to 128 bytes, and the same as those attested.
#[tactic(auto, using(crate::proofs::Answers::lengths), unfolding(crate::specs::Enrolled::challenge_met))]
fn challenge_met(expected: &[u8], challenge: &[u8]) -> bool
    ensures { result ≡ challenge_met expected.now challenge.now }
{
    match expected.len() {
        1..=CHALLENGE_MAX => expected == challenge,
        _ => false,
    }
}

// The rows of these fields in the schema's table, with their numbers.
const ROW_ORIGIN: usize = 24; // 702

const ROW_ROOT_OF_TRUST: usize = 26; // 704

// A security level, a boot state and an origin. They stay numbers, since a record may hold any (records::Record).
const SOFTWARE: u32 = 0;

const VERIFIED: u32 = 0;

const GENERATED: u64 = 0;

// Origin in the hardware list, and 0: the key was made in the device.
fn generated(hardware: &FieldList) -> bool
    ensures { result ≡ generated (fields_of hardware.now place_at) }
{
    hardware.present[ROW_ORIGIN] & (hardware.values[ROW_ORIGIN] == GENERATED)
}

// 50 to 55, in order. The software list is not asked for, so that no record goes here, but what the order looks at.
fn judge(level: u32, keymint_level: u32, hardware: &FieldList, met: bool) -> Result<(), Refused>
    ensures { of_enrolment result ≡ judged level keymint_level (fields_of hardware.now place_at) met }
{
    if !met {
        return Err(Refused(Refusal::ChallengeDiffers, 0));
    }
    if (level == SOFTWARE) | (keymint_level == SOFTWARE) {
        return Err(Refused(Refusal::SoftwareLevel, 0));
    }
    if !hardware.present[ROW_ROOT_OF_TRUST] {
        return Err(Refused(Refusal::NoRootOfTrust, 0));
    }
    if !hardware.root.locked {
        return Err(Refused(Refusal::BootUnlocked, 0));
    }
    if hardware.root.state != VERIFIED {
        return Err(Refused(Refusal::BootNotVerified, 0));
    }
    if !generated(hardware) {
        return Err(Refused(Refusal::OriginNotGenerated, 0));
    }
    Ok(())
}

// Rules on taking on the key of a record whose octet parts lie in s, where the challenge that was asked for is expected.
// Any record, buffer and challenge get an answer: the key may be taken on, or the first refusal, with place 0.
pub fn enrol(r: Record, s: &[u8], expected: &[u8]) -> Result<(), Refused>
    ensures { of_enrolment result ≡ enrolled r s.now expected.now }
{
    if !well_shaped(r) {
        return Err(Refused(Refusal::IllShaped, 0));
    }
    if !parts_inside(r, s.len()) {
        return Err(Refused(Refusal::IllShaped, 0));
    }
    let met = challenge_met(expected, part_octets(s, r.challenge));
    judge(r.attestation.level, r.keymint.level, &r.hardware, met)
}
