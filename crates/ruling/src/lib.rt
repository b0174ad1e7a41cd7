// The use ruling (document 01, "The use ruling"): whether a key may be put to a use, by the rules of both its lists.
#![tactic(auto)]

mod marks;
mod order;
pub mod request;
mod rules;

ghost use Rattle.std.specs.Prelude.{◌≡◌};
ghost use Rattle.ruling.specs.Ruling.{ruled, ruling, looked_at};
ghost use Rattle.ruling.specs.Code.{of_rules, of_ruling};

use answer::{Refusal, Refused};
use order::Case;
use records::Record;
use request::Request;

// A permit's marks and how many bits are set in each.
#[derive(Clone, Copy, Debug, PartialEq, Eq)]
pub struct Permit {
    pub hardware: u16,
    pub hardware_bits: u32,
    pub software: u16,
    pub software_bits: u32,
}

// Which of the sixteen tags are looked at.
#[tactic(auto, using(checks::proofs::Tags::known))]
fn looked_at(case: &Case) -> [bool; 16]
    ensures { result ≡ looked_at (of_rules case.now.software) (of_rules case.now.hardware) case.now.request }
{
    let s = &case.software;
    let h = &case.hardware;
    let q = &case.request;
    let auth = s.auth_type.is_some() | h.auth_type.is_some();
    let algorithm = checks::agreed(s.algorithm, h.algorithm);
    marks::looked(q.purpose, algorithm, q.padding, auth)
}

// The ruling by the rules of both lists: the first refusal, or a permit with its marks. The two levels go as the definitions have
// them, here and in `permit`: a struct of two numbers would be made once and taken apart at once.
fn ruled(level: u32, keymint_level: u32, case: &Case) -> Result<Permit, Refused>
    ensures { of_ruling result ≡ ruled level keymint_level (of_rules case.now.software) (of_rules case.now.hardware) case.now.request }
{
    case.first_refusal()?;
    let asked = looked_at(case);
    let hardware = marks::mark_of(marks::held_tags(&case.hardware), asked);
    let software = marks::mark_of(marks::held_tags(&case.software), asked);
    Ok(marks::permit(level, keymint_level, hardware, software))
}

// Whether, and by which rules, a key of this record may be put to this use; a record that is not well-shaped gives 20. A
// refusal's place is 0.
pub fn rule(r: Record, q: Request) -> Result<Permit, Refused>
    ensures { of_ruling result ≡ ruling r q }
{
    if !shape::well_shaped(r) {
        return Err(Refused(Refusal::IllShaped, 0));
    }
    let case = Case {
        software: rules::rules_of(&r.software),
        hardware: rules::rules_of(&r.hardware),
        request: q,
    };
    ruled(r.attestation.level, r.keymint.level, &case)
}
