// A SET OF INTEGER: at most 16 members, strictly ascending.
ghost use Rattle.std.specs.Prelude.{◌≡◌, ◌≤◌, length};
ghost use Rattle.std.proofs.Math.Seq.{slice};
ghost use Rattle.schema.specs.Decode.{read_set};
ghost use Rattle.contents.specs.Taken.{TakenInside};
ghost use Rattle.contents.specs.Set.{of_members, of_set, members_from, OneMember, set_of_one};
ghost use Rattle.records.specs.Empty.{empty_set};
ghost use Rattle.contents.specs.Kept.{SetKept, SetTakenKept};

use crate::element::{Span, open_tagged};
use crate::leaf::read_number;
use crate::taken::Taken;
use answer::{Refusal, Refused};
use records::NumberSet;

pub fn empty_set() -> NumberSet
    ensures { result ≡ empty_set }
{
    NumberSet {
        members: [0; 16],
        count: 0,
    }
}

// The members from at to the holder's end: "A member: 14, 9, 10, 13". The place moves by what a member
// takes, and n is the count that the set ends with, so no range has them.
fn read_members(s: &[u8], at: usize) -> Result<NumberSet, Refused>
    requires { at ≤ length s.now }
    ensures is { of_members result ≡ members_from at (slice at (length s.now) s.now) }
    ensures slots { SetKept result }
{
    let mut set = empty_set();
    let mut place = at;
    let mut low: u64 = 0;
    let mut n: usize = 0;
    while place < s.len() {
        if 16 <= n {
            return Err(Refused(Refusal::TooManyMembers, place));
        }
        let Taken { val, next } = read_number(s, place, 2, 0xffff_ffff)?;
        if val < low {
            return Err(Refused(Refusal::MemberOrder, place));
        }
        set.members[n] = val as u32;
        low = val + 1;
        n += 1;
        place = next;
    }
    set.count = n;
    Ok(set)
}

// A SET OF INTEGER.
pub(crate) fn read_set(s: &[u8], at: usize) -> Result<Taken<NumberSet>, Refused>
    ensures is { of_set s.now (length s.now) result ≡ read_set at (slice at (length s.now) s.now) }
    ensures inside { TakenInside at (length s.now) result }
    ensures slots { SetTakenKept result }
{
    let Span { body, stop } = open_tagged(s, at, 1, 17)?;
    let val = read_members(&s[..stop], body)?;
    Ok(Taken { val, next: stop })
}

// The member of a set of one number below 128, where that is all that stands from at to the holder's end. Its octets are tested
// by their places, of which `OneMember` speaks.
pub(crate) fn one_member(s: &[u8], at: usize) -> Option<u8>
    ensures { OneMember s.now at (length s.now) result }
{
    let end = s.len();
    if end < at || end - at != 5 {
        return None;
    }
    if s[at] != 49 || s[at + 1] != 3 || s[at + 2] != 2 || s[at + 3] != 1 {
        return None;
    }
    let member = s[at + 4];
    if 128 <= member {
        return None;
    }
    Some(member)
}

pub(crate) fn set_of_one(member: u32) -> NumberSet
    ensures { result ≡ set_of_one member }
{
    NumberSet {
        members: [member, 0, 0, 0, 0, 0, 0, 0, 0, 0, 0, 0, 0, 0, 0, 0],
        count: 1,
    }
}
