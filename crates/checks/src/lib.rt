// Each check of the use ruling, over just the tags that it reads: s of the software list, h of the hardware list. One
// that ends in `refused` or `missing` answers true where it refuses. Flags are joined by `&` and `|`, as there is nothing
// to save by not asking. s and h are no struct: it would be made anew at each call, of the rules of two lists.
#![tactic(auto)]

ghost use Rattle.std.specs.Prelude.{◌≡◌, ◌+◌, ◌*◌, ◌≤◌, Bool, leb, is_some};
ghost use Rattle.answer.specs.Answer.{pick};
ghost use Rattle.records.specs.Content.{members_of};
ghost use Rattle.checks.specs.Tags.{member, both_allow, set_allows};
ghost use Rattle.checks.specs.Checks.{known_purpose, purpose_refused, agreed, algorithm_fits, padding_fits, looks_at_padding, padding_refused, looks_at_digest, digest_fits, digest_refused, digest_bytes, key_bytes, looks_at_key_size, key_size_refused, signs, expiry, clock_refused, active_refused, expiry_refused, auth_missing, token_refused, recent, fresh_refused, null_refused, uses_refused};
ghost use Rattle.checks.specs.Code.{of_tag, of_number_tag, of_set_tag, agreed_on, or_zero};

use records::NumberSet;

// Purposes. They, the algorithms, paddings and digests stay numbers: a caller may ask of any (known_purpose and
// algorithm_fits answer for those that are none), and an enum in their place would ask more of callers.
const DECRYPT: u64 = 1;

const SIGN: u64 = 2;

const AGREE_KEY: u64 = 6;

const ATTEST_KEY: u64 = 7;

// Algorithms.
const RSA: u64 = 1;

const EC: u64 = 3;

// "A tag in either list applies; in both, both must allow": an absent one does.
fn both_allow<T: Copy, F: Fn(T) -> bool>(s: Option<T>, h: Option<T>, allows: F) -> bool
    requires { F.IsAlwaysCallable allows }
    ensures { (f : T → Bool) → ((x : T) (b : Bool) → F.post allows x b → b ≡ f x) → result ≡ both_allow f (of_tag s) (of_tag h) }
{
    s.is_none_or(&allows) & h.is_none_or(&allows)
}

// Whether n is a member, as far as count and slots go.
fn holds(g: NumberSet, n: u64) -> bool
    ensures { result ≡ member n (members_of g) }
{
    g.members.iter().take(g.count).any(|m| u64::from(*m) == n)
}

// "A set tag must be in at least one list", and n in each that has it.
fn sets_allow(n: u64, s: Option<NumberSet>, h: Option<NumberSet>) -> bool
    ensures { result ≡ set_allows n (of_set_tag s) (of_set_tag h) }
{
    (s.is_some() | h.is_some()) & both_allow(s, h, |g| holds(g, n))
}

// 30: whether the purpose is one of the four.
#[tactic(auto, using(crate::proofs::Tags::tests), unfolding(crate::specs::Checks::known_purpose))]
pub fn known_purpose(p: u64) -> bool
    ensures { result ≡ known_purpose p }
{
    matches!(p, DECRYPT | SIGN | AGREE_KEY | ATTEST_KEY)
}

// 31: the purpose isn't allowed.
#[tactic(auto, unfolding(crate::specs::Checks::purpose_refused))]
pub fn purpose_refused(p: u64, s: Option<NumberSet>, h: Option<NumberSet>) -> bool
    ensures { result ≡ purpose_refused p (of_set_tag s) (of_set_tag h) }
{
    !sets_allow(p, s, h)
}

// The algorithm; none where it is absent or the lists disagree. As a number that is 0, which no key has.
#[tactic(auto, using(crate::proofs::Tags::tests), unfolding(crate::specs::Checks::agreed, crate::specs::Code::agreed_on, crate::specs::Code::or_zero, answer::specs::Answer::pick))]
pub fn agreed(s: Option<u64>, h: Option<u64>) -> Option<u64>
    ensures value { of_number_tag result ≡ agreed_on (of_number_tag s) (of_number_tag h) }
    ensures number { or_zero (of_number_tag result) ≡ agreed (of_number_tag s) (of_number_tag h) }
{
    match (s, h) {
        (Some(a), Some(b)) => (a == b).then_some(a),
        (one, None) => one,
        (None, one) => one,
    }
}

// 32: whether the algorithm goes with the purpose.
#[tactic(auto, using(crate::proofs::Tags::tests), unfolding(crate::specs::Checks::algorithm_fits))]
pub fn algorithm_fits(p: u64, a: u64) -> bool
    ensures { result ≡ algorithm_fits p a }
{
    match a {
        RSA => matches!(p, DECRYPT | SIGN | ATTEST_KEY),
        EC => matches!(p, SIGN | AGREE_KEY | ATTEST_KEY),
        _ => false,
    }
}

// Whether padding m goes with purpose p, DECRYPT or SIGN, and algorithm a.
#[tactic(auto, using(crate::proofs::Tags::tests), unfolding(crate::specs::Checks::padding_fits, answer::specs::Answer::pick))]
fn padding_fits(p: u64, a: u64, m: u64) -> bool
    ensures { result ≡ padding_fits p a m }
{
    match (p, a) {
        (DECRYPT, _) => matches!(m, 1 | 2 | 4),
        (_, RSA) => matches!(m, 1 | 3 | 5),
        _ => m == 1,
    }
}

pub fn looks_at_padding(p: u64) -> bool
    ensures { result ≡ looks_at_padding p }
{
    matches!(p, DECRYPT | SIGN)
}

// 33: by shape and by the sets.
#[tactic(auto, unfolding(crate::specs::Checks::padding_refused))]
pub fn padding_refused(p: u64, a: u64, m: u64, s: Option<NumberSet>, h: Option<NumberSet>) -> bool
    ensures { result ≡ padding_refused p a m (of_set_tag s) (of_set_tag h) }
{
    looks_at_padding(p) & !(padding_fits(p, a, m) & sets_allow(m, s, h))
}

// Padding 2 is the only one of DECRYPT that names a digest.
#[tactic(auto, using(crate::proofs::Tags::tests), unfolding(crate::specs::Checks::looks_at_digest))]
pub fn looks_at_digest(p: u64, m: u64) -> bool
    ensures { result ≡ looks_at_digest p m }
{
    matches!((p, m), (SIGN, _) | (DECRYPT, 2))
}

// Whether digest d goes with algorithm a and padding m.
#[tactic(auto, using(crate::proofs::Tags::tests), unfolding(crate::specs::Checks::digest_fits, answer::specs::Answer::pick))]
fn digest_fits(a: u64, m: u64, d: u64) -> bool
    ensures { result ≡ digest_fits a m d }
{
    match (a, m) {
        (EC, _) => d <= 6,
        (_, 1) => d == 0,
        (_, 5) => d <= 6,
        _ => (1 <= d) & (d <= 6),
    }
}

// 34: by shape and by the sets.
#[tactic(auto, unfolding(crate::specs::Checks::digest_refused))]
pub fn digest_refused(
    p: u64,
    a: u64,
    m: u64,
    d: u64,
    s: Option<NumberSet>,
    h: Option<NumberSet>,
) -> bool
    ensures { result ≡ digest_refused p a m d (of_set_tag s) (of_set_tag h) }
{
    looks_at_digest(p, m) & !(digest_fits(a, m, d) & sets_allow(d, s, h))
}

// The octets of a digest.
#[tactic(auto, using(crate::proofs::Tags::tests), unfolding(crate::specs::Checks::digest_bytes, answer::specs::Answer::pick))]
fn digest_bytes(d: u64) -> u64
    ensures is { result ≡ digest_bytes d }
    ensures few { result ≤ 64 }
{
    match d {
        1 => 16,
        2 => 20,
        3 => 28,
        4 => 32,
        5 => 48,
        _ => 64,
    }
}

pub fn looks_at_key_size(p: u64, a: u64, m: u64) -> bool
    ensures { result ≡ looks_at_key_size p a m }
{
    (p == SIGN) & ((a == RSA) & (m == 3))
}

// 35: absent from both lists, or too small in one that has it. A key of so many bits has 2D+2 octets: one bit more than 2D+1
// whole octets is enough.
pub fn key_size_refused(p: u64, a: u64, m: u64, d: u64, s: Option<u64>, h: Option<u64>) -> bool
    ensures { result ≡ key_size_refused p a m d (of_number_tag s) (of_number_tag h) }
{
    let whole = 8 * (2 * digest_bytes(d) + 1);
    looks_at_key_size(p, a, m)
        & !((s.is_some() | h.is_some()) & both_allow(s, h, |bits| whole < bits))
}

#[tactic(auto, using(crate::proofs::Tags::tests), unfolding(crate::specs::Checks::signs))]
pub fn signs(p: u64) -> bool
    ensures { result ≡ signs p }
{
    matches!(p, SIGN | ATTEST_KEY)
}

// The expiry date that applies: 401 to SIGN and ATTEST_KEY, else 402.
#[tactic(auto, unfolding(answer::specs::Answer::pick))]
pub fn expiry(p: u64, origination: Option<u64>, usage: Option<u64>) -> Option<u64>
    ensures is { of_number_tag result ≡ expiry p (of_number_tag origination) (of_number_tag usage) }
    ensures whole { result ≡ pick (signs p) origination usage }
{
    if signs(p) { origination } else { usage }
}

// 36: a date tag applies and the clock is below its floor; a is 400 and e the expiry date that applies.
#[tactic(auto, using(crate::proofs::Tags::known), unfolding(crate::specs::Checks::clock_refused))]
pub fn clock_refused(
    clock: u64,
    floor: u64,
    sa: Option<u64>,
    ha: Option<u64>,
    se: Option<u64>,
    he: Option<u64>,
) -> bool
    ensures { result ≡ clock_refused clock floor (of_number_tag sa) (of_number_tag ha) (of_number_tag se) (of_number_tag he) }
{
    (clock < floor) & ((sa.is_some() | ha.is_some()) | (se.is_some() | he.is_some()))
}

// 37: before 400. Equality is allowed.
pub fn active_refused(clock: u64, s: Option<u64>, h: Option<u64>) -> bool
    ensures { result ≡ active_refused clock (of_number_tag s) (of_number_tag h) }
{
    !both_allow(s, h, |active| active <= clock)
}

// 38: after the expiry date that applies. Equality is allowed.
pub fn expiry_refused(clock: u64, s: Option<u64>, h: Option<u64>) -> bool
    ensures { result ≡ expiry_refused clock (of_number_tag s) (of_number_tag h) }
{
    !both_allow(s, h, |date| clock <= date)
}

// 39: neither 503 nor 504; n is 503, s and h are 504.
#[tactic(auto, using(crate::proofs::Tags::known), unfolding(crate::specs::Checks::auth_missing))]
pub fn auth_missing(ns: bool, nh: bool, s: Option<u64>, h: Option<u64>) -> bool
    ensures { result ≡ auth_missing ns nh (of_number_tag s) (of_number_tag h) }
{
    !((ns | nh) | (s.is_some() | h.is_some()))
}

// 40: no token, or one whose type shares no bit with a 504; kinds is the token's type, if there is one.
pub fn token_refused(kinds: Option<u64>, s: Option<u64>, h: Option<u64>) -> bool
    ensures { result ≡ token_refused (is_some kinds) (or_zero (of_number_tag kinds)) (of_number_tag s) (of_number_tag h) }
{
    // No token has no type, and shares no bit.
    let kinds = kinds.unwrap_or(0);
    !both_allow(s, h, |wanted| kinds & wanted != 0)
}

// Whether a token of this time is at most so many seconds old. The seconds are compared, as 1000 times them could wrap.
fn recent(uptime: u64, time: u64, seconds: u64) -> bool
    ensures { result ≡ recent uptime time seconds }
{
    uptime
        .checked_sub(time)
        .is_some_and(|age| age.div_ceil(1000) <= seconds)
}

// 41: a token that is not fresh, or for another operation; a is 504 and t is 505.
pub fn fresh_refused(
    uptime: u64,
    time: u64,
    handle: u64,
    challenge: u64,
    sa: Option<u64>,
    ha: Option<u64>,
    st: Option<u64>,
    ht: Option<u64>,
) -> bool
    ensures { result ≡ fresh_refused uptime time handle challenge (of_number_tag sa) (of_number_tag ha) (of_number_tag st) (of_number_tag ht) }
{
    if !(sa.is_some() | ha.is_some()) {
        return false;
    }
    if st.is_some() | ht.is_some() {
        return !both_allow(st, ht, |seconds| recent(uptime, time, seconds));
    }
    challenge != handle
}

// 42 to 45: a NULL tag of either list, and what it forbids.
pub fn null_refused(s: bool, h: bool, forbidden: bool) -> bool
    ensures { result ≡ null_refused s h forbidden }
{
    (s | h) & forbidden
}

// 46: the uses so far have reached 405.
pub fn uses_refused(uses: u64, s: Option<u64>, h: Option<u64>) -> bool
    ensures { result ≡ uses_refused uses (of_number_tag s) (of_number_tag h) }
{
    !both_allow(s, h, |limit| uses < limit)
}
