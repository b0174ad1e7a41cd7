// Whether a record is well-shaped (document 01, "KeyDescription"): what its numbers, sets and flags may be. Octet parts
// are not looked at.
#![tactic(auto)]

pub mod parts;

ghost use Rattle.std.specs.Prelude.{◌≡◌, ◌<◌, IsTrue, MatchBool};
ghost use Rattle.schema.specs.Table.{row_count};
ghost use Rattle.schema.specs.Rows.{of_kind};
ghost use Rattle.records.specs.Content.{set_of};
ghost use Rattle.records.specs.Shape.{set_shaped, root_shaped, list_shaped, head_shaped, well_shaped_record};
ghost use Rattle.shape.specs.Plain.{plain_shaped, row_plain};

use records::{FieldList, NumberSet, Record, RootOfTrust, Security};
use schema::version::{known_version, level_top};
use schema::{Kind, ROWS};

// The most members that a set holds.
const MEMBERS: usize = 16;

// At most 16 members, strictly ascending.
pub fn set_shaped(g: NumberSet) -> bool
    ensures { result ≡ set_shaped g }
{
    if MEMBERS < g.count {
        return false;
    }
    g.members[..g.count].is_sorted_by(|a, b| a < b)
}

// The state within its top, and a boot hash exactly from version 3.
fn root_shaped(version: u32, t: &RootOfTrust) -> bool
    ensures { result ≡ root_shaped version t.now }
{
    t.state <= 3 && t.hashed == (3 <= version)
}

// The set of a row, by its number, of a list's four. No list in their place: in sizes and writer lists go by value, and a
// reference to one would have it copied first, 2 KB of stack.
pub fn set_of(
    number: usize,
    purpose: NumberSet,
    digest: NumberSet,
    padding: NumberSet,
    mgf: NumberSet,
) -> NumberSet
    ensures { result ≡ set_of number purpose digest padding mgf }
{
    match number {
        1 => purpose,
        5 => digest,
        6 => padding,
        _ => mgf,
    }
}

// A present number is within its top; what has its own place in a list is looked at there.
fn plain_shaped(kind: Kind, value: u64) -> bool
    ensures { result ≡ plain_shaped (of_kind kind) value }
{
    match kind {
        Kind::Number32 => value <= 0xffff_ffff,
        Kind::Number64 => value <= 0xffff_ffff_ffff_ffff,
        _ => true,
    }
}

// What is asked where a field or a hash is present; nothing is asked of one that is absent.
fn where_present<F: FnOnce() -> bool>(present: bool, ask: F) -> bool
    requires { F.IsAlwaysCallable ask }
    ensures { MatchBool present (F.post ask result) (IsTrue result) }
{
    !present || ask()
}

// A present field is one its version holds, its number within its top.
fn row_plain(version: u32, l: &FieldList, k: usize) -> bool
    requires { k < row_count }
    ensures { result ≡ row_plain version l.now k }
{
    if !l.present[k] {
        return true;
    }
    let row = schema::row_at(k);
    schema::held(version, row) && plain_shaped(row.kind, l.values[k])
}

// The four sets and 704 have their own places; no list is copied for a row.
fn list_shaped(version: u32, l: &FieldList) -> bool
    ensures { result ≡ list_shaped version l.now }
{
    where_present(l.present[0], || set_shaped(l.purpose))
        && where_present(l.present[3], || set_shaped(l.digest))
        && where_present(l.present[4], || set_shaped(l.padding))
        && where_present(l.present[7], || set_shaped(l.mgf))
        && where_present(l.present[26], || root_shaped(version, &l.root))
        && (0..ROWS).all(|k| row_plain(version, l, k))
}

// The version one of the seven, KeyMint's version and both levels within their tops.
fn head_shaped(attestation: Security, keymint: Security) -> bool
    ensures { result ≡ head_shaped attestation.version attestation.level keymint.version keymint.level }
{
    let top = level_top(attestation.version);
    known_version(u64::from(attestation.version))
        && u64::from(attestation.level) <= top
        && u64::from(keymint.level) <= top
}

// Whether a record is well-shaped, whatever a caller set it to.
pub fn well_shaped(r: Record) -> bool
    ensures { result ≡ well_shaped_record r }
{
    let version = r.attestation.version;
    head_shaped(r.attestation, r.keymint)
        && list_shaped(version, &r.software)
        && list_shaped(version, &r.hardware)
}
