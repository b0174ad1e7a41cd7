// Octet parts and the buffer that they lie in. No sum is made that could wrap.
ghost use Rattle.std.specs.Prelude.{◌≡◌, ◌<◌};
ghost use Rattle.schema.specs.Table.{row_count};
ghost use Rattle.schema.specs.Rows.{of_kind};
ghost use Rattle.records.specs.Parts.{inside, part_inside, root_inside, content_inside, row_inside, list_inside, parts_inside};

use crate::where_present;
use records::{FieldList, Part, Record, RootOfTrust};
use schema::{Kind, ROWS};

// Whether size octets from start on lie within len, over true integers.
pub fn inside(start: u64, size: u64, len: usize) -> bool
    ensures { result ≡ inside start size len }
{
    let end = len as u64;
    start <= end && size <= end - start
}

pub fn part_inside(p: Part, len: usize) -> bool
    ensures { result ≡ part_inside p len }
{
    inside(p.start as u64, p.len as u64, len)
}

// The boot key, and the boot hash where there is one.
fn root_inside(t: &RootOfTrust, len: usize) -> bool
    ensures { result ≡ root_inside t.now len }
{
    part_inside(t.key, len) && where_present(t.hashed, || part_inside(t.hash, len))
}

// The parts of a present field of this kind.
fn content_inside(kind: Kind, start: u64, size: u64, t: &RootOfTrust, len: usize) -> bool
    ensures { result ≡ content_inside (of_kind kind) start size t.now len }
{
    match kind {
        Kind::Octets => inside(start, size, len),
        Kind::Root => root_inside(t, len),
        Kind::Set | Kind::Number32 | Kind::Number64 | Kind::Null => true,
    }
}

// The parts of a row's field, where it is present.
fn row_inside(l: &FieldList, k: usize, len: usize) -> bool
    requires { k < row_count }
    ensures { result ≡ row_inside l.now len k }
{
    !l.present[k]
        || content_inside(
            schema::row_at(k).kind,
            l.values[k],
            l.sizes[k],
            &l.root,
            len,
        )
}

fn list_inside(l: &FieldList, len: usize) -> bool
    ensures { result ≡ list_inside l.now len }
{
    (0..ROWS).all(|k| row_inside(l, k, len))
}

// Whether every octet part of a record lies within len bytes; an absent field's and an absent boot hash's are not
// looked at.
pub fn parts_inside(r: Record, len: usize) -> bool
    ensures { result ≡ parts_inside r len }
{
    part_inside(r.challenge, len)
        && part_inside(r.unique, len)
        && list_inside(&r.software, len)
        && list_inside(&r.hardware, len)
}
