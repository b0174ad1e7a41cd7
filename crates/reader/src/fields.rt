// One list of fields: explicit tags in strictly ascending number, each one that the version holds.
ghost use Rattle.std.specs.Prelude.{◌≡◌, true, ℕ, ◌<◌, ◌≤◌, length};
ghost use Rattle.std.proofs.Math.Seq.{slice};
ghost use Rattle.schema.specs.Table.{row_count, row_at, set, root};
ghost use Rattle.schema.specs.Rows.{of_kind};
ghost use Rattle.contents.specs.Content.{is_plain};
ghost use Rattle.contents.specs.Element.{opened, of_element, ElementInside};
ghost use Rattle.reader.specs.Fields.{FieldOpened};
ghost use Rattle.reader.specs.Lists.{with_set, with_row, StoredAs, FieldsRead, ListRead};
ghost use Rattle.records.specs.Empty.{empty_root, empty_list};

use crate::field::FieldHead;
use answer::{Refusal, Refused};
use contents::content::{plain_content, root_content, set_content};
use contents::element::{Element, Span, open_tagged};
use contents::set::empty_set;
use der::header::{Header, quick_header};
use records::{FieldList, NumberSet, Part, RootOfTrust};
use schema::{Kind, ROWS, held, row_at, row_of};

// The next element of a list, which is to be an explicit tag; where no octet is left, one is missing. contents has the same
// with the plain look at the header, which is slower for fields and quicker for all else. One for both would take the look as a
// closure, with a contract of what it answers: no plainer than these lines.
fn open_explicit(s: &[u8], at: usize) -> Result<Element, Refused>
    ensures is { of_element s.now (length s.now) result ≡ opened at (slice at (length s.now) s.now) }
    ensures inside { ElementInside at (length s.now) result }
{
    if s.len() <= at {
        return Err(Refused(Refusal::WrongElement, at));
    }
    let Header {
        form,
        number,
        size,
        body,
    } = quick_header(s, at)?;
    Ok(Element {
        form,
        number,
        body,
        stop: body + size,
    })
}

// "A field: 9 for its class or form, 11, 12": up to its content.
fn open_field(s: &[u8], at: usize, version: u32, low: usize) -> Result<FieldHead, Refused>
    ensures { FieldOpened s.now at (length s.now) version low result }
{
    let Element {
        form,
        number,
        body,
        stop,
    } = open_explicit(s, at)?;
    if form != 5 {
        return Err(Refused(Refusal::WrongElement, at));
    }
    let Some(row) = row_of(number) else {
        return Err(Refused(Refusal::NotInVersion, at));
    };
    if held(version, row_at(row)) {
        if number < low {
            return Err(Refused(Refusal::FieldOrder, at));
        }
        return Ok(FieldHead {
            row,
            number,
            body,
            stop,
        });
    }
    Err(Refused(Refusal::NotInVersion, at))
}

fn empty_root() -> RootOfTrust
    ensures { result ≡ empty_root }
{
    let none = Part { start: 0, len: 0 };
    RootOfTrust {
        key: none,
        hash: none,
        state: 0,
        locked: false,
        hashed: false,
    }
}

pub(crate) fn empty_list() -> FieldList
    ensures { result ≡ empty_list }
{
    let none = empty_set();
    FieldList {
        present: [false; ROWS],
        values: [0; ROWS],
        sizes: [0; ROWS],
        purpose: none,
        digest: none,
        padding: none,
        mgf: none,
        root: empty_root(),
    }
}

// A set in the place that its row has: 0 is that of purpose, 3 of digest, 4 of padding and 7 of mgfDigest.
fn store_set(list: &mut FieldList, row: usize, g: NumberSet)
    requires { (row < row_count) × ((row_at row).kind ≡ set) }
    ensures { list.new ≡ with_set list.old row g }
{
    match row {
        0 => list.purpose = g,
        3 => list.digest = g,
        4 => list.padding = g,
        _ => list.mgf = g,
    }
}

// A row is present, with these words.
fn mark_row(list: &mut FieldList, row: usize, value: u64, size: u64)
    requires { row < row_count }
    ensures { list.new ≡ with_row list.old row value size }
{
    list.present[row] = true;
    list.values[row] = value;
    list.sizes[row] = size;
}

fn store_set_field(s: &[u8], field: FieldHead, list: &mut FieldList) -> Result<(), Refused>
    requires { (row_at field.row).kind ≡ set }
    ensures { (v : ℕ) → StoredAs s.now v field list.old list.new result }
{
    let g = set_content(s, field.body)?;
    store_set(list, field.row, g);
    mark_row(list, field.row, 0, 0);
    Ok(())
}

fn store_root_field(
    s: &[u8],
    field: FieldHead,
    version: u32,
    list: &mut FieldList,
) -> Result<(), Refused>
    requires { (row_at field.row).kind ≡ root }
    ensures { StoredAs s.now version field list.old list.new result }
{
    list.root = root_content(s, field.body, 3 <= version)?;
    mark_row(list, field.row, 0, 0);
    Ok(())
}

fn store_plain_field(
    s: &[u8],
    field: FieldHead,
    kind: Kind,
    list: &mut FieldList,
) -> Result<(), Refused>
    requires { (of_kind kind ≡ (row_at field.row).kind) × (is_plain (of_kind kind) ≡ true) }
    ensures { (v : ℕ) → StoredAs s.now v field list.old list.new result }
{
    let plain = plain_content(s, field.body, kind)?;
    mark_row(list, field.row, plain.value, plain.size);
    Ok(())
}

// The field's content, which is all of s from its body on, stored by its row; the words of a set and of 704 are 0.
fn store_field(
    s: &[u8],
    field: FieldHead,
    version: u32,
    list: &mut FieldList,
) -> Result<(), Refused>
    ensures { StoredAs s.now version field list.old list.new result }
{
    let kind = row_at(field.row).kind;
    match kind {
        Kind::Set => store_set_field(s, field, list),
        Kind::Root => store_root_field(s, field, version, list),
        _ => store_plain_field(s, field, kind, list),
    }
}

// The fields from at to the holder's end, stored by their rows. The place moves by what a field takes, so no range has it.
fn read_fields(s: &[u8], at: usize, version: u32, list: &mut FieldList) -> Result<(), Refused>
    requires { (at ≤ length s.now) × (list.old ≡ empty_list) }
    ensures { FieldsRead s.now at version list.new result }
{
    let mut place = at;
    let mut low: usize = 0;
    while place < s.len() {
        let field = open_field(s, place, version, low)?;
        store_field(&s[..field.stop], field, version, list)?;
        place = field.stop;
        low = field.number + 1;
    }
    Ok(())
}

// One list, filled where it stands: a SEQUENCE of fields; and the next place.
pub(crate) fn read_list(
    s: &[u8],
    at: usize,
    version: u32,
    list: &mut FieldList,
) -> Result<usize, Refused>
    requires { list.old ≡ empty_list }
    ensures { ListRead s.now at version list.new result }
{
    let Span { body, stop } = open_tagged(s, at, 1, 16)?;
    read_fields(&s[..stop], body, version, list)?;
    Ok(stop)
}
