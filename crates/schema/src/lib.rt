// The schema's table (document 01, "KeyDescription"): 42 rows in ascending number, each a field's number, its kind and
// the first and last version that hold it. A row is named by its place in the table.
#![tactic(auto)]

pub mod version;

ghost use Rattle.std.specs.Prelude.{◌≡◌, ◌<◌, IfSome};
ghost use Rattle.schema.specs.Table.{rows, row_at, row_count, index_of, held_in};
ghost use Rattle.schema.specs.Rows.{of_row, place_of};

// How many rows the table has.
pub const ROWS: usize = 42;

// How a field's content is read: document 01's kinds. A `match` on them has what each is in one place; closures would part it.
#[derive(Clone, Copy, Debug, PartialEq, Eq)]
pub enum Kind {
    Set,
    Number32,
    Number64,
    Null,
    Octets,
    Root,
}

#[derive(Clone, Copy, Debug, PartialEq, Eq)]
pub struct Row {
    pub number: usize,
    pub kind: Kind,
    pub first: u32,
    pub last: u32,
}

fn make(number: usize, kind: Kind, first: u32, last: u32) -> Row
    ensures { result ≡ record { number = number; kind = kind; first = first; last = last } }
{
    Row {
        number,
        kind,
        first,
        last,
    }
}

// The place in the table of a field number, where a row has it. A match, and no search: a constant array is built anew on the
// stack at each use, which costs more than the rest of a field.
#[tactic(auto, using(crate::proofs::Table::no_row), unfolding(crate::specs::Table::rows, crate::specs::Table::index_of, answer::specs::Answer::pick))]
pub fn row_of(number: usize) -> Option<usize>
    ensures is { place_of result ≡ index_of rows number }
    ensures inside { IfSome result (λ k. k < row_count) }
{
    match number {
        1 => Some(0),
        2 => Some(1),
        3 => Some(2),
        5 => Some(3),
        6 => Some(4),
        10 => Some(5),
        200 => Some(6),
        203 => Some(7),
        303 => Some(8),
        305 => Some(9),
        400 => Some(10),
        401 => Some(11),
        402 => Some(12),
        405 => Some(13),
        503 => Some(14),
        504 => Some(15),
        505 => Some(16),
        506 => Some(17),
        507 => Some(18),
        508 => Some(19),
        509 => Some(20),
        600 => Some(21),
        601 => Some(22),
        701 => Some(23),
        702 => Some(24),
        703 => Some(25),
        704 => Some(26),
        705 => Some(27),
        706 => Some(28),
        709 => Some(29),
        710 => Some(30),
        711 => Some(31),
        712 => Some(32),
        713 => Some(33),
        714 => Some(34),
        715 => Some(35),
        716 => Some(36),
        717 => Some(37),
        718 => Some(38),
        719 => Some(39),
        720 => Some(40),
        723 => Some(41),
        _ => None,
    }
}

// The row at a place of the table; past it, one that no version holds, since it cannot fail. A `match`, since a constant array is
// built anew at each use.
#[tactic(auto, unfolding(crate::specs::Table::rows, crate::specs::Table::row_at))]
pub fn row_at(place: usize) -> Row
    ensures { of_row result ≡ row_at place }
{
    match place {
        0 => make(1, Kind::Set, 1, 300),
        1 => make(2, Kind::Number32, 1, 300),
        2 => make(3, Kind::Number32, 1, 300),
        3 => make(5, Kind::Set, 1, 300),
        4 => make(6, Kind::Set, 1, 300),
        5 => make(10, Kind::Number32, 1, 300),
        6 => make(200, Kind::Number64, 1, 300),
        7 => make(203, Kind::Set, 100, 300),
        8 => make(303, Kind::Null, 3, 300),
        9 => make(305, Kind::Null, 4, 300),
        10 => make(400, Kind::Number64, 1, 300),
        11 => make(401, Kind::Number64, 1, 300),
        12 => make(402, Kind::Number64, 1, 300),
        13 => make(405, Kind::Number32, 100, 300),
        14 => make(503, Kind::Null, 1, 300),
        15 => make(504, Kind::Number32, 1, 300),
        16 => make(505, Kind::Number32, 1, 300),
        17 => make(506, Kind::Null, 1, 300),
        18 => make(507, Kind::Null, 3, 300),
        19 => make(508, Kind::Null, 3, 300),
        20 => make(509, Kind::Null, 3, 300),
        21 => make(600, Kind::Null, 1, 4),
        22 => make(601, Kind::Octets, 1, 0),
        23 => make(701, Kind::Number64, 1, 300),
        24 => make(702, Kind::Number32, 1, 300),
        25 => make(703, Kind::Null, 1, 2),
        26 => make(704, Kind::Root, 1, 300),
        27 => make(705, Kind::Number32, 1, 300),
        28 => make(706, Kind::Number32, 1, 300),
        29 => make(709, Kind::Octets, 2, 300),
        30 => make(710, Kind::Octets, 2, 300),
        31 => make(711, Kind::Octets, 2, 300),
        32 => make(712, Kind::Octets, 2, 300),
        33 => make(713, Kind::Octets, 2, 300),
        34 => make(714, Kind::Octets, 2, 300),
        35 => make(715, Kind::Octets, 2, 300),
        36 => make(716, Kind::Octets, 2, 300),
        37 => make(717, Kind::Octets, 2, 300),
        38 => make(718, Kind::Number32, 3, 300),
        39 => make(719, Kind::Number32, 3, 300),
        40 => make(720, Kind::Null, 4, 300),
        41 => make(723, Kind::Octets, 300, 300),
        _ => make(0, Kind::Null, 1, 0),
    }
}

// Whether a version holds the field of a row.
pub fn held(version: u32, r: Row) -> bool
    ensures { result ≡ held_in version (of_row r) }
{
    r.first <= version && version <= r.last
}
