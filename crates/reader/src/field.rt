// A field of a list, its content still unread.
ghost use Rattle.std.specs.Prelude.{◌<◌};
ghost use Rattle.schema.specs.Table.{row_count};

// Its row, which the table has, its number, and its content from body to stop.
#[derive(Clone, Copy)]
pub(crate) struct FieldHead {
    pub(crate) row: usize,
    pub(crate) number: usize,
    pub(crate) body: usize,
    pub(crate) stop: usize,
    ghost in_table: { row < row_count },
}
