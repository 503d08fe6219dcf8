//! One side of a comparison, and one of its rows.
ghost use Rattle.table.specs.Words.{row_of};
ghost use Rattle.comparison.specs.Classes.{Sound, side};
ghost use Rattle.comparison.specs.Same.{placed, SpanInside};

use table::RowWords;

// A message, its row table and the rows used, which the soundness check passes.
#[derive(Clone, Copy, Debug, PartialEq, Eq)]
pub(crate) struct Side<'a> {
    pub message: &'a [u8],
    pub rows: &'a [u32],
    pub used: u32,
    ghost sound: { Sound (side message.now rows.now used) },
}

// A row, its message, and the number of its side's first row over both sides. Where the row has a span, it lies in the message.
#[derive(Clone, Copy, Debug, PartialEq, Eq)]
pub(crate) struct Placed<'a> {
    pub message: &'a [u8],
    pub base: u32,
    pub row: RowWords,
    ghost inside: { SpanInside (placed message.now base (row_of row)) },
}
