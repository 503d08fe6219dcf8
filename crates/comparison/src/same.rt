//! Two rows compared: by their kinds, their own words and bytes, and the classes of the rows that they name. Nothing is expanded.
ghost use Rattle.std.specs.Prelude.{◌≡◌, ◌+◌, T, length, get_or};
ghost use Rattle.format.specs.Byte.{same_bytes};
ghost use Rattle.format.specs.Rows.{integer_of_row};
ghost use Rattle.format.specs.Term.{int};
ghost use Rattle.table.specs.Words.{row_of};
ghost use Rattle.comparison.specs.Classes.{same_term};
ghost use Rattle.comparison.specs.Same.{has_span, same_span, same_class, same_cell, same_row};
ghost use Rattle.comparison.specs.Sides.{placed_of};

use crate::side::Placed;
use format::Row;
use format::kind::Kind;
use table::RowWords;

// Bytes of a block.
const BLOCK: usize = 16;

// Whether two texts of one length are the same bytes, looked at one by one.
#[inline(always)]
fn same_short(a: &[u8], b: &[u8]) -> bool
    requires { length a.now ≡ length b.now }
    ensures { result ≡ same_bytes a.now b.now }
{
    for i in 0..a.len() {
        if a[i] != b[i] {
            return false;
        }
    }
    true
}

// Whether two texts are the same bytes. A block of each is compared first: most texts of one length differ there, and are told apart without a call.
// Texts shorter than a block are compared byte by byte: a call, or a test of their length, costs more.
#[inline(always)]
fn same_bytes(a: &[u8], b: &[u8]) -> bool
    ensures { result ≡ same_bytes a.now b.now }
{
    if a.len() != b.len() {
        return false;
    }
    match (
        a.split_first_chunk::<BLOCK>(),
        b.split_first_chunk::<BLOCK>(),
    ) {
        (Some((block, _)), Some((other, _))) => block == other && a == b,
        _ => same_short(a, b),
    }
}

// Whether the spans of two rows are the same bytes.
#[inline(always)]
fn same_span(x: Placed, y: Placed) -> bool
    requires { T (has_span x.row.kind) × T (has_span y.row.kind) }
    ensures { result ≡ same_span x.entry.message.now (row_of x.entry.row) y.entry.message.now (row_of y.entry.row) }
{
    same_bytes(table::span(x.message, x.row), table::span(y.message, y.row))
}

// Whether two rows of kind 1 hold the same integer.
fn same_integer(x: RowWords, y: RowWords) -> bool
    ensures { result ≡ same_term (int (integer_of_row (row_of x))) (int (integer_of_row (row_of y))) }
{
    x.first == y.first && x.second == y.second
}

// The class of a row of the side whose rows begin at `base`; past the rows of both sides, 0.
fn class_at(classes: &[u32], base: u32, row: Row) -> u32
    ensures { result ≡ get_or classes.now (base + row.0) 0 }
{
    let n = (base as usize) + (row.0 as usize);
    classes.get(n).copied().unwrap_or(0)
}

// Whether a row of one side and a row of the other have the same class.
pub(crate) fn same_class(classes: &[u32], base_x: u32, x: Row, base_y: u32, y: Row) -> bool
    ensures { result ≡ same_class classes.now base_x x.0 base_y y.0 }
{
    class_at(classes, base_x, x) == class_at(classes, base_y, y)
}

// Whether the two rows that a list cell or a tuple's field names have the same classes as those that another names.
fn same_cell(classes: &[u32], x: Placed, y: Placed) -> bool
    ensures { result ≡ same_cell classes.now x.entry.base (row_of x.entry.row) y.entry.base (row_of y.entry.row) }
{
    let r = x.row;
    let s = y.row;
    same_class(classes, x.base, Row(r.first), y.base, Row(s.first))
        && same_class(classes, x.base, Row(r.second), y.base, Row(s.second))
}

// Whether two rows of sound tables stand for the same term, where the classes of the rows that they name are known.
#[tactic(auto, unfolding(crate::specs::Same::has_span, crate::specs::Same::same_row, crate::specs::Same::same_content))]
pub(crate) fn same_row(classes: &[u32], x: Placed, y: Placed) -> bool
    ensures { result ≡ same_row classes.now (placed_of x.entry) (placed_of y.entry) }
{
    let k = x.row.kind;
    if k != y.row.kind {
        return false;
    }
    // most integers differ in their low halves: they are told apart before the other kinds are asked for, by `<=`, which the compiler leaves in this place
    if k <= Kind::Integer as u32 && x.row.second != y.row.second {
        return false;
    }
    // tested as numbers: a match on `Kind::try_from(k)` took up to 15 % more instructions to compare two tables
    if k == Kind::Integer as u32 {
        return same_integer(x.row, y.row);
    }
    if k == Kind::Atom as u32 || k == Kind::String as u32 || k == Kind::Binary as u32 {
        return same_span(x, y);
    }
    if k == Kind::Nil as u32 || k == Kind::End as u32 {
        return true;
    }
    if k == Kind::Cons as u32 || k == Kind::Field as u32 {
        return same_cell(classes, x, y);
    }
    k == Kind::Tag as u32
        && same_class(classes, x.base, Row(x.row.third), y.base, Row(y.row.third))
        && same_span(x, y)
}
